//! The projection of whole source files.
#![tactic(auto)]

mod channels;
mod denied;
mod numbered;
mod prepared;
mod procedures;
mod shifted;
mod units;
mod whole;

pub use prepared::{Prepared, UnitCode, clean_body, unit_code};
pub use whole::{project, project_from};
