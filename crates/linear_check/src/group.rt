//! Up to 128 channels of a file.

use crate::channels::Channels;
use chor_tree::File;

// Up to 128 channels of a file.
#[derive(Clone, Copy)]
pub struct Group<'a> {
    pub file: &'a File,
    pub channels: Channels<'a>,
}
