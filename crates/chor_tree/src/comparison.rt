//! Whether two files say the same.

ghost use Rattle.std.specs.Prelude.{◌≡◌};
ghost use Rattle.chor_tree.specs.Same.{same_files};

mod body;
mod both;
mod declaration;
mod expression;
mod form;

use crate::comparison::body::same_bodies;
use crate::comparison::both::Say;
use crate::file::File;

/// Whether two files are equal but for their places and the numbers of their words and texts.
///
/// Names are the same where their words are, and texts where their bytes are. The nodes of the two
/// files may stand in any order.
#[tactic(auto, using(crate::proofs::Blocks::procedures_same))]
pub fn same(a: &File, b: &File) -> bool
    ensures { result ≡ same_files a.now b.now }
{
    a.header.says(&b.header, a, b)
        && a.protocols.says(&b.protocols, a, b)
        && a.services.says(&b.services, a, b)
        && a.procs.says(&b.procs, a, b)
        && a.processes.says(&b.processes, a, b)
        && same_bodies(a, b, a.body, b.body)
}
