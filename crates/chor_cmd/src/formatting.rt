//! `fmt`.

ghost use Rattle.std.specs.Prelude.{◌≡◌, List, [], ◌∷◌, IfOk};
ghost use Rattle.chor_host.specs.Functions.{Function};
ghost use Rattle.chor_print.specs.Text.{canonical_text};
ghost use Rattle.command_words.specs.declared.words.Command.TheVariants.{Fmt};
ghost use Rattle.chor_cmd.specs.Stops.{Answers, TouchesOnly};

use crate::ending::{Ending, Stop};
use crate::sources::fetch_source;
use crate::status::Status;
use chor_base::{Memory, Word};
use chor_io::Shelf;
use chor_print::print;
use chor_tree::File;
use std::alloc::Global;

/// Writes the canonical text of the file of this name, which is judged by the rules of tokens and of
/// the grammar alone.
pub fn format<'a, F: Shelf>(
    alloc: Global,
    name: &'a Word,
    shelf: &mut F,
) -> Result<Ending, Stop<'a>>
    ensures answers { (functions : List Function) → Answers functions Fmt (name.now ∷ []) (F.state shelf.old) (F.state shelf.new) result }
    ensures only { TouchesOnly (name.now ∷ []) (F.state shelf.old) (F.state shelf.new) }
{
    let file = fetch_source(alloc, name, shelf)?;
    let text = canonical_of(alloc, &file);
    drop(file);
    let text = text?;
    Ok(Ending {
        text,
        status: Status::Done,
    })
}

fn canonical_of(alloc: Global, file: &File) -> Result<Vec<u8>, Memory>
    ensures { IfOk result (λ text. text.items ≡ canonical_text file.now) }
{
    let mut text = Vec::new(alloc);
    print(alloc, file, &mut text)?;
    Ok(text)
}
