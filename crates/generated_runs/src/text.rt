//! The text of a generated file.

ghost use Rattle.std.specs.Prelude.{◌≡◌, ◌≤◌, IfOk};
ghost use Rattle.chor_print.specs.Text.{canonical_text};
ghost use Rattle.generated_runs.specs.Texts.{IsGeneratedText};

use chor_base::Memory;
use chor_print::print;
use chor_tree::File;
use generated_files::generate_faultless;
use std::alloc::Global;

/// The canonical text of the file with so many rounds.
pub fn generated_text(alloc: Global, count: u32) -> Result<Vec<u8>, Memory>
    requires some { 1 ≤ count }
    requires few { count ≤ 4000 }
    ensures { IfOk result (λ text. IsGeneratedText count text.items) }
{
    let file = generate_faultless(alloc, count)?;
    let text = text_of(alloc, &file);
    drop(file);
    text
}

fn text_of(alloc: Global, file: &File) -> Result<Vec<u8>, Memory>
    ensures { IfOk result (λ text. text.items ≡ canonical_text file.now) }
{
    let mut text = Vec::new(alloc);
    print(alloc, file, &mut text)?;
    Ok(text)
}
