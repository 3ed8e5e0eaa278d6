//! Names in the text of endpoint programs.

ghost use Rattle.std.specs.Prelude.{◌≡◌, ◌++◌, ◌∷◌, [], OnOk, codes};
ghost use Rattle.chor_base.specs.Writing.{name_in};
ghost use Rattle.endpoint_text.specs.Text.{name_text, spaced, listed};
ghost use Rattle.endpoint_text.specs.Parts.{after_commas};

use chor_base::{Memory, NameId, Names, put_bytes, put_name};
use endpoint_code::Endpoints;

/// The bytes of a name: none where it isn't in the table.
pub fn word_of(names: &Names, name: NameId) -> &[u8]
    ensures { result.now ≡ name_in names.now name }
{
    if (name.0 as usize) < names.len() {
        names.at(name)
    } else {
        b"".as_slice()
    }
}

/// Appends a word and names, each after a space.
pub fn put_words(
    out: &mut Vec<u8>,
    e: &Endpoints,
    word: &[u8],
    names: &[NameId],
) -> Result<(), Memory>
    ensures { OnOk result (out.new.items ≡ out.old.items ++ (word.now ++ spaced e.now names.now)) }
{
    put_bytes(out, word)?;
    for name in names {
        put_bytes(out, b" ".as_slice())?;
        put_name(out, &e.names, *name)?;
    }
    Ok(())
}

/// Appends a word and a role of a channel, as `service a[A]`.
pub fn put_role(
    out: &mut Vec<u8>,
    e: &Endpoints,
    word: &[u8],
    channel: NameId,
    role: NameId,
) -> Result<(), Memory>
    ensures { OnOk result (out.new.items ≡ out.old.items ++ (word.now ++ spaced e.now (channel ∷ []) ++ codes "[" ++ name_text e.now role ++ codes "]")) }
{
    put_words(out, e, word, [channel].as_slice())?;
    put_bytes(out, b"[".as_slice())?;
    put_name(out, &e.names, role)?;
    put_bytes(out, b"]".as_slice())
}

/// Appends sessions between parentheses, after a space.
pub fn put_sessions(out: &mut Vec<u8>, e: &Endpoints, sessions: &[NameId]) -> Result<(), Memory>
    ensures { OnOk result (out.new.items ≡ out.old.items ++ (codes " (" ++ listed e.now sessions.now ++ codes ")")) }
{
    put_bytes(out, b" (".as_slice())?;
    put_list(out, e, sessions)?;
    put_bytes(out, b")".as_slice())
}

/// Appends names with commas between them.
pub fn put_list(out: &mut Vec<u8>, e: &Endpoints, names: &[NameId]) -> Result<(), Memory>
    ensures { OnOk result (out.new.items ≡ out.old.items ++ listed e.now names.now) }
{
    match names.split_first() {
        None => Ok(()),
        Some((first, rest)) => {
            put_name(out, &e.names, *first)?;
            put_after_commas(out, e, rest)
        }
    }
}

// Appends names with a comma before each.
fn put_after_commas(out: &mut Vec<u8>, e: &Endpoints, names: &[NameId]) -> Result<(), Memory>
    ensures { OnOk result (out.new.items ≡ out.old.items ++ after_commas e.now names.now) }
{
    for name in names {
        put_bytes(out, b", ".as_slice())?;
        put_name(out, &e.names, *name)?;
    }
    Ok(())
}
