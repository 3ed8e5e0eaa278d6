//! Pieces of text that all that is printed is made of.

ghost use Rattle.std.specs.Prelude.{◌≡◌, ◌++◌, OnOk, OnErr};
ghost use Rattle.std.specs.Fmt.{decimal, signed_decimal};
ghost use Rattle.chor_base.specs.Writing.{name_in, escaped_byte, escaped, literal_in, truth_text, rule_name};

use crate::memory::Memory;
use crate::names::{NameId, Names};
use crate::rule::Rule;
use crate::texts::Texts;
use itoa::Buffer;
use std::alloc::Global;

/// Appends bytes.
pub fn put_bytes(out: &mut Vec<u8>, bytes: &[u8]) -> Result<(), Memory>
    ensures ok { OnOk result (out.new.items ≡ out.old.items ++ bytes.now) }
    ensures err { OnErr result (out.new.items ≡ out.old.items) }
{
    out.extend_from_slice(bytes)?;
    Ok(())
}

/// Appends a number in decimal digits.
pub fn put_number(out: &mut Vec<u8>, _alloc: Global, number: u64) -> Result<(), Memory>
    ensures ok { OnOk result (out.new.items ≡ out.old.items ++ decimal number) }
    ensures err { OnErr result (out.new.items ≡ out.old.items) }
{
    let mut digits = Buffer::new();
    put_bytes(out, digits.format(number).as_bytes())
}

/// Appends a number in decimal digits, after `-` where it is negative.
pub fn put_int(out: &mut Vec<u8>, _alloc: Global, number: i64) -> Result<(), Memory>
    ensures ok { OnOk result (out.new.items ≡ out.old.items ++ signed_decimal number) }
    ensures err { OnErr result (out.new.items ≡ out.old.items) }
{
    let mut signed = Buffer::new();
    put_bytes(out, signed.format(number).as_bytes())
}

/// Appends the word of a name. A name that isn't in the table adds no bytes.
pub fn put_name(out: &mut Vec<u8>, names: &Names, name: NameId) -> Result<(), Memory>
    ensures ok { OnOk result (out.new.items ≡ out.old.items ++ name_in names.now name) }
    ensures err { OnErr result (out.new.items ≡ out.old.items) }
{
    if (name.0 as usize) < names.len() {
        put_bytes(out, names.at(name))
    } else {
        Ok(())
    }
}

/// Appends a text as it is written in a source: between quotes, with a backslash before quotes and
/// backslashes, and `\n` for a line feed. A text that isn't in the table adds no bytes.
pub fn put_literal(out: &mut Vec<u8>, alloc: Global, texts: &Texts, text: u32) -> Result<(), Memory>
    ensures ok { OnOk result (out.new.items ≡ out.old.items ++ literal_in texts.now text) }
    ensures err { OnErr result (out.new.items ≡ out.old.items) }
{
    if (text as usize) < texts.len() {
        let mut literal = Vec::new(alloc);
        put_bytes(&mut literal, b"\"".as_slice())?;
        put_escaped(&mut literal, texts.at(text))?;
        put_bytes(&mut literal, b"\"".as_slice())?;
        put_bytes(out, literal.as_slice())
    } else {
        Ok(())
    }
}

fn put_escaped(out: &mut Vec<u8>, bytes: &[u8]) -> Result<(), Memory>
    ensures { OnOk result (out.new.items ≡ out.old.items ++ escaped bytes.now) }
{
    for byte in bytes {
        put_escaped_byte(out, *byte)?;
    }
    Ok(())
}

fn put_escaped_byte(out: &mut Vec<u8>, byte: u8) -> Result<(), Memory>
    ensures { OnOk result (out.new.items ≡ out.old.items ++ escaped_byte byte) }
{
    match byte {
        b'"' => put_bytes(out, b"\\\"".as_slice()),
        b'\\' => put_bytes(out, b"\\\\".as_slice()),
        b'\n' => put_bytes(out, b"\\n".as_slice()),
        _ => put_bytes(out, [byte].as_slice()),
    }
}

/// Appends `true` or `false`.
pub fn put_truth(out: &mut Vec<u8>, truth: bool) -> Result<(), Memory>
    ensures ok { OnOk result (out.new.items ≡ out.old.items ++ truth_text truth) }
    ensures err { OnErr result (out.new.items ≡ out.old.items) }
{
    if truth {
        put_bytes(out, b"true".as_slice())
    } else {
        put_bytes(out, b"false".as_slice())
    }
}

impl Rule {
    /// The name by which the program tells that the rule is violated, as `L2`.
    pub fn name(self) -> &'static [u8]
        ensures { result.now ≡ rule_name self }
    {
        match self {
            Rule::L1 => b"L1",
            Rule::L2 => b"L2",
            Rule::L3 => b"L3",
            Rule::L4 => b"L4",
            Rule::L5 => b"L5",
            Rule::P1 => b"P1",
            Rule::P2 => b"P2",
            Rule::P3 => b"P3",
            Rule::N1 => b"N1",
            Rule::N2 => b"N2",
            Rule::N3 => b"N3",
            Rule::G1 => b"G1",
            Rule::G2 => b"G2",
            Rule::G3 => b"G3",
            Rule::V1 => b"V1",
            Rule::V2 => b"V2",
            Rule::V3 => b"V3",
            Rule::T1 => b"T1",
            Rule::T2 => b"T2",
            Rule::T3 => b"T3",
            Rule::T4 => b"T4",
            Rule::T5 => b"T5",
            Rule::T6 => b"T6",
            Rule::T7 => b"T7",
            Rule::T8 => b"T8",
            Rule::T9 => b"T9",
            Rule::U1 => b"U1",
            Rule::U2 => b"U2",
            Rule::M1 => b"M1",
            Rule::M2 => b"M2",
            Rule::E1 => b"E1",
            Rule::E2 => b"E2",
            Rule::E3 => b"E3",
            Rule::E4 => b"E4",
        }
    }
}
