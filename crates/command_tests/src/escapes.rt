//! Bytes that no line of a file of cases can have.

use anyhow::bail;
use std::alloc::Global;

// Puts the bytes of a text after those that stand there: what stands there itself, and for `\n` and
// `\r` their characters, for `\x` and two digits a byte, and for `\#` this number.
fn put(bytes: &mut Vec<u8>, alloc: Global, text: &str, number: u32) -> anyhow::Result<()> {
    let mut parts = text.split('\\');
    if let Some(first) = parts.next() {
        bytes.extend_from_slice(first.as_bytes())?;
    }
    for part in parts {
        put_escape(bytes, alloc, part, number)?;
    }
    Ok(())
}

// Puts what stands after a `\`.
fn put_escape(bytes: &mut Vec<u8>, alloc: Global, text: &str, number: u32) -> anyhow::Result<()> {
    let rest = match text.as_bytes() {
        [b'n', rest @ ..] => {
            bytes.push(b'\n')?;
            rest
        }
        [b'r', rest @ ..] => {
            bytes.push(b'\r')?;
            rest
        }
        [b'#', rest @ ..] => {
            let digits = format!(in alloc; "{number}")?;
            bytes.extend_from_slice(digits.as_bytes())?;
            rest
        }
        [b'x', high, low, rest @ ..] => {
            bytes.push(digit(*high)? << 4 | digit(*low)?)?;
            rest
        }
        _ => bail!("there is no such escape"),
    };
    bytes.extend_from_slice(rest)?;
    Ok(())
}

// A digit to the base 16.
fn digit(byte: u8) -> anyhow::Result<u8> {
    match byte {
        b'0'..=b'9' => Ok(byte - b'0'),
        b'a'..=b'f' => Ok(byte - b'a' + 10),
        _ => bail!("that is no digit"),
    }
}

// Puts a text so often as the number before it says. Its turns are counted from 1.
fn put_turns(bytes: &mut Vec<u8>, alloc: Global, turns: &str) -> anyhow::Result<()> {
    let Some((count, text)) = turns.split_once(' ') else {
        bail!("what is put more than once begins with a number and a space");
    };
    let count: u32 = count.parse()?;
    for number in 1..=count {
        put(bytes, alloc, text, number)?;
    }
    Ok(())
}

// Puts a line: with escapes, and for `\{N TEXT\}` the bytes of the text N times.
fn put_line(bytes: &mut Vec<u8>, alloc: Global, line: &str) -> anyhow::Result<()> {
    let mut parts = line.split("\\{");
    if let Some(first) = parts.next() {
        put(bytes, alloc, first, 0)?;
    }
    for part in parts {
        let Some((turns, rest)) = part.split_once("\\}") else {
            bail!("what is put more than once isn't ended");
        };
        put_turns(bytes, alloc, turns)?;
        put(bytes, alloc, rest, 0)?;
    }
    Ok(())
}

/// Puts the bytes that these lines spell. Only escapes make line feeds.
pub fn put_escaped(bytes: &mut Vec<u8>, alloc: Global, lines: &str) -> anyhow::Result<()> {
    for line in lines.split('\n') {
        put_line(bytes, alloc, line)?;
    }
    Ok(())
}
