//! What stands within a line: names, parts, parameters, and lists of them.

ghost use Rattle.std.specs.Prelude.{◌≡◌, ◌++◌, OnOk, List, ℕ, codes};
ghost use Rattle.chor_base.specs.Writing.{name_in};
ghost use Rattle.chor_print.specs.Pieces.{named_text, listed, listed_after, part_text, sort_text, payload_text, arm_text, variable_text, variables_text, process_param_text, holder_text, session_param_text};
ghost use Rattle.chor_print.specs.Parts.{after_commas};

use chor_base::{Memory, Names, Sort, put_bytes, put_name};
use chor_tree::{Named, Part, Payload, ProcParam, ProtoArm, SessionParam};

/// Something that may stand in a list with commas.
pub trait Piece {
    /// How it is written with this table of names.
    ghost text: { List (List ℕ) → Self → List ℕ };

    /// Appends the text of the piece.
    fn put(&self, out: &mut Vec<u8>, names: &Names) -> Result<(), Memory>
        ensures { OnOk result (out.new.items ≡ out.old.items ++ text names.now self.now) };
}

impl Piece for Named {
    ghost text = { named_text };

    fn put(&self, out: &mut Vec<u8>, names: &Names) -> Result<(), Memory> {
        put_name(out, names, self.name)
    }
}

impl Piece for Part {
    ghost text = { part_text };

    fn put(&self, out: &mut Vec<u8>, names: &Names) -> Result<(), Memory> {
        self.process.put(out, names)?;
        put_after(out, names, b"[", &self.role)?;
        put_bytes(out, b"]")
    }
}

impl Piece for ProtoArm {
    ghost text = { arm_text };

    fn put(&self, out: &mut Vec<u8>, names: &Names) -> Result<(), Memory> {
        self.label.put(out, names)?;
        put_after(out, names, b" then ", &self.next)
    }
}

impl Piece for Payload {
    ghost text = { payload_text };

    fn put(&self, out: &mut Vec<u8>, names: &Names) -> Result<(), Memory> {
        match self {
            Payload::Plain(sort) => put_bytes(out, sort_text(*sort)),
            Payload::Endpoint {
                protocol,
                state,
                role,
            } => {
                protocol.put(out, names)?;
                put_after(out, names, b".", state)?;
                put_after(out, names, b"@", role)
            }
        }
    }
}

impl Piece for (Named, Sort) {
    ghost text = { variable_text };

    fn put(&self, out: &mut Vec<u8>, names: &Names) -> Result<(), Memory> {
        let (name, sort) = self;
        name.put(out, names)?;
        put_bytes(out, b" : ")?;
        put_bytes(out, sort_text(*sort))
    }
}

impl Piece for (Named, Named) {
    ghost text = { holder_text };

    fn put(&self, out: &mut Vec<u8>, names: &Names) -> Result<(), Memory> {
        let (role, holder) = self;
        role.put(out, names)?;
        put_after(out, names, b" = ", holder)
    }
}

impl Piece for ProcParam {
    ghost text = { process_param_text };

    fn put(&self, out: &mut Vec<u8>, names: &Names) -> Result<(), Memory> {
        self.name.put(out, names)?;
        put_variables(out, names, self.vars.as_slice())
    }
}

impl Piece for SessionParam {
    ghost text = { session_param_text };

    fn put(&self, out: &mut Vec<u8>, names: &Names) -> Result<(), Memory> {
        self.name.put(out, names)?;
        put_after(out, names, b" : ", &self.protocol)?;
        put_after(out, names, b".", &self.state)?;
        put_holders(out, names, self.holders.as_slice())
    }
}

/// Appends a word and a piece.
pub fn put_after<T: Piece>(
    out: &mut Vec<u8>,
    names: &Names,
    word: &[u8],
    piece: &T,
) -> Result<(), Memory>
    ensures { OnOk result (out.new.items ≡ out.old.items ++ (word.now ++ T.text names.now piece.now)) }
{
    put_bytes(out, word)?;
    piece.put(out, names)
}

/// Appends items with commas between them.
pub fn put_list<T: Piece>(out: &mut Vec<u8>, names: &Names, items: &[T]) -> Result<(), Memory>
    ensures { OnOk result (out.new.items ≡ out.old.items ++ listed (T.text names.now) items.now) }
{
    match items.split_first() {
        None => Ok(()),
        Some((first, rest)) => {
            first.put(out, names)?;
            put_after_commas(out, names, rest)
        }
    }
}

/// Appends a word and items with commas between them, or nothing where there are no items.
pub fn put_list_after<T: Piece>(
    out: &mut Vec<u8>,
    names: &Names,
    word: &[u8],
    items: &[T],
) -> Result<(), Memory>
    ensures { OnOk result (out.new.items ≡ out.old.items ++ listed_after word.now (T.text names.now) items.now) }
{
    if items.is_empty() {
        return Ok(());
    }
    put_bytes(out, word)?;
    put_list(out, names, items)
}

// Appends items with a comma before each.
fn put_after_commas<T: Piece>(out: &mut Vec<u8>, names: &Names, items: &[T]) -> Result<(), Memory>
    ensures { OnOk result (out.new.items ≡ out.old.items ++ after_commas (T.text names.now) items.now) }
{
    for item in items {
        put_bytes(out, b", ")?;
        item.put(out, names)?;
    }
    Ok(())
}

// Appends the roles of a session parameter with their holders.
fn put_holders(out: &mut Vec<u8>, names: &Names, holders: &[(Named, Named)]) -> Result<(), Memory>
    ensures { OnOk result (out.new.items ≡ out.old.items ++ (codes " {" ++ listed (holder_text names.now) holders.now ++ codes "}")) }
{
    put_bytes(out, b" {")?;
    put_list(out, names, holders)?;
    put_bytes(out, b"}")
}

// Appends the variables of a process parameter, where there are any.
fn put_variables(out: &mut Vec<u8>, names: &Names, vars: &[(Named, Sort)]) -> Result<(), Memory>
    ensures { OnOk result (out.new.items ≡ out.old.items ++ variables_text names.now vars.now) }
{
    if vars.is_empty() {
        return Ok(());
    }
    put_bytes(out, b"(")?;
    put_list(out, names, vars)?;
    put_bytes(out, b")")
}

fn sort_text(sort: Sort) -> &'static [u8]
    ensures { result.now ≡ sort_text sort }
{
    match sort {
        Sort::Int => b"int",
        Sort::Bool => b"bool",
        Sort::Text => b"text",
    }
}
