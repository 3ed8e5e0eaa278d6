//! What processes do in a statement.

ghost use Rattle.std.specs.Prelude.{◌≡◌, ◌<◌, ◌++◌, All, IfOk, length};
ghost use Rattle.projection.specs.Making.{part_at, Puts};
ghost use Rattle.block_codes.specs.Nodes.{made_in, names_of};
ghost use Rattle.block_codes.specs.Parts.{ArePut};

use crate::coded::Coded;
use crate::node::made_at;
use crate::part::part;
use chor_base::{List, Memory, NameId};
use chor_tree::Form;
use endpoint_code::{Code, CodeId};
use std::alloc::Global;

/// The processes in scope after a statement: a start adds its new ones.
pub fn scope_after(alloc: Global, scope: &[NameId], form: &Form) -> Result<List<NameId>, Memory>
    ensures { IfOk result (λ list. list ≡ scope.now ++ names_of (made_in form.now)) }
{
    let mut names = List::from_slice(alloc, scope)?;
    for part in made_at(form) {
        names.push(part.process.name)?;
    }
    Ok(names)
}

/// Adds what each process of a list does in a statement before its code of what follows.
pub fn put_parts(
    alloc: Global,
    form: &Form,
    list: &[Coded],
    code: &mut Code,
) -> Result<List<Coded>, Memory>
    requires { All (λ x. x.code.0 < length code.old.nodes) list.now }
    ensures { IfOk result (ArePut code.old.nodes code.new.nodes form.now list.now) }
{
    let mut codes = List::new(alloc);
    for coded in list {
        let id = put_part(alloc, form, *coded, code)?;
        codes.push(Coded {
            process: coded.process,
            code: id,
        })?;
    }
    Ok(codes)
}

/// Adds what a process does, if anything, before its code of what follows.
pub fn put_part(alloc: Global, form: &Form, coded: Coded, code: &mut Code) -> Result<CodeId, Memory>
    requires { coded.code.0 < length code.old.nodes }
    ensures { IfOk result (Puts code.old.nodes code.new.nodes (part_at coded.process form.now) coded.code) }
{
    match part(alloc, form, coded.process, coded.code)? {
        None => Ok(coded.code),
        Some(node) => code.push(node),
    }
}
