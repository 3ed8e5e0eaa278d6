//! Reading a source.

ghost use Rattle.std.specs.Prelude.{◌≤◌, ◌<◌, ◌^◌, IfOk, IfErr, OnOk, length};
ghost use Rattle.chor_host.specs.Functions.{names_of};
ghost use Rattle.chor_host.specs.Tables.{functions_of};
ghost use Rattle.source_check.specs.Classes.{HasNone, IsFaultless, classes_of};
ghost use Rattle.source_check.specs.declared.rules.Class.TheVariants.{Names, Protocols};
ghost use Rattle.local_types.specs.Texts.{IsTypesText};
ghost use Rattle.source_check.specs.Source.{IsFileOf, IsBroken, IsDenialOfTokens};
ghost use Rattle.source_check.specs.declared.rules.Rules.TheVariants.{Views};

use chor_base::{Denied, Names as Words, Texts};
use chor_host::HostTable;
use chor_lexer::tokens;
use chor_parser::parse;
use chor_tree::File;
use global_types::check_protocols;
use local_types::{check_views, types_text as text_of_types};
use name_resolution::resolve;
use std::alloc::Global;

/// The file that these bytes are. The bytes are refused where they aren't made of tokens, and where
/// the tokens are no source within the limits.
#[tactic(auto, using(crate::proofs::Files::denied_so))]
pub fn read(alloc: Global, bytes: &[u8]) -> Result<File, Denied>
    requires { length bytes.now ≤ 2 ^ 20 }
    ensures file { IfOk result (IsFileOf bytes.now) }
    ensures denied { IfErr result (IsDenialOfTokens bytes.now) }
    ensures body { IfOk result (λ file. file.body.0 < length file.tree.nodes) }
{
    let mut names = Words::new(alloc);
    let mut texts = Texts::new(alloc);
    let list = tokens(alloc, bytes, &mut names, &mut texts)?;
    let file = parse(alloc, &list, names, texts)?;
    Ok(file)
}

/// Judges a file by the rules of names, protocols and views, in this order, where it may call these
/// host functions.
#[tactic(auto, using(crate::proofs::Checked::views_broken))]
pub fn check(alloc: Global, file: &File, hosts: &HostTable) -> Result<(), Denied>
    ensures faultless { OnOk result (IsFaultless (names_of (functions_of hosts.now)) file.now (classes_of Views)) }
    ensures broken { IfErr result (IsBroken (classes_of Views) (names_of (functions_of hosts.now)) file.now) }
{
    check_declared(alloc, file, hosts)?;
    check_views(alloc, file)?;
    Ok(())
}

/// The text of the local types of a file, which is judged as by `check`.
#[tactic(auto, using(crate::proofs::Checked::views_broken))]
pub fn types_text(alloc: Global, file: &File, hosts: &HostTable) -> Result<Vec<u8>, Denied>
    ensures text { IfOk result (λ text. IsTypesText file.now text.items) }
    ensures faultless { OnOk result (IsFaultless (names_of (functions_of hosts.now)) file.now (classes_of Views)) }
    ensures broken { IfErr result (IsBroken (classes_of Views) (names_of (functions_of hosts.now)) file.now) }
{
    check_declared(alloc, file, hosts)?;
    let text = text_of_types(alloc, file)?;
    Ok(text)
}

// Judges a file by the rules of names and protocols.
#[tactic(auto, using(crate::proofs::Checked::names_broken, crate::proofs::Checked::protocols_broken))]
fn check_declared(alloc: Global, file: &File, hosts: &HostTable) -> Result<(), Denied>
    ensures names { OnOk result (HasNone (names_of (functions_of hosts.now)) file.now Names) }
    ensures protocols { OnOk result (HasNone (names_of (functions_of hosts.now)) file.now Protocols) }
    ensures broken { IfErr result (IsBroken (classes_of Views) (names_of (functions_of hosts.now)) file.now) }
{
    resolve(alloc, file, hosts)?;
    check_protocols(file)?;
    Ok(())
}
