//! The generated file, of procedures that call one another in turn.

ghost use Rattle.std.specs.Prelude.{◌≡◌, ◌<◌, ◌≤◌, [], IfOk};
ghost use Rattle.chor_tree.specs.Source.{source_of};
ghost use Rattle.chor_gen.specs.Words.{named_in, generated_names};
ghost use Rattle.chor_gen.specs.Generated.{parameters, generated};
ghost use Rattle.chor_gen.specs.Making.{MakesProcedure, Made};

use crate::declared::{protocols, services};
use crate::rounds::{Round, p_and_q, push_call, push_round};
use crate::words::Words;
use chor_base::{List, Memory, Sort, Texts};
use chor_tree::{File, Header, Proc, ProcParam, Tree};
use std::alloc::Global;

/// The file with so many rounds, each a procedure that starts a session of its own and calls the
/// next one.
pub fn generate(alloc: Global, count: u32) -> Result<File, Memory>
    requires some { 1 ≤ count }
    requires few { count ≤ 4000 }
    ensures source { IfOk result (λ file. source_of file ≡ generated (named_in file.names) count) }
    ensures names { IfOk result (λ file. file.names ≡ generated_names count) }
    ensures texts { IfOk result (λ file. file.texts ≡ []) }
{
    let words = Words::new(alloc, count)?;
    let protocols = protocols(alloc, &words)?;
    let services = services(alloc, &words)?;
    let processes = p_and_q(alloc, &words)?;
    let Bodies { procs, mut tree } = make_procedures(alloc, &words, count)?;
    let body = push_call(alloc, &words, &mut tree, 1)?;
    Ok(File {
        header: Header::none(),
        names: words.names,
        texts: Texts::new(alloc),
        protocols,
        services,
        procs,
        processes,
        tree,
        body,
    })
}

// Procedures, and the nodes of their bodies.
#[derive(Drop)]
struct Bodies {
    procs: List<Proc>,
    tree: Tree,
}

// The procedures of so many rounds.
fn make_procedures(alloc: Global, words: &Words, count: u32) -> Result<Bodies, Memory>
    requires { count ≤ 4000 }
    ensures { IfOk result (λ made. Made words.now.names count made.tree.nodes made.procs count) }
{
    let mut procs = List::new(alloc);
    let mut tree = Tree::new(alloc);
    for done in 0..count {
        let round = Round {
            number: done + 1,
            count,
        };
        let procedure = procedure(alloc, words, &mut tree, round)?;
        procs.push(procedure)?;
    }
    Ok(Bodies { procs, tree })
}

// The procedure of a round.
fn procedure(alloc: Global, words: &Words, tree: &mut Tree, round: Round) -> Result<Proc, Memory>
    requires { round.number < 4001 }
    ensures { IfOk result (MakesProcedure words.now.names tree.old.nodes tree.new.nodes round.count round.number) }
{
    let body = push_round(alloc, words, tree, round)?;
    Ok(Proc {
        name: words.procedure(alloc, round.number)?,
        params: parameters(alloc, words, round.number)?,
        sessions: List::new(alloc),
        body,
    })
}

// p and q, where p has the number of the round before in an even round.
fn parameters(alloc: Global, words: &Words, number: u32) -> Result<List<ProcParam>, Memory>
    ensures { IfOk result (λ params. params ≡ parameters (named_in words.now.names) number) }
{
    let mut vars = List::new(alloc);
    if number % 2 == 0 {
        vars.push((words.at(b"z"), Sort::Int))?;
    }
    let p = ProcParam {
        name: words.at(b"p"),
        vars,
    };
    let q = ProcParam {
        name: words.at(b"q"),
        vars: List::new(alloc),
    };
    Ok(List::from_vec(vec![in alloc; p, q]?))
}
