//! The rounds of the generated file, as nodes of a tree.

ghost use Rattle.std.specs.Prelude.{◌≡◌, ◌<◌, ◌++◌, ◌∷◌, [], All, IfOk, codes, length, true};
ghost use Rattle.std.specs.List.{list_all};
ghost use Rattle.chor_tree.specs.Children.{children_of};
ghost use Rattle.chor_base.specs.Expr.{term_of};
ghost use Rattle.chor_tree.specs.Kept.{has_name, has_text, names_there, part_there, term_there};
ghost use Rattle.chor_gen.specs.Words.{named_in};
ghost use Rattle.chor_gen.specs.Generated.{part, p_and_q, literal, starts, start_round, start_fork, p_sends, q_sends, r_sends, tells, one_more, is_less};
ghost use Rattle.chor_gen.specs.Generated.{call, after_round, odd_round, told, even_round, body_of_round};
ghost use Rattle.chor_gen.specs.Making.{Says, Adds, node_of};

use crate::words::Words;
use chor_base::{BinOp, Expr, List, Memory, Place, Value};
use chor_tree::{Form, Named, Node, NodeId, Part, Tree};
use std::alloc::Global;

// A round, and how many there are.
#[derive(Clone, Copy)]
pub struct Round {
    pub number: u32,
    pub count: u32,
}

// Adds a node of this form after those that follow it.
fn push(tree: &mut Tree, form: Form) -> Result<NodeId, Memory>
    requires { All (λ c. c.0 < length tree.old.nodes) (children_of form) }
    ensures { IfOk result (λ id. (id.0 ≡ length tree.old.nodes) × (tree.new.nodes ≡ tree.old.nodes ++ node_of form ∷ [])) }
{
    let place = Place { line: 1, col: 1 };
    tree.push(Node { place, form })
}

// p and q, to which a procedure is applied.
pub fn p_and_q(alloc: Global, words: &Words) -> Result<List<Named>, Memory>
    ensures are { IfOk result (λ names. names ≡ p_and_q (named_in words.now.names)) }
    ensures there { IfOk result (λ names. names_there (has_name words.now.names) names ≡ true) }
{
    let names = [words.at(b"p"), words.at(b"q")];
    List::from_slice(alloc, names.as_slice())
}

// Adds the call of a procedure.
pub fn push_call(
    alloc: Global,
    words: &Words,
    tree: &mut Tree,
    number: u32,
) -> Result<NodeId, Memory>
    ensures { IfOk result (λ id. Adds words.now.names tree.old.nodes tree.new.nodes id (call (named_in words.now.names) number)) }
{
    let form = Form::Call {
        name: words.procedure(alloc, number)?,
        processes: p_and_q(alloc, words)?,
        sessions: List::new(alloc),
    };
    push(tree, form)
}

// Adds what comes after a round: the call of the next one, or the end.
fn push_next(alloc: Global, words: &Words, tree: &mut Tree, round: Round) -> Result<NodeId, Memory>
    requires { round.number < 4001 }
    ensures { IfOk result (λ id. Adds words.now.names tree.old.nodes tree.new.nodes id (after_round (named_in words.now.names) round.count round.number)) }
{
    if round.number == round.count {
        push(tree, Form::End)
    } else {
        push_call(alloc, words, tree, round.number + 1)
    }
}

// A process in a role.
fn part(words: &Words, process: &[u8], role: &[u8]) -> Part
    ensures part { result ≡ part (named_in words.now.names) process.now role.now }
    ensures there { part_there (has_name words.now.names) result ≡ true }
{
    Part {
        process: words.at(process),
        role: words.at(role),
    }
}

// p[A], q[B] in the start of a session k
fn start(
    alloc: Global,
    words: &Words,
    channel: &[u8],
    serve: List<Part>,
    next: NodeId,
) -> Result<Form, Memory>
    requires { list_all (part_there (has_name words.now.names)) serve ≡ true }
    ensures { IfOk result (λ form. Says words.now.names form (starts (named_in words.now.names) channel.now serve) next) }
{
    let active = [part(words, b"p", b"A"), part(words, b"q", b"B")];
    Ok(Form::Start {
        channel: words.at(channel),
        session: words.at(b"k"),
        active: List::from_slice(alloc, active.as_slice())?,
        serve,
        next,
    })
}

// start a(k): p[A], q[B] new r[C]
fn start_round(alloc: Global, words: &Words, next: NodeId) -> Result<Form, Memory>
    ensures { IfOk result (λ form. Says words.now.names form (start_round (named_in words.now.names)) next) }
{
    let serve = List::from_slice(alloc, [part(words, b"r", b"C")].as_slice())?;
    start(alloc, words, b"a", serve, next)
}

// start b(k): p[A], q[B]
fn start_fork(alloc: Global, words: &Words, next: NodeId) -> Result<Form, Memory>
    ensures { IfOk result (λ form. Says words.now.names form (start_fork (named_in words.now.names)) next) }
{
    start(alloc, words, b"b", List::new(alloc), next)
}

// A number.
fn literal(number: u32) -> Expr
    ensures { term_of result ≡ literal number }
{
    Expr::Lit(Value::Int(i64::from(number)))
}

// x + 1
fn one_more(alloc: Global, words: &Words) -> Result<Expr, Memory>
    ensures is { IfOk result (λ expr. term_of expr ≡ one_more (named_in words.now.names)) }
    ensures there { IfOk result (λ expr. term_there (has_name words.now.names) (has_text []) (term_of expr) ≡ true) }
{
    let left = Box::new(alloc, Expr::Var(words.at(b"x").name))?;
    let right = Box::new(alloc, literal(1))?;
    Ok(Expr::Bin(BinOp::Add, left, right))
}

// p[A].number -> q[B].x : k
fn p_sends(words: &Words, number: u32, next: NodeId) -> Form
    ensures { Says words.now.names result (p_sends (named_in words.now.names) number) next }
{
    Form::Value {
        from: part(words, b"p", b"A"),
        expr: literal(number),
        to: part(words, b"q", b"B"),
        var: words.at(b"x").name,
        session: words.at(b"k"),
        next,
    }
}

// q[B].x + 1 -> r[C].y : k
fn q_sends(alloc: Global, words: &Words, next: NodeId) -> Result<Form, Memory>
    ensures { IfOk result (λ form. Says words.now.names form (q_sends (named_in words.now.names)) next) }
{
    Ok(Form::Value {
        from: part(words, b"q", b"B"),
        expr: one_more(alloc, words)?,
        to: part(words, b"r", b"C"),
        var: words.at(b"y").name,
        session: words.at(b"k"),
        next,
    })
}

// r[C].y -> p[A].z : k
fn r_sends(words: &Words, next: NodeId) -> Form
    ensures { Says words.now.names result (r_sends (named_in words.now.names)) next }
{
    Form::Value {
        from: part(words, b"r", b"C"),
        expr: Expr::Var(words.at(b"y").name),
        to: part(words, b"p", b"A"),
        var: words.at(b"z").name,
        session: words.at(b"k"),
        next,
    }
}

// p[A] -> q[B] : k.label
fn tells(words: &Words, label: &[u8], next: NodeId) -> Form
    ensures { Says words.now.names result (tells (named_in words.now.names) label.now) next }
{
    Form::Label {
        from: part(words, b"p", b"A"),
        to: part(words, b"q", b"B"),
        session: words.at(b"k"),
        label: words.at(label).name,
        next,
    }
}

// p.z < number
fn is_less(alloc: Global, words: &Words, number: u32) -> Result<Expr, Memory>
    ensures is { IfOk result (λ expr. term_of expr ≡ is_less (named_in words.now.names) number) }
    ensures there { IfOk result (λ expr. term_there (has_name words.now.names) (has_text []) (term_of expr) ≡ true) }
{
    let left = Box::new(alloc, Expr::Var(words.at(b"z").name))?;
    let right = Box::new(alloc, literal(number))?;
    Ok(Expr::Bin(BinOp::Lt, left, right))
}

// Adds a round in which a number goes round.
fn push_odd(alloc: Global, words: &Words, tree: &mut Tree, round: Round) -> Result<NodeId, Memory>
    requires { round.number < 4001 }
    ensures { IfOk result (λ id. Adds words.now.names tree.old.nodes tree.new.nodes id (odd_round (named_in words.now.names) round.count round.number)) }
{
    let next = push_next(alloc, words, tree, round)?;
    let last = push(tree, r_sends(words, next))?;
    let middle = push(tree, q_sends(alloc, words, last)?)?;
    let first = push(tree, p_sends(words, round.number, middle))?;
    push(tree, start_round(alloc, words, first)?)
}

// Adds a label, and what comes after the round.
fn push_told(
    alloc: Global,
    words: &Words,
    tree: &mut Tree,
    round: Round,
    label: &[u8],
) -> Result<NodeId, Memory>
    requires { round.number < 4001 }
    ensures { IfOk result (λ id. Adds words.now.names tree.old.nodes tree.new.nodes id (told (named_in words.now.names) label.now round.count round.number)) }
{
    let next = push_next(alloc, words, tree, round)?;
    push(tree, tells(words, label, next))
}

// Adds a round in which a label is told.
fn push_even(alloc: Global, words: &Words, tree: &mut Tree, round: Round) -> Result<NodeId, Memory>
    requires { round.number < 4001 }
    ensures { IfOk result (λ id. Adds words.now.names tree.old.nodes tree.new.nodes id (even_round (named_in words.now.names) round.count round.number)) }
{
    let first = push_told(alloc, words, tree, round, b"more")?;
    let second = push_told(alloc, words, tree, round, b"less")?;
    let form = Form::If {
        process: words.at(b"p"),
        expr: is_less(alloc, words, round.number)?,
        first,
        second,
    };
    let branch = push(tree, form)?;
    push(tree, start_fork(alloc, words, branch)?)
}

// Adds a round.
pub fn push_round(
    alloc: Global,
    words: &Words,
    tree: &mut Tree,
    round: Round,
) -> Result<NodeId, Memory>
    requires { round.number < 4001 }
    ensures { IfOk result (λ id. Adds words.now.names tree.old.nodes tree.new.nodes id (body_of_round (named_in words.now.names) round.count round.number)) }
{
    if round.number % 2 == 1 {
        push_odd(alloc, words, tree, round)
    } else {
        push_even(alloc, words, tree, round)
    }
}
