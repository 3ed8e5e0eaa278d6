//! Whole sources.

ghost use Rattle.std.specs.Prelude.{◌≡◌, ◌<◌, ◌∷◌, [], codes, length, IfOk, IfErr, OnOk, OnErr, IfSome, IfNone};
ghost use Rattle.std.specs.List.{AllByRecursion};
ghost use Rattle.chor_lexer.specs.Tokens.{IsKnown};
ghost use Rattle.source_grammar.specs.Symbols.{Nothing, Head, Halts};
ghost use Rattle.chor_tree.specs.Source.{block_in, blocks_of, procedure_of, source_of};
ghost use Rattle.source_grammar.specs.Faults.{IsWithin, IsRefusal};
ghost use Rattle.source_grammar.specs.Blocks.{BlockPart};
ghost use Rattle.source_grammar.specs.Files.{ProcedurePart, AnItemPart, ItemFirst, ItemsPart, MainPart, main_of};
ghost use Rattle.source_grammar.specs.Growing.{Grows, AreThere, Adds, begins_of};
ghost use Rattle.source_grammar.specs.Known.{IsTextKnown};
ghost use Rattle.source_reader.specs.Reading.{names_of, tokens_from, ReadsTo, ReadsAfter, HaltsAfter};
ghost use Rattle.chor_parser.specs.Items.{items_of, ItemGoesTo, ItemGoesAfter, AddsBodies};

use chor_base::{Denied, List, Names, Rule, Texts};
use chor_lexer::{Mark, Tokens};
use chor_tree::{File, Named, NodeId, Proc, Protocol, Service, Tree};
use source_reader::{
    Input, Room, read_any_names, read_block, read_header, read_parameters, read_protocol,
    read_service,
};
use std::alloc::Global;

/// Processes of main.
const PROCESSES: usize = 64;

/// Blocks that are open at once.
const OPEN_BLOCKS: usize = 64;

/// Statements on one path of a body, its tail among them.
const STATEMENTS: usize = 1024;

/// The file that the tokens are, with the tables of names and texts that are given.
///
/// It is refused by P1 at the first token that no file has there after those before it, by P2 where
/// blocks stand too deep or an expression is too long, and by P3 at the first item that is one too
/// many in its list or on its path, and at the number of a capacity that isn't from 1 to 1,000,000.
pub fn parse(alloc: Global, tokens: &Tokens, names: Names, texts: Texts) -> Result<File, Denied>
    requires known { AllByRecursion (IsKnown names) tokens.now.items }
    requires texts { AllByRecursion (IsTextKnown texts) tokens.now.items }
    ensures found { IfOk result (λ file. IsWithin names tokens.now.items (source_of file)) }
    ensures denied { IfErr result (IsRefusal names tokens.now.items) }
    ensures names { IfOk result (λ file. file.names ≡ names) }
    ensures texts { IfOk result (λ file. file.texts ≡ texts) }
    ensures body { IfOk result (λ file. file.body.0 < length file.tree.nodes) }
    ensures bodies { IfOk result (λ file. AreThere file.tree.nodes file.procs) }
{
    let input = Input {
        tokens,
        names: &names,
    };
    let (header, at) = read_header(&input, 0)?;
    let (items, at) = read_items(alloc, &input, at)?;
    let Declared {
        protocols,
        services,
        procs,
        mut tree,
    } = items;
    let (main, at) = read_main(alloc, &input, at, &mut tree)?;
    if !input.is_end(at) {
        return Err(input.refused(Rule::P1, at));
    }
    Ok(File {
        header,
        names,
        texts,
        protocols,
        services,
        procs,
        processes: main.processes,
        tree,
        body: main.body,
    })
}

// What is declared before main, and the nodes of its bodies.
#[derive(Drop)]
struct Declared {
    protocols: List<Protocol>,
    services: List<Service>,
    procs: List<Proc>,
    tree: Tree,
}

// { protocol | service | proc }
fn read_items(alloc: Global, input: &Input, at: usize) -> Result<(Declared, usize), Denied>
    ensures reads { IfOk result (λ x. ReadsTo ItemsPart ItemFirst input.now at (items_of x.0) x.1) }
    ensures halts { IfErr result (Halts ItemsPart ItemFirst (names_of input.now) (tokens_from input.now at)) }
    ensures there { IfOk result (λ x. AreThere x.0.tree.nodes x.0.procs) }
    ensures adds { IfOk result (λ x. Adds [] x.0.tree.nodes (begins_of x.0.procs)) }
{
    let protocols = List::new(alloc);
    let services = List::new(alloc);
    let procs = List::new(alloc);
    let tree = Tree::new(alloc);
    let mut items = Declared {
        protocols,
        services,
        procs,
        tree,
    };
    let mut at = at;
    'items: loop {
        let next = read_item(alloc, input, at, &mut items)?;
        let Some(after) = next else {
            return Ok((items, at));
        };
        at = after;
    }
}

// protocol | service | proc, if one comes, and the place after it
fn read_item(
    alloc: Global,
    input: &Input,
    at: usize,
    items: &mut Declared,
) -> Result<Option<usize>, Denied>
    requires { AreThere items.old.tree.nodes items.old.procs }
    ensures some { IfOk result (λ found. IfSome found (λ next. ItemGoesTo input.now at items.old items.new next)) }
    ensures none { IfOk result (λ found. IfNone found (items.new ≡ items.old)) }
    ensures over { IfOk result (λ found. IfNone found (Head ItemFirst (names_of input.now) (tokens_from input.now at) → ⊥)) }
    ensures begun { OnErr result (Head ItemFirst (names_of input.now) (tokens_from input.now at)) }
    ensures halts { IfErr result (Halts AnItemPart Nothing (names_of input.now) (tokens_from input.now at)) }
    ensures there { OnOk result (AreThere items.new.tree.nodes items.new.procs) }
    ensures adds { OnOk result (AddsBodies items.old items.new) }
{
    if let Some(at) = input.after_word(at, b"protocol") {
        let after_protocol = add_protocol(alloc, input, at, items)?;
        return Ok(Some(after_protocol));
    }
    if let Some(at) = input.after_word(at, b"service") {
        let after_service = add_service(alloc, input, at, items)?;
        return Ok(Some(after_service));
    }
    if let Some(at) = input.after_word(at, b"proc") {
        let after_procedure = add_procedure(alloc, input, at, items)?;
        return Ok(Some(after_procedure));
    }
    Ok(None)
}

// protocol, after its keyword
fn add_protocol(
    alloc: Global,
    input: &Input,
    at: usize,
    items: &mut Declared,
) -> Result<usize, Denied>
    requires { AreThere items.old.tree.nodes items.old.procs }
    ensures goes { IfOk result (λ next. ItemGoesAfter (codes "protocol") input.now at items.old items.new next) }
    ensures halts { IfErr result (λ d. HaltsAfter AnItemPart (codes "protocol") input.now at d) }
    ensures there { OnOk result (AreThere items.new.tree.nodes items.new.procs) }
    ensures adds { OnOk result (AddsBodies items.old items.new) }
{
    let (protocol, at) = read_protocol(alloc, input, at)?;
    items.protocols.push(protocol)?;
    Ok(at)
}

// service, after its keyword
fn add_service(
    alloc: Global,
    input: &Input,
    at: usize,
    items: &mut Declared,
) -> Result<usize, Denied>
    requires { AreThere items.old.tree.nodes items.old.procs }
    ensures goes { IfOk result (λ next. ItemGoesAfter (codes "service") input.now at items.old items.new next) }
    ensures halts { IfErr result (λ d. HaltsAfter AnItemPart (codes "service") input.now at d) }
    ensures there { OnOk result (AreThere items.new.tree.nodes items.new.procs) }
    ensures adds { OnOk result (AddsBodies items.old items.new) }
{
    let (service, at) = read_service(alloc, input, at)?;
    items.services.push(service)?;
    Ok(at)
}

// proc, after its keyword
fn add_procedure(
    alloc: Global,
    input: &Input,
    at: usize,
    items: &mut Declared,
) -> Result<usize, Denied>
    requires { AreThere items.old.tree.nodes items.old.procs }
    ensures goes { IfOk result (λ next. ItemGoesAfter (codes "proc") input.now at items.old items.new next) }
    ensures halts { IfErr result (λ d. HaltsAfter AnItemPart (codes "proc") input.now at d) }
    ensures there { OnOk result (AreThere items.new.tree.nodes items.new.procs) }
    ensures adds { OnOk result (AddsBodies items.old items.new) }
{
    let (procedure, at) = read_procedure(alloc, input, at, &mut items.tree)?;
    items.procs.push(procedure)?;
    Ok(at)
}

// proc = "proc" NAME "(" .. ")" block, after its keyword
fn read_procedure(
    alloc: Global,
    input: &Input,
    at: usize,
    tree: &mut Tree,
) -> Result<(Proc, usize), Denied>
    ensures reads { IfOk result (λ x. ReadsAfter ProcedurePart (codes "proc") input.now at (procedure_of tree.new.nodes x.0) x.1) }
    ensures halts { IfErr result (λ d. HaltsAfter ProcedurePart (codes "proc") input.now at d) }
    ensures there { IfOk result (λ x. x.0.body.0 < length tree.new.nodes) }
    ensures grows { OnOk result (Grows tree.old.nodes tree.new.nodes) }
    ensures adds { IfOk result (λ x. Adds tree.old.nodes tree.new.nodes (x.0.body ∷ [])) }
{
    let (name, at) = input.take_name(at)?;
    let at = input.take_mark(at, Mark::OpenParen)?;
    let (parameters, at) = read_parameters(alloc, input, at)?;
    let at = input.take_mark(at, Mark::CloseParen)?;
    let (body, at) = read_body(alloc, input, at, tree)?;
    let procedure = Proc {
        name,
        params: parameters.params,
        sessions: parameters.sessions,
        body,
    };
    Ok((procedure, at))
}

// The processes of main and where its body begins.
#[derive(Drop)]
struct Main {
    processes: List<Named>,
    body: NodeId,
}

// main = "main" "(" [ names ] ")" block
fn read_main(
    alloc: Global,
    input: &Input,
    at: usize,
    tree: &mut Tree,
) -> Result<(Main, usize), Denied>
    ensures reads { IfOk result (λ x. ReadsTo MainPart Nothing input.now at (main_of x.0.processes (block_in (blocks_of tree.new.nodes) x.0.body)) x.1) }
    ensures halts { IfErr result (Halts MainPart Nothing (names_of input.now) (tokens_from input.now at)) }
    ensures there { IfOk result (λ x. x.0.body.0 < length tree.new.nodes) }
    ensures grows { OnOk result (Grows tree.old.nodes tree.new.nodes) }
    ensures adds { IfOk result (λ x. Adds tree.old.nodes tree.new.nodes (x.0.body ∷ [])) }
{
    let at = input.take_word(at, b"main")?;
    let at = input.take_mark(at, Mark::OpenParen)?;
    let (processes, at) = read_any_names(alloc, input, at, PROCESSES)?;
    let at = input.take_mark(at, Mark::CloseParen)?;
    let (body, at) = read_body(alloc, input, at, tree)?;
    Ok((Main { processes, body }, at))
}

// The block that is a body.
fn read_body(
    alloc: Global,
    input: &Input,
    at: usize,
    tree: &mut Tree,
) -> Result<(NodeId, usize), Denied>
    ensures reads { IfOk result (λ x. ReadsTo (BlockPart 64 1024) Nothing input.now at (block_in (blocks_of tree.new.nodes) x.0) x.1) }
    ensures halts { IfErr result (Halts (BlockPart 64 1024) Nothing (names_of input.now) (tokens_from input.now at)) }
    ensures there { IfOk result (λ x. x.0.0 < length tree.new.nodes) }
    ensures grows { OnOk result (Grows tree.old.nodes tree.new.nodes) }
    ensures adds { IfOk result (λ x. Adds tree.old.nodes tree.new.nodes (x.0 ∷ [])) }
{
    let room = Room {
        blocks: OPEN_BLOCKS,
        statements: STATEMENTS,
    };
    read_block(alloc, input, at, tree, room)
}
