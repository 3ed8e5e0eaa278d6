//! The call that the program makes.

ghost use Rattle.std.specs.Prelude.{◌≡◌, ◌≢◌, ℕ, List};
ghost use Rattle.chor_host.specs.Tables.{functions_of};
ghost use Rattle.command_words.specs.Words.{AreForm};
ghost use Rattle.projected_programs.specs.Laws.{ProjectedTextIsTaken, ProjectedTextRuns};
ghost use Rattle.projected_programs.specs.LawsBy.{ProjectedTextRunsByWorkers};
ghost use Rattle.chor_cmd.specs.Calls.{Fetches, HasEnded, IsUsage, IsSettled, RunsSource, RunsProjected, AcceptsRuns, LinksPrograms, OrdersRun, JudgesLog, ResumesLog, RefusesBroken, call_of};
ghost use Rattle.chor_cmd.specs.Runs.{AsksNoWorkers, workers_of};
ghost use Rattle.chor_cmd.specs.Stops.{Answers, HasSaid, TouchesOnly};

use crate::checking::check;
use crate::conforming::conform_events;
use crate::ending::{Ending, Stop};
use crate::executing::{execute, execute_by};
use crate::finishing::{finish, write};
use crate::formatting::format;
use crate::generating::generate;
use crate::linking::{link, link_by};
use crate::ordering::order_events;
use crate::projecting::project;
use crate::replaying::replay_events;
use crate::resuming::resume_run;
use crate::running::{run, run_by};
use crate::status::Status;
use crate::typing::types;
use chor_base::Word;
use chor_host::HostTable;
use chor_io::{Gate, Shelf, Sink};
use command_words::{Command, Words, form_of};
use std::alloc::Global;
use std::sync::Wait;
use std::thread::Threads;

/// Does what the words ask for: it reads the named file from the shelf, writes the text of the
/// command's answer, or one line that says what is wrong, to the sink, and answers how it ended.
///
/// `check FILE` judges the file by all classes of rules and writes `ok`, `project FILE` writes the
/// endpoint programs of a file that they accept, and `run FILE` the transcript of a run of its
/// choreography, with the seed and of at most as many events as its options ask for, in which the
/// host functions of the table answer. `exec FILE` does the same for endpoint programs, which may get
/// stuck. `types FILE` writes the local types of all roles; it asks for no rules but those of tokens, of the
/// grammar, of names, of protocols and of views. `fmt FILE` writes the canonical text of the file. It
/// applies the rules of tokens and of the grammar alone. For a file that violates a rule the
/// commands write `refused` with the rule, the place, and for M1 and M2 the process or the role. A
/// file may call the host functions of this table.
///
/// `replay FILE EVENTS` reads the events of a transcript and writes `replayed`, their number, and
/// whether their run has ended, where they are a run of the file's choreography; else `unmatched` and
/// the number of the first line that doesn't match. The second file is read only where the first
/// violates no rule. `gen N` makes a file of N rounds, runs it, and writes how many events, sessions
/// and processes there were; `gen N --text` writes its canonical text.
///
/// `link FILE ENDPOINTS` does what `run FILE` does, with the endpoint programs of the second file in the
/// places of those of the choreography; where one of them doesn't suit its place, it writes `refused` with
/// K1 or K2 and the first that doesn't.
///
/// `order FILE EVENTS` replays the events as `replay` does, and writes for each of them the events that
/// it comes right after in every order that the choreography allows. With `--pair I J` it writes how two
/// of them stand to each other, and with `--lead J` a transcript of the events that lead to one. For a
/// number that no event has it writes `refused O1`.
///
/// `conform FILE EVENTS` judges the events by the protocols of the file alone, and writes `conforms` and
/// their number, or `unmatched`. `resume FILE EVENTS` drops a last line that broke off, and writes the
/// transcript of the run that begins with the events that are left and goes on as the options say.
///
/// Where the options of `run`, `exec` or `link` ask for workers, these make the run, each in its turn, and each
/// passes the gate before each of its turns. The transcript is written while they make it, so where memory
/// runs out, a prefix of it may have been written. Then the call waits until all workers have finished. For
/// all other words it is `alone`.
pub fn chor<R: Threads + Wait + Sync, F: Shelf, K: Sink, G: Gate + Sync>(
    rt: &R,
    alloc: Global,
    words: &Words,
    hosts: &HostTable,
    shelf: &mut F,
    out: &mut K,
    gate: &G,
) -> Status
    ensures fetches { Fetches (call_of hosts.now words.now (F.state shelf.old) (F.state shelf.new) (K.state out.old) (K.state out.new) result) }

    // What each status says.
    ensures ended { HasEnded (call_of hosts.now words.now (F.state shelf.old) (F.state shelf.new) (K.state out.old) (K.state out.new) result) }

    // Which status comes.
    ensures usage { IsUsage (call_of hosts.now words.now (F.state shelf.old) (F.state shelf.new) (K.state out.old) (K.state out.new) result) }
    ensures settled { IsSettled (call_of hosts.now words.now (F.state shelf.old) (F.state shelf.new) (K.state out.old) (K.state out.new) result) }

    // The sentences of the headline.
    ensures ran { RunsSource (call_of hosts.now words.now (F.state shelf.old) (F.state shelf.new) (K.state out.old) (K.state out.new) result) }
    ensures projected { RunsProjected (call_of hosts.now words.now (F.state shelf.old) (F.state shelf.new) (K.state out.old) (K.state out.new) result) }
    ensures replayed { AcceptsRuns (call_of hosts.now words.now (F.state shelf.old) (F.state shelf.new) (K.state out.old) (K.state out.new) result) }
    ensures linked { LinksPrograms (call_of hosts.now words.now (F.state shelf.old) (F.state shelf.new) (K.state out.old) (K.state out.new) result) }
    ensures ordered { OrdersRun (call_of hosts.now words.now (F.state shelf.old) (F.state shelf.new) (K.state out.old) (K.state out.new) result) }
    ensures conformed { JudgesLog (call_of hosts.now words.now (F.state shelf.old) (F.state shelf.new) (K.state out.old) (K.state out.new) result) }
    ensures resumed { ResumesLog (call_of hosts.now words.now (F.state shelf.old) (F.state shelf.new) (K.state out.old) (K.state out.new) result) }
    ensures refused { RefusesBroken (call_of hosts.now words.now (F.state shelf.old) (F.state shelf.new) (K.state out.old) (K.state out.new) result) }
{
    projected_laws();
    let Some((command, files)) = form_of(words) else {
        return alone(rt, alloc, words, hosts, shelf, out);
    };
    if workers_of(command) == 0 {
        return alone(rt, alloc, words, hosts, shelf, out);
    }
    answer_by(rt, alloc, command, files, hosts, shelf, gate, out)
}

/// Does what the words ask for where they ask for no workers, as `chor` does. It waits for nobody.
pub fn alone<R: Threads + Sync, F: Shelf, K: Sink>(
    rt: &R,
    alloc: Global,
    words: &Words,
    hosts: &HostTable,
    shelf: &mut F,
    out: &mut K,
) -> Status
    requires { AsksNoWorkers words.now }
    ensures fetches { Fetches (call_of hosts.now words.now (F.state shelf.old) (F.state shelf.new) (K.state out.old) (K.state out.new) result) }

    // What each status says.
    ensures ended { HasEnded (call_of hosts.now words.now (F.state shelf.old) (F.state shelf.new) (K.state out.old) (K.state out.new) result) }

    // Which status comes.
    ensures usage { IsUsage (call_of hosts.now words.now (F.state shelf.old) (F.state shelf.new) (K.state out.old) (K.state out.new) result) }
    ensures settled { IsSettled (call_of hosts.now words.now (F.state shelf.old) (F.state shelf.new) (K.state out.old) (K.state out.new) result) }

    // The sentences of the headline.
    ensures ran { RunsSource (call_of hosts.now words.now (F.state shelf.old) (F.state shelf.new) (K.state out.old) (K.state out.new) result) }
    ensures projected { RunsProjected (call_of hosts.now words.now (F.state shelf.old) (F.state shelf.new) (K.state out.old) (K.state out.new) result) }
    ensures replayed { AcceptsRuns (call_of hosts.now words.now (F.state shelf.old) (F.state shelf.new) (K.state out.old) (K.state out.new) result) }
    ensures linked { LinksPrograms (call_of hosts.now words.now (F.state shelf.old) (F.state shelf.new) (K.state out.old) (K.state out.new) result) }
    ensures ordered { OrdersRun (call_of hosts.now words.now (F.state shelf.old) (F.state shelf.new) (K.state out.old) (K.state out.new) result) }
    ensures conformed { JudgesLog (call_of hosts.now words.now (F.state shelf.old) (F.state shelf.new) (K.state out.old) (K.state out.new) result) }
    ensures resumed { ResumesLog (call_of hosts.now words.now (F.state shelf.old) (F.state shelf.new) (K.state out.old) (K.state out.new) result) }
    ensures refused { RefusesBroken (call_of hosts.now words.now (F.state shelf.old) (F.state shelf.new) (K.state out.old) (K.state out.new) result) }
{
    projected_laws();
    let Some((command, files)) = form_of(words) else {
        let usage = b"usage: chor COMMAND ARGUMENTS\n".as_slice();
        return write(out, usage, Status::Usage);
    };
    let answer = answer(rt, alloc, command, files, hosts, shelf);
    finish(alloc, out, answer)
}

// What is proved of the text that `project` writes.
fn projected_laws()
    ensures taken { ProjectedTextIsTaken }
    ensures runs { ProjectedTextRuns }
    ensures runs_by { ProjectedTextRunsByWorkers }
{
    projected_programs::projected_text_is_taken();
    projected_programs::projected_text_runs();
    projected_programs::projected_text_runs_by_workers();
}

// How many workers a command asks for.
fn workers_of(command: Command) -> u32
    ensures { result ≡ workers_of command }
{
    match command {
        Command::Run(options) => options.workers,
        Command::Exec(options) => options.workers,
        Command::Link(options) => options.workers,
        _ => 0,
    }
}

// What a command makes of the files of these names. Runs are scheduled runs.
fn answer<'a, R: Threads + Sync, F: Shelf>(
    rt: &R,
    alloc: Global,
    command: Command,
    files: &'a [Word],
    hosts: &HostTable,
    shelf: &mut F,
) -> Result<Ending, Stop<'a>>
    requires { (words : List (List ℕ)) × AreForm words command files.now }
    ensures answers { Answers (functions_of hosts.now) command files.now (F.state shelf.old) (F.state shelf.new) result }
    ensures only { TouchesOnly files.now (F.state shelf.old) (F.state shelf.new) }
{
    match command {
        Command::Check => check(rt, alloc, &files[0], hosts, shelf),
        Command::Fmt => format(alloc, &files[0], shelf),
        Command::Types => types(alloc, &files[0], hosts, shelf),
        Command::Project => project(rt, alloc, &files[0], hosts, shelf),
        Command::Run(options) => run(rt, alloc, &files[0], options, hosts, shelf),
        Command::Exec(options) => execute(alloc, &files[0], options, hosts, shelf),
        Command::Replay => replay_events(rt, alloc, &files[0], &files[1], hosts, shelf),
        Command::Gen(count, whole) => Ok(generate(rt, alloc, count, whole, hosts)?),
        Command::Link(options) => link(rt, alloc, &files[0], &files[1], options, hosts, shelf),
        Command::Order(form) => order_events(rt, alloc, &files[0], &files[1], form, hosts, shelf),
        Command::Conform => conform_events(alloc, &files[0], &files[1], hosts, shelf),
        Command::Resume(options) => {
            resume_run(rt, alloc, (&files[0], &files[1]), options, hosts, shelf)
        }
    }
}

// Writes what a command makes of the files of these names where workers make the run.
fn answer_by<R: Threads + Wait + Sync, F: Shelf, K: Sink, G: Gate + Sync>(
    rt: &R,
    alloc: Global,
    command: Command,
    files: &[Word],
    hosts: &HostTable,
    shelf: &mut F,
    gate: &G,
    out: &mut K,
) -> Status
    requires form { (words : List (List ℕ)) × AreForm words command files.now }
    requires workers { workers_of command ≢ 0 }
    ensures said { HasSaid (functions_of hosts.now) command files.now (F.state shelf.old) (F.state shelf.new) (K.state out.old) (K.state out.new) result }
    ensures only { TouchesOnly files.now (F.state shelf.old) (F.state shelf.new) }
{
    match command {
        Command::Run(options) => run_by(rt, alloc, &files[0], options, hosts, shelf, gate, out),
        Command::Exec(options) => {
            execute_by(rt, alloc, &files[0], options, hosts, shelf, gate, out)
        }
        Command::Link(options) => {
            let names = (&files[0], &files[1]);
            link_by(rt, alloc, names, options, hosts, shelf, gate, out)
        }
        _ => {
            let answer = answer(rt, alloc, command, files, hosts, shelf);
            finish(alloc, out, answer)
        }
    }
}
