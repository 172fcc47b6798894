// The top call: words in, a status out.
ghost use Rattle.std.specs.Prelude.{◌≡◌, IfOk};
ghost use Rattle.gadget.specs.Commands.{asked};
ghost use Rattle.gadget.specs.Outcomes.{status_of, text_of};
ghost use Rattle.gadget.specs.Answers.{Does, Ends, Prints, console, edge_by, said_by};

use crate::command::{Command, command_of};
use crate::grouping::{group_bodies, grouped_line};
use crate::linking::{link_groups, linked_line};
use crate::look::{check, show};
use crate::look_texts::{check_line, show_lines};
use crate::make::{made_line, make};
use crate::outcome::Outcome;
use crate::run_texts::{run_line, run_status};
use crate::sessions::{resume, run};
use crate::status::Status;
use crate::texts::status_line;
use fixed_point::Memory;
use std::alloc::Global;
use store_io::{IoErr, Schedule, Sink, Stopper, Store, Text};

// Does what the words ask for.
fn perform<S: Store, K: Schedule, Q: Stopper>(
    alloc: Global,
    words: &[Text],
    store: &mut S,
    order: &mut K,
    stop: &mut Q,
) -> Outcome
    ensures tells { S.tells store.new ≡ S.tells store.old }
    ensures does { Does (asked words.now) (edge_by S.Store K.Schedule Q.Stopper store.old order.old stop.old store.new order.new stop.new) result }
{
    match command_of(words) {
        Command::Nothing => Outcome::Refused(Status::Usage),
        Command::Run { param, ranks } => run(alloc, param, ranks, store, order, stop),
        Command::Resume {
            param,
            restart,
            ranks,
        } => resume(alloc, param, restart, ranks, store, order, stop),
        Command::Check { param } => check(alloc, store, param),
        Command::Show { snapshot } => show(alloc, store, snapshot),
        Command::Make { count, seed, name } => make(alloc, store, count, seed, name),
        Command::Groups {
            snapshot,
            reach,
            least,
            name,
        } => group_bodies(alloc, store, snapshot, reach, least, name),
        Command::Links {
            first,
            second,
            name,
        } => link_groups(alloc, store, first, second, name),
    }
}

// The lines of an outcome.
fn lines_of(alloc: Global, outcome: &Outcome) -> Result<Vec<u8>, Memory>
    ensures { IfOk result (λ lines. lines.items ≡ text_of outcome.now) }
{
    match outcome {
        Outcome::Ran { ended, setup } => run_line(alloc, ended, setup),
        Outcome::Checked { set } => check_line(alloc, set),
        Outcome::Shown { head, set } => show_lines(alloc, head, set),
        Outcome::Made { count, name } => made_line(alloc, *count, name),
        Outcome::Grouped { groups, members } => grouped_line(alloc, *groups, *members),
        Outcome::Linked { count } => linked_line(alloc, *count),
        Outcome::Refused(status) => status_line(alloc, status),
    }
}

// The status of an outcome.
fn status_of(outcome: Outcome) -> Status
    ensures { result ≡ status_of outcome }
{
    match outcome {
        Outcome::Ran { ended, .. } => run_status(ended),
        Outcome::Checked { .. }
        | Outcome::Shown { .. }
        | Outcome::Made { .. }
        | Outcome::Grouped { .. }
        | Outcome::Linked { .. } => Status::Done,
        Outcome::Refused(status) => status,
    }
}

// Prints lines. A fault of the sink replaces the answer.
fn print<O: Sink>(out: &mut O, lines: &[u8], status: Status) -> Status
    ensures { Prints status lines.now (console O.Sink out.old) (console O.Sink out.new) result }
{
    match out.write(lines) {
        Ok(()) => status,
        Err(IoErr::Failed) => Status::ConsoleFault,
        Err(IoErr::Memory) => Status::Memory,
    }
}

// Prints the lines of an outcome, and answers its status.
fn tell<O: Sink>(alloc: Global, outcome: Outcome, out: &mut O) -> Status
    ensures { Prints (status_of outcome) (text_of outcome) (console O.Sink out.old) (console O.Sink out.new) result }
{
    match lines_of(alloc, &outcome) {
        Ok(lines) => print(out, &lines, status_of(outcome)),
        Err(_) => Status::Memory,
    }
}

/// Does what the words ask for, on the files of the store, and prints how it ended.
pub fn gadget<S: Store, K: Schedule, Q: Stopper, O: Sink>(
    alloc: Global,
    words: &[Text],
    store: &mut S,
    order: &mut K,
    stop: &mut Q,
    out: &mut O,
) -> Status
    ensures tells { S.tells store.new ≡ S.tells store.old }
    ensures ends { Ends (asked words.now) (edge_by S.Store K.Schedule Q.Stopper store.old order.old stop.old store.new order.new stop.new)
        (said_by O.Sink out.old out.new) result }
{
    let outcome = perform(alloc, words, store, order, stop);
    tell(alloc, outcome, out)
}

#[cfg(test)]
mod tests;
