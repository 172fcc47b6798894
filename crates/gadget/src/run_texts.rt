// What is printed of a run that ended.
ghost use Rattle.std.specs.Prelude.{◌≡◌, ◌++◌, ◌+◌, ◌*◌, ◌^◌, ◌==◌, IfOk, OnOk};
ghost use Rattle.gadget.specs.Texts.{done_text, status_text, stop_text, stop_words};
ghost use Rattle.gadget.specs.Outcomes.{status_at, text_at};

use crate::status::Status;
use crate::texts::{push_counted, push_name, push_two, push_vector, status_line};
use fixed_point::Memory;
use nbody_model::Setup;
use run_session::{End, Ended};
use std::alloc::Global;
use store_io::Text;

// The line of a run that is done.
fn done_line(alloc: Global, run: &Ended) -> Result<Vec<u8>, Memory>
    ensures { IfOk result (λ line. line.items ≡ done_text run.now) }
{
    let mut line = Vec::new(alloc);
    push_two(&mut line, b"done tick", run.tick, b" steps", run.steps)?;
    push_two(
        &mut line,
        b" snapshots",
        run.snapshots,
        b" kicks",
        run.kicks,
    )?;
    push_counted(&mut line, b" interactions", run.interactions)?;
    line.extend_from_slice(b" momentum")?;
    push_vector(&mut line, &run.momentum)?;
    line.push(b'\n')?;
    Ok(line)
}

// Whether a run stands at the end of a base step.
fn is_between_steps(run: &Ended, setup: &Setup) -> bool
    ensures { result ≡ (run.now.tick == run.now.steps * 2 ^ setup.now.top_bin) }
{
    u128::from(run.tick) == u128::from(run.steps) * (1u128 << setup.top_bin)
}

fn push_stop(line: &mut Vec<u8>, run: &Ended, setup: &Setup) -> Result<(), Memory>
    ensures { OnOk result (line.new.items ≡ line.old.items ++ stop_words setup.now.top_bin run.now) }
{
    if is_between_steps(run, setup) {
        return push_counted(line, b"stopped steps", u128::from(run.steps));
    }
    push_two(line, b"stopped steps", run.steps, b" tick", run.tick)
}

// The line of a run that was stopped.
fn stop_line(alloc: Global, run: &Ended, setup: &Setup) -> Result<Vec<u8>, Memory>
    ensures { IfOk result (λ line. line.items ≡ stop_text setup.now.top_bin run.now) }
{
    let mut line = Vec::new(alloc);
    push_stop(&mut line, run, setup)?;
    line.push(b'\n')?;
    Ok(line)
}

// The line of a file that couldn't be written.
fn write_fault_line(alloc: Global, name: &Text) -> Result<Vec<u8>, Memory>
    ensures { IfOk result (λ line. line.items ≡ status_text (Status.WriteFault name.now)) }
{
    let mut line = Vec::new(alloc);
    push_name(&mut line, b"write fault ", name.bytes())?;
    line.push(b'\n')?;
    Ok(line)
}

/// The line of a run, however it ended.
pub fn run_line(alloc: Global, run: &Ended, setup: &Setup) -> Result<Vec<u8>, Memory>
    ensures { IfOk result (λ line. line.items ≡ text_at setup.now.top_bin run.now (status_at run.now run.now.end)) }
{
    match &run.end {
        End::Done => done_line(alloc, run),
        End::Stopped => stop_line(alloc, run, setup),
        End::WriteFault { name } => write_fault_line(alloc, name),
        End::MomRange {
            tick,
            bin,
            id,
            axis,
        } => {
            let status = Status::MomRange {
                tick: *tick,
                bin: *bin,
                id: *id,
                axis: *axis,
            };
            status_line(alloc, &status)
        }
        End::StepRange { tick, id } => status_line(
            alloc,
            &Status::StepRange {
                tick: *tick,
                id: *id,
            },
        ),
        End::Memory => status_line(alloc, &Status::Memory),
    }
}

/// The status of a run, however it ended.
pub fn run_status(run: Ended) -> Status
    ensures { result ≡ status_at run run.end }
{
    match run.end {
        End::Done => Status::Done,
        End::Stopped => Status::Stopped {
            steps: run.steps,
            tick: run.tick,
        },
        End::WriteFault { name } => Status::WriteFault { name },
        End::MomRange {
            tick,
            bin,
            id,
            axis,
        } => Status::MomRange {
            tick,
            bin,
            id,
            axis,
        },
        End::StepRange { tick, id } => Status::StepRange { tick, id },
        End::Memory => Status::Memory,
    }
}
