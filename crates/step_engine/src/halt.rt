// Why a part of a step wasn't made to its end.
ghost use Rattle.std.specs.Prelude.{◌≡◌};
ghost use Rattle.step_engine.specs.Halts.{halt_for};

use store_io::IoErr;

#[derive(Clone, Copy)]
pub(crate) enum Halt {
    MomRange {
        tick: u64,
        bin: u8,
        id: u64,
        axis: u8,
    },
    StepRange {
        tick: u64,
        id: u64,
    },
    OutFault,
    Rest {
        tick: u64,
    },
    Memory,
}

/// Why a step halts where what happened couldn't be handed out.
pub(crate) fn halt_for(e: IoErr) -> Halt
    ensures { result ≡ halt_for e }
{
    match e {
        IoErr::Failed => Halt::OutFault,
        IoErr::Memory => Halt::Memory,
    }
}
