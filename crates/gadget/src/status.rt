// How a command ended.
ghost use Rattle.std.specs.Prelude.{◌≡◌};
ghost use Rattle.gadget.specs.Codes.{code_of};

use ewald_table::TableErr;
use expansion_table::ExpErr;
use group_file::GroupErr;
use output_schedule::OutputErr;
use param_file::{ParamErr, ParamName};
use restart_files::RestartErr;
use snap_file::SnapErr;
use store_io::Text;

/// How a command ended. `code` is the program's exit status.
#[derive(Debug, Drop)]
pub enum Status {
    Done,
    Stopped {
        steps: u64,
        tick: u64,
    },
    Usage,
    Memory,
    ReadFault {
        name: Text,
    },
    WriteFault {
        name: Text,
    },
    ConsoleFault,
    Absent {
        name: Text,
    },
    TooLong {
        name: Text,
        len: u64,
    },
    Param(ParamErr),
    Outputs(OutputErr),
    Table(TableErr),
    Expansion(ExpErr),
    Snapshot(SnapErr),
    Restart(RestartErr),
    Differs {
        name: ParamName,
    },
    Catalogue {
        name: Text,
        kind: GroupErr,
    },
    MomRange {
        tick: u64,
        bin: u8,
        id: u64,
        axis: u8,
    },
    StepRange {
        tick: u64,
        id: u64,
    },
}

impl Status {
    pub fn code(&self) -> u8
        ensures { result ≡ code_of self.now }
    {
        match self {
            Status::Done => 0,
            Status::Stopped { .. } => 1,
            Status::Usage => 2,
            Status::Memory => 3,
            Status::ReadFault { .. } => 4,
            Status::WriteFault { .. } => 5,
            Status::ConsoleFault => 6,
            Status::Absent { .. } => 7,
            Status::TooLong { .. } => 8,
            Status::Param(_) => 10,
            Status::Outputs(_) => 11,
            Status::Table(_) => 12,
            Status::Snapshot(_) => 13,
            Status::Restart(_) => 14,
            Status::Differs { .. } => 15,
            Status::Expansion(_) => 16,
            Status::Catalogue { .. } => 18,
            Status::MomRange { .. } => 20,
            Status::StepRange { .. } => 21,
        }
    }
}
