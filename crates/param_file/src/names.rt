// The rows of the table of parameters: their names, ranges and defaults.
ghost use Rattle.std.specs.Prelude.{◌≡◌, option_copied};

/// A row of the table of parameters.
#[derive(Clone, Copy, Debug, PartialEq, Eq)]
pub enum ParamName {
    InitCondFile,
    SnapshotFileBase,
    OutputListFilename,
    EwaldTableFile,
    RestartFileBase,
    KickFile,
    RankTraceFile,
    TimeMax,
    LowBin,
    TopBin,
    ErrTolTheta,
    ErrTolIntAccuracy,
    GravityConstantInternal,
    VelocityShift,
    SofteningType1,
    SofteningType2,
    SofteningType3,
    SofteningType4,
    SofteningType5,
    RestartEvery,
    RankTrace,
    DeliverySeed,
    ExpansionTableFile,
    BinFile,
}

/// All rows, in the order of the table.
pub(crate) const ROWS: [ParamName; 24] = [
    ParamName::InitCondFile,
    ParamName::SnapshotFileBase,
    ParamName::OutputListFilename,
    ParamName::EwaldTableFile,
    ParamName::RestartFileBase,
    ParamName::KickFile,
    ParamName::RankTraceFile,
    ParamName::TimeMax,
    ParamName::LowBin,
    ParamName::TopBin,
    ParamName::ErrTolTheta,
    ParamName::ErrTolIntAccuracy,
    ParamName::GravityConstantInternal,
    ParamName::VelocityShift,
    ParamName::SofteningType1,
    ParamName::SofteningType2,
    ParamName::SofteningType3,
    ParamName::SofteningType4,
    ParamName::SofteningType5,
    ParamName::RestartEvery,
    ParamName::RankTrace,
    ParamName::DeliverySeed,
    ParamName::ExpansionTableFile,
    ParamName::BinFile,
];

/// The rows whose values are names of files, in the order of the table.
pub(crate) const NAME_ROWS: [ParamName; 9] = [
    ParamName::InitCondFile,
    ParamName::SnapshotFileBase,
    ParamName::OutputListFilename,
    ParamName::EwaldTableFile,
    ParamName::RestartFileBase,
    ParamName::KickFile,
    ParamName::RankTraceFile,
    ParamName::ExpansionTableFile,
    ParamName::BinFile,
];

/// The values that a row may have.
#[derive(Clone, Copy)]
pub(crate) enum Range {
    /// A name of a file: 1 to 200 visible bytes.
    Name,
    /// A number from the first to the second.
    Number(u64, u64),
}

impl ParamName {
    ghost use Rattle.param_file.specs.Rows.{default_of, is_required, name_of, range_of};

    /// The row's name.
    pub fn as_bytes(self) -> &'static [u8]
        ensures { result.now ≡ name_of self }
    {
        match self {
            ParamName::InitCondFile => b"InitCondFile",
            ParamName::SnapshotFileBase => b"SnapshotFileBase",
            ParamName::OutputListFilename => b"OutputListFilename",
            ParamName::EwaldTableFile => b"EwaldTableFile",
            ParamName::RestartFileBase => b"RestartFileBase",
            ParamName::KickFile => b"KickFile",
            ParamName::RankTraceFile => b"RankTraceFile",
            ParamName::TimeMax => b"TimeMax",
            ParamName::LowBin => b"LowBin",
            ParamName::TopBin => b"TopBin",
            ParamName::ErrTolTheta => b"ErrTolTheta",
            ParamName::ErrTolIntAccuracy => b"ErrTolIntAccuracy",
            ParamName::GravityConstantInternal => b"GravityConstantInternal",
            ParamName::VelocityShift => b"VelocityShift",
            ParamName::SofteningType1 => b"SofteningType1",
            ParamName::SofteningType2 => b"SofteningType2",
            ParamName::SofteningType3 => b"SofteningType3",
            ParamName::SofteningType4 => b"SofteningType4",
            ParamName::SofteningType5 => b"SofteningType5",
            ParamName::RestartEvery => b"RestartEvery",
            ParamName::RankTrace => b"RankTrace",
            ParamName::DeliverySeed => b"DeliverySeed",
            ParamName::ExpansionTableFile => b"ExpansionTableFile",
            ParamName::BinFile => b"BinFile",
        }
    }

    /// The values that the row may have.
    pub(crate) fn range(self) -> Range
        ensures { result ≡ range_of self }
    {
        match self {
            ParamName::TimeMax => Range::Number(0, 1099511627776),
            ParamName::LowBin => Range::Number(1, 20),
            ParamName::TopBin => Range::Number(1, 20),
            ParamName::ErrTolTheta => Range::Number(0, 256),
            ParamName::ErrTolIntAccuracy => Range::Number(1, 65536),
            ParamName::GravityConstantInternal => Range::Number(0, 4294967296),
            ParamName::VelocityShift => Range::Number(0, 40),
            ParamName::SofteningType1 => Range::Number(256, 1073741824),
            ParamName::SofteningType2 => Range::Number(256, 1073741824),
            ParamName::SofteningType3 => Range::Number(256, 1073741824),
            ParamName::SofteningType4 => Range::Number(256, 1073741824),
            ParamName::SofteningType5 => Range::Number(256, 1073741824),
            ParamName::RestartEvery => Range::Number(0, 1000000),
            ParamName::RankTrace => Range::Number(0, 1),
            ParamName::DeliverySeed => Range::Number(0, 18446744073709551615),
            _ => Range::Name,
        }
    }

    /// The value of the row where no line names it.
    pub(crate) fn default(self) -> Option<&'static [u8]>
        ensures { option_copied result ≡ default_of self }
    {
        match self {
            ParamName::RestartFileBase => Some(b"restart"),
            ParamName::KickFile => Some(b"kicks.txt"),
            ParamName::RankTraceFile => Some(b"ranktrace.txt"),
            ParamName::SofteningType1 => Some(b"256"),
            ParamName::SofteningType2 => Some(b"256"),
            ParamName::SofteningType3 => Some(b"256"),
            ParamName::SofteningType4 => Some(b"256"),
            ParamName::SofteningType5 => Some(b"256"),
            ParamName::RestartEvery => Some(b"0"),
            ParamName::RankTrace => Some(b"0"),
            ParamName::DeliverySeed => Some(b"1"),
            _ => None,
        }
    }

    /// Whether some line has to name the row.
    pub(crate) fn is_required(self) -> bool
        ensures { result ≡ is_required self }
    {
        matches!(
            self,
            ParamName::InitCondFile
                | ParamName::SnapshotFileBase
                | ParamName::TimeMax
                | ParamName::LowBin
                | ParamName::TopBin
                | ParamName::ErrTolTheta
                | ParamName::ErrTolIntAccuracy
                | ParamName::GravityConstantInternal
                | ParamName::VelocityShift
        )
    }
}
