// What a run goes by from its start to its end.
use crate::own::OwnFiles;
use expansion_table::Expansion;
use nbody_model::{Field, Setup};
use param_file::Params;
use restart_files::State;

/// The settings, the setup in them, the files that are kept open, the table of factors if there is one, and the listed times.
#[derive(Clone, Copy)]
pub(crate) struct Course<'a> {
    pub params: &'a Params,
    pub setup: &'a Setup,
    pub own: &'a OwnFiles,
    pub expansion: Option<&'a Expansion>,
    pub outputs: &'a [u64],
}

/// How far a run is: its state, and the forces among all its bodies where they are known.
#[derive(Drop)]
pub(crate) struct Progress {
    pub state: State,
    pub known: Option<Field>,
}
