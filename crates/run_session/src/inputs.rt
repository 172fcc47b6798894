// What a run is made by.
use expansion_table::Expansion;
use param_file::Params;

/// The settings of a run, the table of factors if there is one, and the listed times in ticks.
#[derive(Clone, Copy)]
pub struct Inputs<'a> {
    pub params: &'a Params,
    pub expansion: Option<&'a Expansion>,
    pub outputs: &'a [u64],
}
