// The names of the files that a run keeps open.
use std::marker::Model;
use store_io::Text;

/// The kick file; the trace file, where ranks are traced; and the bin file, where one is named and the run begins at tick 0.
#[derive(Drop)]
pub struct OwnFiles {
    pub kicks: Text,
    pub trace: Option<Text>,
    pub bins: Option<Text>,
}

impl Model for OwnFiles {
    ghost use Rattle.run_session.specs.Own.{Own};

    ghost Value = { Own };

    ghost view = { λ o. record { kicks = o.kicks; trace = o.trace; bins = o.bins } };
}
