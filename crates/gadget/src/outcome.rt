// What a command comes to.
use crate::status::Status;
use nbody_model::Setup;
use particle_set::BodySet;
use run_session::Ended;
use snap_file::Head;
use store_io::Text;

/// What a command comes to: a run ended, by these settings; the bodies that a run would begin with; what a snapshot holds;
/// how many bodies were made, in files of a name; how many groups were written, and their members; how many groups have a
/// descendant; or a refusal.
#[derive(Drop)]
pub enum Outcome {
    Ran { ended: Ended, setup: Setup },
    Checked { set: BodySet },
    Shown { head: Head, set: BodySet },
    Made { count: u64, name: Text },
    Grouped { groups: u64, members: u64 },
    Linked { count: u64 },
    Refused(Status),
}
