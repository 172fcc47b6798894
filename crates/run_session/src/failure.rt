// Why a run can't go on.
use store_io::Text;

/// A file of this name couldn't be written, or memory is wanting.
#[derive(Debug, Drop)]
pub enum Failure {
    WriteFault { name: Text },
    Memory,
}
