use cns_journal::ReplayFault;
use thiserror::Error;

/// Why the two nodes are not opened; the first that applies. (This project's own rule.)
#[derive(Clone, Copy, PartialEq, Eq, Debug, Error)]
pub enum StartFault {
    /// The clearing node is not opened.
    #[error("the clearing node: {0}")]
    Clear(ReplayFault),
    /// The depository is not opened.
    #[error("the depository: {0}")]
    Depot(ReplayFault),
    /// The records of the two nodes do not agree.
    #[error("the records of the two nodes do not agree")]
    Disagree,
}

/// A refused opening: why, what was read, and both keepers, each as its reopening left it where it was
/// reopened.
#[derive(Drop)]
pub struct Unopened<C, D> {
    /// Why the nodes are not opened.
    pub fault: StartFault,
    /// At `BadJournal` the payloads that the keeper of that node gave, the first one first; else none.
    pub rejected: Vec<Vec<u8>>,
    /// The keeper of the clearing node.
    pub clear: C,
    /// The keeper of the depository.
    pub depot: D,
}
