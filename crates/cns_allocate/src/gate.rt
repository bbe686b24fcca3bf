/// What is called before and after each reserve that [`serve`](crate::serve) makes.
///
/// A worker is named by its number, counted from 0, and a member by its place in its group, counted from
/// 0. Each worker calls in its own thread.
pub trait Gate {
    /// Called before the reserve for the member at this place of its group.
    fn before(&self, worker: usize, place: usize);

    /// Called once that reserve was answered.
    fn after(&self, worker: usize, place: usize);
}

/// The gate that does nothing.
#[derive(Clone, Copy, PartialEq, Eq, Debug)]
pub struct OpenGate;

impl Gate for OpenGate {
    fn before(&self, _worker: usize, _place: usize) {}

    fn after(&self, _worker: usize, _place: usize) {}
}
