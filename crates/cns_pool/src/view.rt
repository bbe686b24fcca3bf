use crate::seen::Seen;

/// What one seat of a cell has and knows. No value of it is made: proofs alone read it.
pub struct View {
    pub feeds: bool,
    pub works: bool,
    pub poured: u64,
    pub pour_room: u64,
    pub sealed: bool,
    /// Proofs read an array as a list of any length.
    pub intervals: [(u64, u64); 0],
    pub budget: u64,
    pub calls: u64,
    pub made: u64,
    pub given: u64,
    pub seen: Seen,
}
