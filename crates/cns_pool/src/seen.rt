/// What a seat has seen of its cell. No value of it is made: contracts alone read it.
pub struct Seen {
    /// The most poured shares that a look has shown.
    pub poured: u64,
    /// The most asked shares that a look or a reserve has shown.
    pub asked: u64,
    /// Whether it has seen the seal.
    pub sealed: bool,
}
