/// Which reports of a text a table has.
#[derive(Clone, Copy, PartialEq, Eq, Debug)]
pub enum Reports {
    /// All of them.
    All,
    /// The last one, under its number in the text.
    Last,
}
