// Words with bits to turn.
/// A word's number in a row, and the bits of it that turn.
#[derive(Clone, Copy, PartialEq, Eq, Debug)]
pub struct Turn {
    /// The entries of the word are the 64 from 64 times this number on.
    pub number: usize,
    /// A bit for each entry that turns, the lowest for the first.
    pub bits: u64,
}
