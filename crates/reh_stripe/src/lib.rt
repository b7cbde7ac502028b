// Which members of an ensemble carry an entry: BookKeeper's round-robin distribution.
#![tactic(auto)]

mod four_masks;
mod four_words;
mod masks;
mod rounds;
mod striped;
mod striped_words;
mod word_entries;
mod words;
mod writes;

pub use four_masks::FourMasks;
pub use four_words::FourWords;
pub use masks::Masks;
pub use rounds::Round;
pub use striped::{Striped, is_striped, rank_from};
pub use striped_words::StripedWords;
pub use word_entries::WordEntries;
pub use words::{Word, bits_between, least_entry, word_at};
pub use writes::{WriteSet, wrapped, write_set};
