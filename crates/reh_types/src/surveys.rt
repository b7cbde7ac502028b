// What a survey tells of a fragment.
use crate::names::LedgerId;

/// How much of a ledger's fragment is lost.
#[derive(Clone, Copy, PartialEq, Eq, Debug)]
pub struct SurveyLine {
    pub ledger: LedgerId,
    /// The number of the fragment in the ledger.
    pub fragment: u64,
    /// How many members of its ensemble aren't registered.
    pub down: u32,
    /// How many of its entries can't be read, if the fragment has a stop.
    pub lost: Option<u32>,
}
