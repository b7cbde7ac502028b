// What a picture told of its bookies.
ghost use Rattle.std.specs.Prelude.{◌≡◌};
ghost use Rattle.reh_known.specs.Known as model;

use reh_inputs::is_shown_empty;
use reh_picture::{Holding, Listed};
use reh_types::{BookieIx, LedgerId};

/// Whether the picture told what the bookie holds of the ledger: by a content, also an assumed one, or as it had come back
/// without its disk.
pub(crate) fn was_told(began: &Listed, bookie: BookieIx, ledger: LedgerId) -> bool
    ensures { result ≡ model.was_told began.now bookie ledger }
{
    is_shown_empty(began, bookie)
        || is_said(began.listing.holdings.as_slice(), true, bookie, ledger)
}

/// Whether it told what the bookie holds of the end of the ledger, too: by a content that isn't assumed, of a bookie that
/// hadn't come back without its disk.
pub(crate) fn was_told_end(began: &Listed, bookie: BookieIx, ledger: LedgerId) -> bool
    ensures { result ≡ model.was_told_end began.now bookie ledger }
{
    is_said(began.listing.holdings.as_slice(), false, bookie, ledger)
        && !is_shown_empty(began, bookie)
}

/// Whether one of these contents tells what the bookie holds of the ledger.
fn is_said(told: &[Holding], may_assume: bool, bookie: BookieIx, ledger: LedgerId) -> bool
    ensures { result ≡ model.is_said told.now may_assume bookie ledger }
{
    for holding in told {
        if holding.bookie() == bookie && holding.ledger() == ledger && tells(may_assume, holding) {
            return true;
        }
    }
    false
}

/// Whether a content tells what its bookie holds: an assumed list doesn't if it is empty, or where nothing may be assumed.
fn tells(may_assume: bool, holding: &Holding) -> bool
    ensures { result ≡ model.tells may_assume holding.now }
{
    !holding.is_assumed() || (may_assume && !holding.ranges().is_empty())
}
