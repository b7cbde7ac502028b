// What the picture that a rehearsal began with told of contents.
ghost use Rattle.std.specs.Prelude.{◌≡◌};
ghost use Rattle.reh_picture_out.specs.Marks as model;

use reh_picture::Holding;
use reh_types::{BookieIx, LedgerId};

/// Whether a bookie that holds these ranges of a ledger has no content for it: they are none, and there was no content.
pub(crate) fn lacks_content(
    told: &[Holding],
    bookie: BookieIx,
    ledger: LedgerId,
    ranges: &[(u32, u32)],
) -> bool
    ensures { result ≡ model.lacks_content told.now bookie ledger ranges.now }
{
    ranges.is_empty() && !is_told(told, bookie, ledger)
}

/// Whether there is a content of the bookie for the ledger.
fn is_told(told: &[Holding], bookie: BookieIx, ledger: LedgerId) -> bool
    ensures { result ≡ model.is_told told.now bookie ledger }
{
    for holding in told {
        if holding.bookie() == bookie && holding.ledger() == ledger {
            return true;
        }
    }
    false
}

/// Whether some content of the ledger is assumed.
pub(crate) fn is_assumed(told: &[Holding], ledger: LedgerId) -> bool
    ensures { result ≡ model.has_assumed told.now ledger }
{
    for holding in told {
        if holding.is_assumed() && holding.ledger() == ledger {
            return true;
        }
    }
    false
}
