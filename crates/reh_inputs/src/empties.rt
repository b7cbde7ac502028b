// Contents of bookies that came back empty.
ghost use Rattle.std.specs.Prelude.{◌≡◌, IfErr, OnOk};
ghost use Rattle.reh_inputs.specs.Empties as model;
ghost use Rattle.reh_inputs.specs.Faults.{IsHeldBy};
ghost use Rattle.reh_inputs.specs.declared.inputs.Input.TheVariants.{Picture};

use reh_picture::{Holding, Listed};
use reh_types::BookieIx;

/// What an empty bookie is said to hold.
#[derive(Clone, Copy)]
pub struct EmptyHolds {
    /// The number of the bookie in its input.
    pub bookie: usize,
    pub ledger: u64,
}

/// Whether a picture shows a bookie as empty: as one that came back without its disk.
pub fn is_shown_empty(listed: &Listed, bookie: BookieIx) -> bool
    ensures { result ≡ model.is_shown_empty listed.now bookie }
{
    match listed.marks.get(bookie.0 as usize) {
        Some(marks) => marks.is_empty(),
        None => false,
    }
}

/// Whether an empty bookie is said to hold entries.
fn holds_though_empty(listed: &Listed, holding: &Holding) -> bool
    ensures { result ≡ model.holds_though_empty listed.now holding.now }
{
    is_shown_empty(listed, holding.bookie()) && holding.ranges().len() > 0
}

/// That no empty bookie of a picture is said to hold entries, or the first that is.
pub fn check_empties(listed: &Listed) -> Result<(), EmptyHolds>
    ensures nothing { OnOk result (model.EmptyHoldNothing listed.now) }
    ensures held { IfErr result (λ held. IsHeldBy (Picture listed.now) held) }
{
    for holding in &listed.listing.holdings {
        if holds_though_empty(listed, holding) {
            return Err(EmptyHolds {
                bookie: holding.bookie().0 as usize,
                ledger: holding.ledger().0,
            });
        }
    }
    Ok(())
}
