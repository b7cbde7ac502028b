// Some of a fragment's members, as the bits of a number.
ghost use Rattle.std.specs.Prelude.{◌≡◌, ◌^◌, ◌<◌, ◌≤◌, ◌+◌, ◌*◌, ℕ, List, cond, IfOk, length, map};
ghost use Rattle.reh_census.specs.Ledgers.{carries};
ghost use Rattle.reh_census.specs.declared.ledgers.Fragment.{Fragment as FragmentValue};
ghost use Rattle.reh_tally.specs.Masks as model;

use crate::rounds::remainder_behind;
use reh_census::{Fragment, Ledger, Names};
use std::alloc::{AllocError, Global};

/// The mask with one bit more, which is the lowest then.
pub(crate) fn with_bit(mask: u64, is_set: bool) -> u64
    requires { mask < 2 ^ 63 }
    ensures { result ≡ mask * 2 + cond is_set 1 0 }
{
    if is_set { mask * 2 + 1 } else { mask * 2 }
}

/// The bit of the member that is this bookie, if one is.
fn bit_of(members: &[u16], bookie: u16) -> u64
    requires { length members.now ≤ 64 }
    ensures { result ≡ model.bit_of members.now bookie }
{
    let mut mask = 0;
    let mut index = members.len();
    while index > 0 {
        index -= 1;
        mask = with_bit(mask, bookie == members[index]);
    }
    mask
}

/// The bits of the members that an ensemble names, in its order.
fn bits_of(alloc: Global, members: &[u16], ensemble: &[u16]) -> Result<Vec<u64>, AllocError>
    requires { length members.now ≤ 64 }
    ensures { IfOk result (λ bits. bits.items ≡ map (model.bit_of members.now) ensemble.now) }
{
    let mut bits = Vec::with_capacity(alloc, ensemble.len())?;
    for bookie in ensemble {
        bits.push(bit_of(members, *bookie))?;
    }
    Ok(bits)
}

/// Onto which members entries of this remainder are striped, by the bits of those that the ensemble names.
fn mask_at(ledger: &Ledger, bits: &[u64], remainder: u64) -> u64
    requires whole { length bits.now ≡ ledger.now.size }
    requires remainder { remainder < ledger.now.size }
    ensures { (members : List ℕ) (fragment : FragmentValue) → bits.now ≡ map (model.bit_of members) fragment.ensemble
        → result ≡ model.mask_of (carries ledger.now fragment remainder) members }
{
    let size = ledger.size();
    let mut mask = 0;
    for rank in 0..ledger.write_quorum() {
        mask |= bits[remainder_behind(remainder, rank, size) as usize];
    }
    mask
}

/// For each remainder of entries by the ensemble's size, onto which of the members they are striped.
pub(crate) fn masks_of(
    alloc: Global,
    members: &[u16],
    ledger: &Ledger,
    fragment: &Fragment,
) -> Result<Vec<u64>, AllocError>
    requires few { length members.now ≤ 64 }
    requires whole { length fragment.now.ensemble ≡ ledger.now.size }
    ensures { IfOk result (λ masks. masks.items ≡ model.masks_of members.now ledger.now fragment.now) }
{
    let bits = bits_of(alloc, members, fragment.ensemble.as_slice())?;
    let mut masks = Vec::with_capacity(alloc, bits.len())?;
    for remainder in 0..ledger.size() {
        let mask = mask_at(ledger, &bits, remainder);
        masks.push(mask)?;
    }
    Ok(masks)
}

/// The members whose bits are set.
pub(crate) fn chosen(alloc: Global, members: &[u16], mask: u64) -> Result<Names, AllocError>
    ensures { IfOk result (λ names. names ≡ model.chosen mask members.now) }
{
    let mut names = Vec::new(alloc);
    let mut rest = mask;
    for member in members {
        if rest % 2 == 1 {
            names.push(*member)?;
        }
        rest /= 2;
    }
    Ok(Names::of(names))
}
