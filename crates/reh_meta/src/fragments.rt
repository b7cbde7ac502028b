// Fragments of a ledger.
ghost use Rattle.std.specs.Prelude.{◌≡◌, ◌<◌, length, IfOk};
ghost use Rattle.std.specs.List.{list_all};
ghost use Rattle.reh_model.specs.Metadata as meta;

use reh_types::BookieIx;
use std::alloc::AllocError;
use std::marker::Model;

/// Entries of a ledger, from the first one up to the next fragment's first, and the ensemble of
/// bookies that they were written to.
#[derive(Drop)]
pub struct Fragment {
    /// The id of the first entry.
    pub first: u32,
    /// The bookies, by their indexes in the ensemble.
    pub ensemble: Vec<BookieIx>,
}

impl Model for Fragment {
    ghost use Rattle.reh_model.specs.Metadata.{Fragment as FragmentValue};

    ghost Value = { FragmentValue };

    ghost view = { λ a. record { first = a.first; ensemble = a.ensemble.items } };
}

impl Clone for Fragment {
    ghost use Rattle.std.specs.Prelude.{◌≡◌};

    ghost is_clone = { λ fragment copy. copy ≡ fragment };

    fn clone(&self) -> Result<Fragment, AllocError> {
        Ok(Fragment {
            first: self.first,
            ensemble: self.ensemble.clone()?,
        })
    }
}

impl PartialEq for Fragment {
    ghost use Rattle.reh_types.specs.Same.{tells_laws};
    ghost use Rattle.reh_meta.specs.Same.{same_fragment, tells_fragments};

    ghost eq = { same_fragment };

    ghost laws = { tells_laws tells_fragments };

    fn eq(&self, other: &Fragment) -> bool {
        self.first == other.first && self.ensemble == other.ensemble
    }
}

impl Fragment {
    /// Puts another bookie into a place of the ensemble.
    pub(crate) fn replace(&mut self, index: usize, bookie: BookieIx)
        requires { index < length self.old.ensemble }
        ensures { self.new ≡ meta.with_member self.old index bookie }
    {
        self.ensemble[index] = bookie;
    }

    /// The fragment that begins at the entry `first`, with another bookie in a place of this one's ensemble.
    pub(crate) fn successor(
        &self,
        first: u32,
        index: usize,
        bookie: BookieIx,
    ) -> Result<Fragment, AllocError>
        requires { index < length self.now.ensemble }
        ensures { IfOk result (λ next. next
            ≡ record (meta.with_member self.now index bookie) { first = first }) }
    {
        let ensemble = self.ensemble.clone()?;
        let mut next = Fragment { first, ensemble };
        next.replace(index, bookie);
        Ok(next)
    }
}

/// Whether there is a fragment, the first begins at entry 0, and each begins before the next.
pub(crate) fn rise_from_zero(fragments: &[Fragment]) -> bool
    ensures { result ≡ meta.rise_from_zero fragments.now }
{
    fragments
        .first()
        .is_some_and(|fragment| fragment.first == 0)
        && are_rising(fragments)
}

/// Whether each fragment begins before the next.
fn are_rising(fragments: &[Fragment]) -> bool
    ensures { result ≡ meta.are_rising fragments.now }
{
    let next_ones = fragments.iter().skip(1);
    fragments
        .iter()
        .zip(next_ones)
        .all(|(fragment, next)| fragment.first < next.first)
}

/// Whether each fragment has an ensemble of this size.
pub(crate) fn have_ensembles(fragments: &[Fragment], size: u64) -> bool
    ensures { result
        ≡ list_all (λ fragment. meta.is_ensemble size fragment.ensemble) fragments.now }
{
    fragments
        .iter()
        .all(|fragment| is_ensemble(&fragment.ensemble, size))
}

/// Whether these are so many different bookies.
fn is_ensemble(members: &[BookieIx], size: u64) -> bool
    ensures { result ≡ meta.is_ensemble size members.now }
{
    members.len() as u64 == size && are_different(members)
}

/// Whether no bookie is named twice.
fn are_different(members: &[BookieIx]) -> bool
    ensures { result ≡ meta.are_different members.now }
{
    match members {
        [] => true,
        [first, rest @ ..] => !rest.contains(first) && are_different(rest),
    }
}
