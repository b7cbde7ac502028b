// Who takes the places of missing members.
ghost use Rattle.std.specs.Prelude.{◌≡◌, ◌<◌, ◌||◌, ◌==◌, ℕ, if◌then◌else◌, IfOk, IfSome, slice_index};
ghost use Rattle.std.specs.List.{flat_map, list_any};
ghost use Rattle.std.specs.Option.{option_map, option_map_or};
ghost use Rattle.reh_types.specs.Sets as set;
ghost use Rattle.reh_types.specs.declared.limits.TheConstants.{MAX_BOOKIES};
ghost use Rattle.reh_model.specs.Audit as audit;
ghost use Rattle.reh_plan.specs.Choices as model;
ghost use Rattle.reh_plan.specs.Racks.{lacking_at};
ghost use Rattle.reh_plan.specs.Summaries.{holdings_of as holdings};
ghost use Rattle.reh_plan.specs.Takers as takers;
ghost use Rattle.reh_plan.specs.Workers.{may_work, rules_by, with_load};

use crate::racks::Racks;
use crate::summaries::holdings_of;
use reh_cluster::{Ledger, State};
use reh_meta::Fragment;
use reh_types::{BookieIx, BookieSet, MAX_BOOKIES};
use std::alloc::{AllocError, Global};
use std::marker::Model;

/// The bookies that may take places, which are those that are allowed to and can be written to, whether writers put them into
/// their ensembles, in which racks bookies stand, and how much each one holds. Contracts see the rules for this, the racks and
/// the loads.
#[derive(Drop)]
pub(crate) struct Workers {
    allowed: BookieSet,
    read_only: BookieSet,
    /// How many entries each bookie holds: those of the picture, and about as many as it has copied since.
    loads: Vec<usize>,
    racks: Racks,
    writers_roll: bool,
}

impl Model for Workers {
    ghost use Rattle.reh_plan.specs.Workers.{Workers as WorkersValue, rules_by};

    ghost Value = { WorkersValue };

    ghost view = { λ workers. record {
      rules = rules_by workers.allowed workers.read_only workers.writers_roll;
      racks = workers.racks;
      loads = workers.loads.items;
    } };
}

/// The place of a missing member: an index of a ledger's fragment.
#[derive(Clone, Copy)]
struct Place<'a> {
    ledger: &'a Ledger,
    fragment: usize,
    index: usize,
}

/// A bookie that could take a place, and what is compared of it: how many write sets would lack racks, whether it lacks the
/// ledger's lock, whether it is in an ensemble of the ledger, how many entries it holds, and its number. Of two candidates the
/// one with the lesser ranks comes first.
#[derive(Clone, Copy)]
struct Candidate {
    bookie: BookieIx,
    ranks: [u64; 5],
}

impl Workers {
    /// With what the bookies hold now. Only those that are allowed take places, and none that is read-only. Writers put them
    /// into their ensembles only if `writers_roll` is set.
    pub(crate) fn of(
        alloc: Global,
        state: &State,
        allowed: &BookieSet,
        read_only: &BookieSet,
        racks: &Racks,
        writers_roll: bool,
    ) -> Result<Workers, AllocError>
        ensures { IfOk result (λ workers. workers ≡ record {
          rules = rules_by allowed.now read_only.now writers_roll;
          racks = racks.now;
          loads = holdings state.now;
        }) }
    {
        Ok(Workers {
            allowed: allowed.copied(),
            read_only: read_only.copied(),
            loads: holdings_of(alloc, state)?,
            racks: racks.clone_in()?,
            writers_roll,
        })
    }

    /// Who takes the place at the index of a fragment: of the bookies that could, the one with which the fewest write sets
    /// lack racks; of several the one that has the ledger's lock, else one in no ensemble of the ledger, then the one that
    /// holds least, and then the first of the picture.
    pub(crate) fn choose(
        &self,
        state: &State,
        ledger: &Ledger,
        fragment: usize,
        index: usize,
    ) -> Option<BookieIx>
        ensures { model.IsChoice self.now state.now ledger.now fragment index result }
    {
        let place = Place {
            ledger,
            fragment,
            index,
        };
        match self.ready_owner(state, &place) {
            Some(owner) => Some(owner),
            None => self.first_candidate(state, &place),
        }
    }

    /// Who has the ledger's lock, if it could take the place and no write set would lack racks: then nobody comes before it.
    fn ready_owner(&self, state: &State, place: &Place) -> Option<BookieIx>
        ensures { IfSome result (model.IsFirst self.now state.now place.now.ledger.now place.now.fragment place.now.index) }
    {
        let owner = owner_of(place.ledger)?;
        if self.could_join(state, place, owner) && self.lacking(place, owner) == 0 {
            Some(owner)
        } else {
            None
        }
    }

    /// The first of the bookies that could take the place.
    fn first_candidate(&self, state: &State, place: &Place) -> Option<BookieIx>
        ensures { model.IsChoice self.now state.now place.now.ledger.now place.now.fragment place.now.index result }
    {
        let members = members_of(place.ledger.metadata().fragments());
        let mut first: Option<Candidate> = None;
        for number in 0..state.names().len() as u8 {
            let bookie = BookieIx(number);
            if self.could_join(state, place, bookie) {
                let ranks = self.ranks(place, &members, bookie);
                first = Some(earlier(first, Candidate { bookie, ranks }));
            }
        }
        Some(first?.bookie)
    }

    /// What is compared of the bookie. The set has the members of the ledger's ensembles.
    fn ranks(&self, place: &Place, members: &BookieSet, bookie: BookieIx) -> [u64; 5]
        requires { set.contains members.now bookie
            ≡ list_any (λ member. member == bookie) (audit.members_of place.now.ledger.now.metadata) }
        ensures { result
            ≡ model.ranks_of self.now place.now.ledger.now place.now.fragment place.now.index bookie }
    {
        [
            self.lacking(place, bookie) as u64,
            if place.ledger.is_locked_by(bookie) {
                0
            } else {
                1
            },
            if members.contains(bookie) { 1 } else { 0 },
            self.load(bookie) as u64,
            bookie.0 as u64,
        ]
    }

    /// How many write sets would lack racks, with that bookie at the place.
    fn lacking(&self, place: &Place, bookie: BookieIx) -> usize
        ensures { result
            ≡ lacking_at self.now.racks place.now.ledger.now.metadata place.now.fragment place.now.index bookie }
    {
        self.racks.lacking(place.ledger.metadata(), place.fragment, place.index, bookie)
    }

    /// How many entries the bookie holds, 0 if there is no such bookie.
    fn load(&self, bookie: BookieIx) -> usize
        ensures { result ≡ slice_index self.now.loads bookie }
    {
        match self.loads.get(bookie.0 as usize) {
            Some(load) => *load,
            None => 0,
        }
    }

    /// Whether the bookie could take the place.
    fn could_join(&self, state: &State, place: &Place, bookie: BookieIx) -> bool
        ensures { result ≡ model.could_join self.now state.now place.now.ledger.now place.now.fragment bookie }
    {
        match place.ledger.metadata().fragments().get(place.fragment) {
            Some(fragment) => self.could_take(state, fragment, bookie),
            None => false,
        }
    }

    /// Whether the bookie could take a place of the fragment: it may take places, is registered, and is no member.
    pub(crate) fn could_take(&self, state: &State, fragment: &Fragment, bookie: BookieIx) -> bool
        ensures { result ≡ takers.could_take (may_work self.now.rules) state.now fragment.now bookie }
    {
        self.is_able(bookie) && state.is_up(bookie) && !fragment.ensemble.contains(&bookie)
    }

    /// Whether the bookie may take places.
    pub(crate) fn is_able(&self, worker: BookieIx) -> bool
        ensures { result ≡ may_work self.now.rules worker }
    {
        self.allowed.contains(worker) && !self.read_only.contains(worker)
    }

    /// Whether writers put such bookies into their ensembles.
    pub(crate) fn do_writers_roll(&self) -> bool
        ensures { result ≡ self.now.rules.writers_roll }
    {
        self.writers_roll
    }

    /// Notes that the bookie holds so many entries more.
    pub(crate) fn add(&mut self, worker: BookieIx, entries: u64)
        ensures { self.new ≡ with_load self.old worker entries }
    {
        let place = worker.0 as usize;
        if place < self.loads.len() {
            self.loads[place] = self.loads[place].saturating_add(entries as usize);
        }
    }
}

/// Which of two candidates comes first.
fn earlier(first: Option<Candidate>, other: Candidate) -> Candidate
    ensures { result ≡ option_map_or (λ first. if model.is_less other.ranks first.ranks then other else first) first other }
{
    match first {
        Some(first) => {
            if is_less(&other.ranks, &first.ranks) {
                other
            } else {
                first
            }
        }
        None => other,
    }
}

/// Whether, of the first two numbers that differ, the first is less.
fn is_less(ranks: &[u64], others: &[u64]) -> bool
    ensures { result ≡ model.is_less ranks.now others.now }
{
    match ranks {
        [rank, rest @ ..] => match others {
            [other, more @ ..] => *rank < *other || *rank == *other && is_less(rest, more),
            [] => false,
        },
        [] => false,
    }
}

/// Who has the ledger's lock.
pub(crate) fn owner_of(ledger: &Ledger) -> Option<BookieIx>
    ensures { result ≡ option_map (λ lock. lock.owner) ledger.now.lock }
{
    let lock = ledger.lock()?;
    Some(lock.owner)
}

/// The members of these ensembles, as far as there can be such bookies.
fn members_of(fragments: &[Fragment]) -> BookieSet
    ensures { (b : ℕ) → b < MAX_BOOKIES → set.contains result b
        ≡ list_any (λ member. member == b) (flat_map (λ fragment. fragment.ensemble) fragments.now) }
{
    let mut members = BookieSet::new();
    for fragment in fragments {
        add_members(&mut members, &fragment.ensemble);
    }
    members
}

/// Adds the members of an ensemble, as far as there can be such bookies.
fn add_members(members: &mut BookieSet, ensemble: &[BookieIx])
    ensures { (b : ℕ) → b < MAX_BOOKIES → set.contains members.new b
        ≡ (set.contains members.old b || list_any (λ member. member == b) ensemble.now) }
{
    for member in ensemble {
        if (member.0 as usize) < MAX_BOOKIES {
            members.insert(*member);
        }
    }
}
