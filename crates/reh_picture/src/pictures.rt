// A picture as a whole.
ghost use Rattle.std.specs.Prelude.{◌≡◌, ◌≢◌, ◌*◌, ◌≤◌, [], ◌∷◌, ℕ, Option, All, length, map, sum_by, true, Ok, Err};
ghost use Rattle.std.specs.Prelude.{MatchResult, IfOk, IfErr};
ghost use Rattle.std.specs.Result.{result_err};
ghost use Rattle.serde_json.specs.View.{view};
ghost use Rattle.reh_types.specs.declared.limits.TheConstants.{ENTRIES_IN_WORD, ENTRY_END, MAX_BOOKIES};
ghost use Rattle.reh_types.specs.declared.limits.TheConstants.{MAX_LEDGERS};
ghost use Rattle.reh_model.specs.Checks.{first_reason};
ghost use Rattle.reh_model.specs.Cluster.{cluster_of};
ghost use Rattle.reh_model.specs.WellFormed.{IsWellFormed};
ghost use Rattle.reh_cluster.specs.Parts.{HasRows};
ghost use Rattle.reh_fields.specs.Members.{number_of, list_of};
ghost use Rattle.reh_picture.specs.Places.{FailsAt, fault_at};
ghost use Rattle.reh_picture.specs.Ledgers.{ledgers_fault, listed_in, ledger_of};
ghost use Rattle.reh_picture.specs.Contents.{contents_fault, holding_in, held_in, IsGreatest};
ghost use Rattle.reh_picture.specs.Pictures.{picture_of, located_picture_of, json_in, head_fault, parts_fault};
ghost use Rattle.reh_picture.specs.Pictures.{fields_fault, pictured_cluster, IsListed, IsShown, delay_fault, delay_of};
ghost use Rattle.reh_picture.specs.Pictures.{ids_of};

use crate::bookies::read_bookies;
use crate::contents::{Holding, greatest_ends, hold, read_contents};
use crate::ledgers::{Ledgers, ListedLedger, read_ledgers, with_words};
use crate::places::{LocatedFault, Place};
use indexmap::IndexSet;
use reh_cluster::{Ledger, Names, State};
use reh_fields::members::number_within;
use reh_fields::{Field, PictureFault};
use reh_held::Held;
use reh_types::{MAX_DELAY, MAX_GRACE, MAX_PICTURE_BYTES, MAX_WORDS};
use serde_json::Value;
use std::alloc::{AllocError, Global};

/// The number of the first format.
const FIRST_FORMAT: u64 = 1;

/// The number of the format that has a delay for lost bookies, which is the last one.
const DELAY_FORMAT: u64 = 2;

/// The state that a picture shows, or the picture's first fault.
///
/// `NoMemory` comes only where a growth was refused, and may then stand in place of any other answer.
pub fn read_picture(alloc: Global, bytes: &[u8]) -> Result<State, PictureFault>
    ensures { MatchResult result (λ state. picture_of bytes.now ≡ Ok state)
        (λ fault. fault ≢ PictureFault.NoMemory → picture_of bytes.now ≡ Err fault) }
{
    match check_picture(alloc, bytes) {
        Ok(state) => Ok(state),
        Err(located) => Err(located.fault),
    }
}

/// The state that a picture shows, or the picture's first fault with its place.
///
/// `NoMemory` comes only where a growth was refused, and may then stand in place of any other answer.
pub fn check_picture(alloc: Global, bytes: &[u8]) -> Result<State, LocatedFault>
    ensures { MatchResult result (λ state. located_picture_of bytes.now ≡ Ok state)
        (λ located. located.fault ≢ PictureFault.NoMemory
        → located_picture_of bytes.now ≡ Err (located.fault, located.place)) }
{
    let picture = read_json(alloc, bytes)?;
    read_cluster(alloc, &picture)
}

/// The JSON value of a picture's bytes.
pub(crate) fn read_json(alloc: Global, bytes: &[u8]) -> Result<Value, LocatedFault>
    ensures ok { IfOk result (λ v. json_in bytes.now ≡ Ok (view v)) }
    ensures err { IfErr result (λ located. located.fault ≢ PictureFault.NoMemory
        → json_in bytes.now ≡ Err (located.fault, located.place)) }
{
    if bytes.len() > MAX_PICTURE_BYTES {
        return Err(LocatedFault::new(PictureFault::TooLong, Place::Picture));
    }
    Ok(Value::from_slice(alloc, bytes)?)
}

/// The state that a picture's fields name.
fn read_cluster(alloc: Global, picture: &Value) -> Result<State, LocatedFault>
    ensures fault { FailsAt result (fields_fault (view picture.now)) }
    ensures state { IfOk result (λ state. state ≡ pictured_cluster (view picture.now)) }
{
    let listing = read_listing(alloc, picture)?;
    match hold(
        alloc,
        listing.names.len(),
        &listing.ledgers,
        &listing.holdings,
    ) {
        Ok(held) => Ok(listing.into_state(held)),
        Err(want) => {
            listing.close();
            Err(LocatedFault::from(want))
        }
    }
}

/// What a picture lists, whose words are within the limit: the state that it shows can be made of that.
#[derive(Drop)]
pub struct Listing {
    /// The names of the bookies.
    pub names: Names,
    /// For each bookie none, if it is registered.
    pub lost_at: Vec<Option<u64>>,
    pub(crate) ticks: Ticks,
    pub(crate) ids: IndexSet<u64>,
    /// The ledgers.
    pub ledgers: Vec<Ledger>,
    /// What the bookies hold.
    pub holdings: Vec<Holding>,
}

impl Listing {
    /// Gives back its memory. Where it would be dropped, each function would have a proof of that of its own.
    pub(crate) fn close(self) {}

    /// The state that it shows, where the bookies hold this.
    fn into_state(self, held: Held) -> State
        requires cluster { IsWellFormed (cluster_of self.names self.lost_at.items self.ticks.grace self.ticks.delay true
            self.ledgers.items held.contents) }
        requires ids { self.ids.keys ≡ map (λ g. g.id) self.ledgers.items }
        requires rows { HasRows (length self.names) self.ledgers.items held }
        ensures { result ≡ cluster_of self.names self.lost_at.items self.ticks.grace self.ticks.delay true
            self.ledgers.items held.contents }
    {
        let Ticks { grace, delay } = self.ticks;
        let Listing {
            names,
            lost_at,
            ids,
            ledgers,
            ..
        } = self;
        State::build(names, lost_at, grace, delay, true, ids, ledgers, held)
    }
}

/// What a picture's fields list.
pub(crate) fn read_listing(alloc: Global, picture: &Value) -> Result<Listing, LocatedFault>
    ensures fault { FailsAt result (fields_fault (view picture.now)) }
    ensures listed { IfOk result (λ l. IsListed (view picture.now)
        l.names l.lost_at.items l.ticks.grace l.ticks.delay l.ledgers.items l.holdings.items) }
    ensures ids { IfOk result (λ l. l.ids.keys ≡ ids_of (view picture.now)) }
{
    let parts = read_parts(alloc, picture)?;
    let listing = listing_of(alloc, parts)?;
    if words_in_all(listing.names.len(), &listing.ledgers) > MAX_WORDS {
        listing.close();
        return Err(LocatedFault::new(PictureFault::Limit(Field::Contents), Place::Picture));
    }
    Ok(listing)
}

/// What these parts list, each ledger with as many words as reach its greatest entry.
fn listing_of(alloc: Global, parts: PictureParts) -> Result<Listing, AllocError>
    requires { All (λ holding. All (λ range. range.0 ≤ range.1) holding.ranges) parts.holdings.items }
    ensures names { IfOk result (λ l. l.names ≡ parts.names) }
    ensures lost_at { IfOk result (λ l. l.lost_at.items ≡ parts.lost_at.items) }
    ensures grace { IfOk result (λ l. l.ticks.grace ≡ parts.ticks.grace) }
    ensures delay { IfOk result (λ l. l.ticks.delay ≡ parts.ticks.delay) }
    ensures ids { IfOk result (λ l. l.ids.keys ≡ parts.ids.keys) }
    ensures ledgers { IfOk result (λ l. (ends : ℕ → Option ℕ)
        × IsGreatest ends (held_in parts.holdings.items)
        × (l.ledgers.items ≡ map (ledger_of ends) parts.listed.items)) }
    ensures holdings { IfOk result (λ l. l.holdings.items ≡ parts.holdings.items) }
{
    let PictureParts {
        names,
        lost_at,
        ticks,
        ids,
        listed,
        holdings,
    } = parts;
    let ledgers = reaching(alloc, listed, &holdings)?;
    Ok(Listing {
        names,
        lost_at,
        ticks,
        ids,
        ledgers,
        holdings,
    })
}

/// The listed ledgers, each with as many words as reach its greatest entry that is held.
fn reaching(
    alloc: Global,
    listed: Vec<ListedLedger>,
    holdings: &[Holding],
) -> Result<Vec<Ledger>, AllocError>
    requires { All (λ holding. All (λ range. range.0 ≤ range.1) holding.ranges) holdings.now }
    ensures { IfOk result (λ ledgers. (ends : ℕ → Option ℕ) × IsGreatest ends (held_in holdings.now)
        × (ledgers.items ≡ map (ledger_of ends) listed.items)) }
{
    let greatest = greatest_ends(alloc, holdings)?;
    with_words(alloc, listed, &greatest)
}

/// How many words of entries so many bookies take, each as many for a ledger as it has.
pub(crate) fn words_in_all(bookies: usize, ledgers: &[Ledger]) -> u64
    requires bookies { bookies ≤ MAX_BOOKIES }
    requires ledgers { length ledgers.now ≤ MAX_LEDGERS }
    requires words { All (λ g. ENTRIES_IN_WORD * g.words ≤ ENTRY_END) ledgers.now }
    ensures { result ≡ bookies * sum_by (λ g. g.words) ledgers.now }
{
    let mut words = 0;
    for ledger in ledgers {
        words += ledger.words() as u64;
    }
    bookies as u64 * words
}

/// What a picture shows, before the limit of words is judged.
#[derive(Drop)]
struct PictureParts {
    names: Names,
    lost_at: Vec<Option<u64>>,
    ticks: Ticks,
    ids: IndexSet<u64>,
    listed: Vec<ListedLedger>,
    holdings: Vec<Holding>,
}

/// The numbers of ticks that stand before a picture's lists.
#[derive(Clone, Copy)]
pub(crate) struct Ticks {
    grace: u64,
    delay: u64,
}

/// The grace and the delay of a picture, in ticks.
#[tactic(auto, unfolding(crate::specs::Pictures::head_fault))]
fn read_ticks(picture: &Value) -> Result<Ticks, PictureFault>
    ensures fault { result_err result ≡ head_fault (view picture.now) }
    ensures grace { IfOk result
        (λ ticks. ticks.grace ≡ number_of (view picture.now) Field.Grace) }
    ensures delay { IfOk result (λ ticks. ticks.delay ≡ delay_of (view picture.now)) }
{
    if !picture.is_object() {
        return Err(PictureFault::WrongKind(Field::Picture));
    }
    let format = number_within(picture, Field::Format, FIRST_FORMAT, DELAY_FORMAT)?;
    let grace = number_within(picture, Field::Grace, 0, MAX_GRACE)?;
    let delay = read_delay(picture, format)?;
    Ok(Ticks { grace, delay })
}

/// The delay for lost bookies, none in a picture of format 1.
fn read_delay(picture: &Value, format: u64) -> Result<u64, PictureFault>
    requires { number_of (view picture.now) Field.Format ≡ format }
    ensures fault { result_err result ≡ delay_fault (view picture.now) }
    ensures delay { IfOk result (λ delay. delay ≡ delay_of (view picture.now)) }
{
    if format == DELAY_FORMAT {
        number_within(picture, Field::LostDelayTicks, 0, MAX_DELAY)
    } else {
        Ok(0)
    }
}

/// The parts that a picture's fields name.
fn read_parts(alloc: Global, picture: &Value) -> Result<PictureParts, LocatedFault>
    ensures fault { FailsAt result (parts_fault (view picture.now)) }
    ensures shown { IfOk result (λ p. IsShown (view picture.now)
        p.names p.lost_at.items p.ticks.grace p.ticks.delay p.listed.items p.holdings.items) }
    ensures ids { IfOk result (λ p. p.ids.keys ≡ ids_of (view picture.now)) }
{
    let ticks = match read_ticks(picture) {
        Ok(ticks) => ticks,
        Err(fault) => return Err(LocatedFault::new(fault, Place::Picture)),
    };
    let (names, lost_at) = read_bookies(alloc, picture)?;
    match read_lists(alloc, &names, picture) {
        Ok((ledgers, holdings)) => {
            let Ledgers { ids, listed } = ledgers;
            Ok(PictureParts {
                names,
                lost_at,
                ticks,
                ids,
                listed,
                holdings,
            })
        }
        Err(fault) => Err(fault),
    }
}

/// The ledgers of a picture, and what its bookies hold.
fn read_lists(
    alloc: Global,
    names: &Names,
    picture: &Value,
) -> Result<(Ledgers, Vec<Holding>), LocatedFault>
    ensures fault { FailsAt result (first_reason (
        ledgers_fault names.now (view picture.now)
        ∷ contents_fault names.now (ids_of (view picture.now)) (view picture.now)
        ∷ [])) }
    ensures ids { IfOk result (λ r. r.0.ids.keys ≡ ids_of (view picture.now)) }
    ensures listed { IfOk result (λ r. r.0.listed.items
        ≡ map (listed_in names.now) (list_of (view picture.now) Field.Ledgers)) }
    ensures holdings { IfOk result (λ r. r.1.items
        ≡ map (holding_in names.now) (list_of (view picture.now) Field.Contents)) }
{
    let ledgers = read_ledgers(alloc, names, picture)?;
    match read_contents(alloc, names, &ledgers.ids, picture) {
        Ok(holdings) => Ok((ledgers, holdings)),
        Err(fault) => Err(fault),
    }
}
