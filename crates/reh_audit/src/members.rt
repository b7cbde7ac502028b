// Members that aren't registered.
ghost use Rattle.std.specs.Prelude.{◌≡◌, ◌<◌, position, All};
ghost use Rattle.std.specs.List.{filter, flat_map};
ghost use Rattle.std.specs.Option.{ForSome, IsSome};
ghost use Rattle.reh_types.specs.declared.limits.TheConstants.{MAX_BOOKIES};
ghost use Rattle.reh_types.specs.Sets as set;
ghost use Rattle.reh_model.specs.Cluster.{ledger_at};
ghost use Rattle.reh_model.specs.Audit as model;
ghost use Rattle.reh_audit.specs.Members.{HasBookies, is_lost};

use reh_cluster::{Ledger, State};
use reh_meta::Fragment;
use reh_types::{BookieIx, BookieSet, LedgerId};

/// The members of the ledger's ensembles that aren't registered. The ledger has to be in the picture.
///
/// BookKeeper's auditor looks for the ledgers of lost bookies in the same way, in every fragment of the
/// ledger's metadata.
pub fn missing(state: &State, ledger: LedgerId) -> BookieSet
    requires { IsSome (ledger_at state.now ledger) }
    ensures { ForSome (ledger_at state.now ledger)
        (λ g. result ≡ model.missing_members state.now g) }
{
    state.assert_well_formed();
    let found = state.ledger(ledger).unwrap();
    missing_of(state, found)
}

/// The missing members after whose loss the delay is over. The ledger has to be in the picture.
///
/// BookKeeper's auditor waits in the same way, for `lostBookieRecoveryDelay`, before it publishes the ledgers of lost
/// bookies; here it waits for each bookie by itself.
pub fn long_lost(state: &State, ledger: LedgerId) -> BookieSet
    requires { IsSome (ledger_at state.now ledger) }
    ensures { ForSome (ledger_at state.now ledger)
        (λ g. result ≡ model.long_lost_members state.now g) }
{
    state.assert_well_formed();
    let found = state.ledger(ledger).unwrap();
    long_lost_of(state, found)
}

/// The members of the ledger's ensembles that aren't registered, of a ledger that was found. Each member has to be
/// one of the 64 bookies that there can be.
fn missing_of(state: &State, ledger: &Ledger) -> BookieSet
    requires { HasBookies ledger.now }
    ensures { result ≡ model.missing_members state.now ledger.now }
{
    lost_from(state, Loss::Any, ledger.metadata().fragments())
}

/// The missing members after whose loss the delay is over, of a ledger that was found. Each member has to be one of
/// the 64 bookies that there can be.
pub fn long_lost_of(state: &State, ledger: &Ledger) -> BookieSet
    requires { HasBookies ledger.now }
    ensures { result ≡ model.long_lost_members state.now ledger.now }
{
    lost_from(state, Loss::Long, ledger.metadata().fragments())
}

/// The bookies that the ledger's task names after an audit: those that it named, and the long-lost members,
/// of which each has to be one of the 64 bookies that there can be.
pub fn published_of(state: &State, ledger: &Ledger) -> BookieSet
    requires { HasBookies ledger.now }
    ensures { result ≡ model.published_members state.now ledger.now }
{
    ledger.task_set().union(&long_lost_of(state, ledger))
}

/// Which bookies are asked for.
#[derive(Clone, Copy)]
enum Loss {
    /// Those that aren't registered.
    Any,
    /// Those of them after whose loss the delay is over.
    Long,
}

/// The members of all ensembles that are lost so.
fn lost_from(state: &State, loss: Loss, fragments: &[Fragment]) -> BookieSet
    requires { All (λ fragment. All (λ b. b < MAX_BOOKIES) fragment.ensemble) fragments.now }
    ensures { result ≡ set.from_list (filter (is_lost loss state.now)
        (flat_map (λ fragment. fragment.ensemble) fragments.now)) }
{
    let mut lost = BookieSet::new();
    for fragment in fragments {
        lost = lost.union(&lost_among(state, loss, &fragment.ensemble));
    }
    lost
}

/// The members of one ensemble that are lost so.
fn lost_among(state: &State, loss: Loss, ensemble: &[BookieIx]) -> BookieSet
    requires { All (λ b. b < MAX_BOOKIES) ensemble.now }
    ensures { result ≡ set.from_list (filter (is_lost loss state.now) ensemble.now) }
{
    let mut lost = BookieSet::new();
    for member in ensemble {
        if is_lost(state, loss, *member) {
            lost.insert(*member);
        }
    }
    lost
}

/// Whether the bookie is lost so.
fn is_lost(state: &State, loss: Loss, bookie: BookieIx) -> bool
    ensures { result ≡ is_lost loss state.now bookie }
{
    match loss {
        Loss::Any => !state.is_up(bookie),
        Loss::Long => is_long_lost(state, bookie),
    }
}

/// Whether the bookie isn't registered, and the delay after its loss is over.
fn is_long_lost(state: &State, bookie: BookieIx) -> bool
    ensures { result ≡ model.is_long_lost state.now bookie }
{
    let clock = state.clock();
    match state.lost_tick(bookie) {
        Some(tick) => tick + state.delay() <= clock,
        None => false,
    }
}

/// The least fragment of the ledger with a member that isn't registered, if there is one: the ledger is
/// under-replicated there. The ledger has to be in the picture.
pub fn under(state: &State, ledger: LedgerId) -> Option<u64>
    requires { IsSome (ledger_at state.now ledger) }
    ensures { ForSome (ledger_at state.now ledger)
        (λ g. result ≡ model.first_under state.now g) }
{
    let found = state.ledger(ledger).unwrap();
    under_of(state, found)
}

/// The least fragment with a member that isn't registered, of a ledger that was found.
pub fn under_of(state: &State, ledger: &Ledger) -> Option<u64>
    ensures { result ≡ model.first_under state.now ledger.now }
{
    let fragment = first_under(state, ledger.metadata().fragments())?;
    Some(fragment as u64)
}

/// The least of these fragments with a member that isn't registered.
fn first_under(state: &State, fragments: &[Fragment]) -> Option<usize>
    ensures { result ≡ position (model.is_under state.now) fragments.now }
{
    fragments
        .iter()
        .position(|fragment| is_under(state, fragment))
}

/// Whether some member of the fragment isn't registered.
pub fn is_under(state: &State, fragment: &Fragment) -> bool
    ensures { result ≡ model.is_under state.now fragment.now }
{
    fragment.ensemble.iter().any(|member| !state.is_up(*member))
}
