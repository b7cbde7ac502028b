// What a state has that no field of a picture shows.
ghost use Rattle.std.specs.Prelude.{◌≡◌, count_by};
ghost use Rattle.std.specs.Option.{is_some};
ghost use Rattle.reh_picture_out.specs.Unshown.{IsUnshown};

use reh_cluster::{Ledger, State};

/// What a state has that no field of a picture shows.
#[derive(Clone, Copy)]
pub struct Unshown {
    /// How many ledgers have a task.
    pub tasks: usize,
    /// How many of the tasks are locked. A lock's due tick goes with it.
    pub locks: usize,
    /// The clock, in ticks. A bookie that is lost counts in the picture as lost at its tick 0.
    pub clock: u64,
    /// Whether AutoRecovery is disabled.
    pub is_disabled: bool,
}

impl Unshown {
    /// What of this state no picture shows.
    pub fn of(state: &State) -> Unshown
        ensures { IsUnshown state.now result }
    {
        let (tasks, locks) = count_tasks(state.ledgers());
        Unshown {
            tasks,
            locks,
            clock: state.clock(),
            is_disabled: !state.is_enabled(),
        }
    }
}

/// How many ledgers have a task, and how many have a lock.
fn count_tasks(ledgers: &[Ledger]) -> (usize, usize)
    ensures tasks { result.0 ≡ count_by (λ g. is_some g.task) ledgers.now }
    ensures locks { result.1 ≡ count_by (λ g. is_some g.lock) ledgers.now }
{
    let mut tasks = 0;
    let mut locks = 0;
    for ledger in ledgers {
        if ledger.task().is_some() {
            tasks += 1;
        }
        if ledger.lock().is_some() {
            locks += 1;
        }
    }
    (tasks, locks)
}
