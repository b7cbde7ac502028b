// A ledger of the cluster, with its task and its lock.
ghost use Rattle.std.specs.Prelude.{◌≡◌, None};
ghost use Rattle.std.specs.Option.{option_copied};
ghost use Rattle.reh_model.specs.Cluster as model;

use reh_meta::LedgerMeta;
use reh_types::{BookieIx, BookieSet, LedgerId, Lock};
use std::alloc::AllocError;
use std::marker::Model;
use std::mem;

/// A ledger with room for a rereplication task and its lock; contracts see it as `Ledger` of the definitions.
#[derive(Drop)]
pub struct Ledger {
    id: LedgerId,
    metadata: LedgerMeta,
    /// How many words of 64 entries the ledger has: each bookie's row of it has as many.
    words: usize,
    task: Option<BookieSet>,
    lock: Option<Lock>,
}

impl Model for Ledger {
    ghost use Rattle.reh_model.specs.Cluster as model;

    ghost Value = { model.Ledger };

    ghost view = { λ g. record { id = g.id; metadata = g.metadata; words = g.words; task = g.task; lock = g.lock } };
}

impl Clone for Ledger {
    ghost use Rattle.std.specs.Prelude.{◌≡◌};

    ghost is_clone = { λ ledger copy. copy ≡ ledger };

    fn clone(&self) -> Result<Ledger, AllocError> {
        let task = match &self.task {
            Some(bookies) => Some(bookies.copied()),
            None => None,
        };
        Ok(Ledger {
            id: self.id,
            metadata: self.metadata.clone_in()?,
            words: self.words,
            task,
            lock: self.lock,
        })
    }
}

impl PartialEq for Ledger {
    ghost use Rattle.reh_types.specs.Same.{tells_laws};
    ghost use Rattle.reh_cluster.specs.Same.{same_ledger, tells_ledgers};

    ghost eq = { same_ledger };

    ghost laws = { tells_laws tells_ledgers };

    fn eq(&self, other: &Ledger) -> bool {
        self.id == other.id
            && self.metadata == other.metadata
            && self.words == other.words
            && self.task == other.task
            && self.lock == other.lock
    }
}

impl Ledger {
    /// A ledger with no task and so many words of 64 entries: each bookie's row of it has as many.
    pub fn new(id: LedgerId, metadata: LedgerMeta, words: usize) -> Ledger
        ensures { result
            ≡ record { id = id; metadata = metadata; words = words; task = None; lock = None } }
    {
        Ledger {
            id,
            metadata,
            words,
            task: None,
            lock: None,
        }
    }

    /// The ledger's id.
    pub fn id(&self) -> LedgerId
        ensures { result ≡ self.now.id }
    {
        self.id
    }

    /// The ledger's metadata.
    pub fn metadata(&self) -> &LedgerMeta
        ensures { result.now ≡ self.now.metadata }
    {
        &self.metadata
    }

    /// How many words of 64 entries the ledger has: each bookie's row of it has as many. No event changes it.
    pub fn words(&self) -> usize
        ensures { result ≡ self.now.words }
    {
        self.words
    }

    /// The bookies that the ledger's task is to replace, if it has one.
    pub fn task(&self) -> Option<&BookieSet>
        ensures { option_copied result ≡ self.now.task }
    {
        self.task.as_ref()
    }

    /// The lock of the ledger's task, if it is locked.
    pub fn lock(&self) -> Option<Lock>
        ensures { result ≡ self.now.lock }
    {
        self.lock
    }

    /// The bookies that the ledger's task names, none without a task.
    pub fn task_set(&self) -> BookieSet
        ensures { result ≡ model.task_set self.now }
    {
        match &self.task {
            Some(bookies) => bookies.copied(),
            None => BookieSet::new(),
        }
    }

    /// Whether the worker holds the ledger's lock.
    pub fn is_locked_by(&self, worker: BookieIx) -> bool
        ensures { result ≡ model.is_locked_by worker self.now }
    {
        match self.lock {
            Some(lock) => lock.owner == worker,
            None => false,
        }
    }

    /// Swaps the metadata with another.
    pub(crate) fn swap_metadata(&mut self, metadata: &mut LedgerMeta)
        ensures ledger { self.new ≡ record self.old { metadata = metadata.old } }
        ensures other { metadata.new ≡ self.old.metadata }
    {
        mem::swap(&mut self.metadata, metadata);
    }

    /// Swaps the task with another.
    pub(crate) fn swap_task(&mut self, task: &mut Option<BookieSet>)
        ensures ledger { self.new ≡ record self.old { task = task.old } }
        ensures other { task.new ≡ self.old.task }
    {
        mem::swap(&mut self.task, task);
    }

    /// Swaps the lock with another.
    pub(crate) fn swap_lock(&mut self, lock: &mut Option<Lock>)
        ensures ledger { self.new ≡ record self.old { lock = lock.old } }
        ensures other { lock.new ≡ self.old.lock }
    {
        mem::swap(&mut self.lock, lock);
    }
}
