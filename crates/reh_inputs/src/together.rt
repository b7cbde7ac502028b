// What inputs show together.
ghost use Rattle.std.specs.Prelude.{◌≡◌, length};

use crate::cluster::Cluster;
use reh_census::{Bookies, Census, Ledger};

/// What inputs show together: the bookies, the ids of the ledgers, each once, the ledgers, and their census.
#[derive(Drop)]
pub struct Gathered {
    pub cluster: Cluster,
    pub bookies: Bookies,
    pub ids: Vec<u64>,
    pub ledgers: Vec<Ledger>,
    pub census: Census,
    ghost each: { length ids.items ≡ length ledgers.items },
}
