// The cluster that inputs show together: its bookies by number, and its ledgers as a census counts them.
#![tactic(auto)]

mod apart;
mod by_ledger;
mod cluster;
mod empties;
mod files;
mod gathered;
mod inputs;
mod ledgers;
mod named;
mod names;
mod parts;
mod shown;
mod together;
mod united;

pub use apart::{check_ids, ids_of};
pub use cluster::{Cluster, ClusterFault};
pub use empties::{EmptyHolds, check_empties, is_shown_empty};
pub use gathered::{GatherFault, gather};
pub use inputs::{Input, InputFault, read_input};
pub use ledgers::Reading;
pub use named::{named_of, names_of, taken_of};
pub use names::{ClusterNames, MAX_CLUSTER_BOOKIES};
pub use parts::let_go;
pub use shown::Shown;
pub use together::Gathered;
pub use united::{UniteFault, numbers_of, unite};
