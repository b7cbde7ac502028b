// Whether bookies may be stopped, asked by their names of what inputs show together; in which rounds; and what the next
// losses cost.
#![tactic(auto)]

mod named;
mod rounds;
mod stops;
mod verdicts;

pub use rounds::{AskedRisk, AskedWaves, RoundFault, answer_risk, answer_waves};
pub use stops::{Asked, Said, StopFault, judge_stop, say_weighed, stop_of};
pub use verdicts::Verdict;
