//! What the nodes hold, told by the steps alone: each node's data is its rule over its own steps. So a run that a node's step
//! is put behind, done by its rule on that data, is a run of the machine once more. `schedules` has what a schedule asks of the
//! steps, told by what the nodes hold.
#![tactic(auto)]

pub mod endings;
pub mod failures;
pub mod fits;
pub mod progress;
pub mod reached;
pub mod replays;
pub mod rounds;
pub mod schedules;
pub mod stored;
pub mod waits;
