//! What a run is: its steps with their events and marks, and, in specs/, what its marks mean. `attempt` and `told`: what the work
//! of a call comes to, and how each end is told, by its status and its text; what an end means is said by the program.
#![tactic(auto)]

pub mod answer;
pub mod attempt;
pub mod event;
pub mod mark;
pub mod node;
pub mod opened;
pub mod refused_asking;
pub mod refused_causes;
pub mod refused_commits;
pub mod refused_histories;
pub mod refused_rounds;
pub mod refused_waits;
pub mod run;
pub mod steps;
pub mod told;

pub use answer::{Refused, StmtAnswer};
pub use attempt::Attempt;
pub use event::{Event, drawn};
pub use mark::Mark;
pub use node::NodeEvent;
pub use opened::Opened;
pub use run::{Run, Step};
pub use steps::{StepView, Steps};
pub use told::{Report, told_of};
