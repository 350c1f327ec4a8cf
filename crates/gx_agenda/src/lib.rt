//! What a driver keeps of a run: where each link stands, the next line of each session, the answers that are awaited, which of these may be asked for again, and the slots of groups.
#![tactic(auto)]

pub mod asked;
pub mod cursor;
pub mod cursors;
pub mod expected;
pub mod faults;
mod grouping;
mod letting;
mod lines;
pub mod link;
mod making;
mod marking;
mod opening;
pub mod own_slots;
mod places;
pub mod queue;
pub mod quiet;
mod repeating;
pub mod request;
mod resends;
pub mod slots;
pub mod span;
pub mod standing;
mod taking;
pub mod vec_map;
mod waits;

pub use asked::Asked;
pub use cursor::Cursor;
pub use cursors::Cursors;
pub use expected::Expected;
pub use faults::Faults;
pub use letting::{first_start, push_starts};
pub use link::LinkMessage;
pub use marking::note_step;
pub use own_slots::OwnSlots;
pub use queue::Queue;
pub use quiet::Quiet;
pub use request::Request;
pub use slots::{Slots, note_slots, slots_of};
pub use standing::{Move, Standing};
pub use vec_map::VecMap;
