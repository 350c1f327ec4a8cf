//! The lines of a run's printed text and trace, read back: each exactly where it stands as it is printed.
#![tactic(auto)]

mod cells;
mod choices;
mod detector;
mod events;
mod heads;
mod locking;
mod marks;
mod messages;
mod refusals;
mod rows;
mod snapshots;
mod tables;
mod transactions;

pub use cells::{out_row, out_rows_are_read};
pub use events::{Moment, event_line, moments_are_read};
pub use heads::{AnswerHead, answer_head, heads_are_read};
pub use marks::{MarkLine, mark_line, mark_lines_are_read};
pub use messages::{message, messages_are_read};
pub use tables::{table_head, table_heads_are_read, table_row, table_rows_are_read};
