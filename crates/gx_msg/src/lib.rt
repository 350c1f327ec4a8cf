//! What nodes send to each other, and what they write into their journals.
#![tactic(auto)]

pub mod bytes;
pub mod item;
pub mod message;
mod mid;
pub mod read;
pub mod reply;
mod step;
pub mod text;

pub use bytes::{item_bytes, push_image};
pub use item::{ItemFault, JournalItem, Kept};
pub use message::{Envelope, Message, Out};
pub use read::read_item;
pub use reply::{Cause, Reply};
pub use text::message_text;
