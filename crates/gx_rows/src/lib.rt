//! What a segment keeps: the versions of its rows, the map between its own transaction numbers and the system's with what
//! became of each there, which versions a reader sees, and which one a row shows.
#![tactic(auto)]

pub mod below;
pub mod entry;
pub mod list;
pub mod map;
mod probe;
pub mod shows;
pub mod status;
pub mod truncation;
pub mod version;
pub mod versions;

pub use below::drop_below;
pub use entry::XidEntry;
pub use list::VersionList;
pub use map::XidMap;
pub use shows::{shown, visible};
pub use status::LocalStatus;
pub use truncation::{shown_across, visible_across};
pub use version::Version;
pub use versions::Versions;
