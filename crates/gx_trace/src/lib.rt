//! What the printed text and trace of a whole run show and may show, and the words of their lines, read back: rows' identities, names, locks,
//! lists of transactions and edges, and images, each exactly where it stands as it is printed; and numbers, as the definitions have it.
#![tactic(auto)]

mod cursor;
mod fields;
mod lists;
mod naming;
mod numbers;
mod objects;
mod seen;
mod tables;
mod values;
mod worked;

pub use cursor::Cursor;
pub use fields::rids_are_read;
pub use lists::{edges_are_read, gxids_are_read};
pub use naming::{sessions_are_read, tables_are_read};
pub use objects::{modes_are_read, objects_are_read};
pub use seen::{Seen, SeenAnswer, SeenMark, SeenStep};
pub use tables::tables_are_shown_by_their_rows;
pub use values::images_are_read;
pub use worked::{a_small_run_is_shown, a_small_run_may_be_shown, many_marks_are_shown};
