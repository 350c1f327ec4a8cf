//! Reads a run's printed text and trace back, a line at a time: exactly the bytes that show something are read as what they show, and else
//! the first line is named with which no text goes on.
#![tactic(auto)]

mod answers;
mod fault;
mod laws;
mod lines;
mod reading;
mod steps;
mod table_rows;
mod whole_lines;

pub use fault::TraceFault;
pub use laws::{
    lines_are_read_as_one, lines_are_taken_that_begin_a_text, lines_are_the_text,
    printed_lines_are_read, printed_lines_have_no_feeds, scripts_of_the_language_have_plain_names,
    texts_are_read_as_seen, texts_show_one_thing, the_first_bad_line_is_named,
    what_is_read_is_printed,
};
pub use lines::first_line;
pub use reading::read_trace;
