//! The tokens of the script language, and how a line's bytes are cut into them.
#![tactic(auto)]

pub mod byte;
pub mod cut;
pub mod name;
mod shape;
pub mod symbol;
pub mod token;
pub mod word;

pub use cut::cut_line;
pub use name::Name;
pub use symbol::{Symbol, lone_symbol};
pub use token::Token;
pub use word::{WORDS, Word, keyword_in_any_case};
