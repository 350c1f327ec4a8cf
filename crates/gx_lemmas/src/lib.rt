//! Lemmas that belong to no crate in particular: on tests, numbers, options and lists, beside those of the standard library.
#![tactic(auto)]
