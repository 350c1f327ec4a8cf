//! Tests of what no script reaches: definitions beside values from outside, by the public calls of crates that the program's
//! runs don't call.
#![tactic(auto)]

#[cfg(test)]
mod items;
#[cfg(test)]
mod journals;
#[cfg(test)]
mod verdicts;
