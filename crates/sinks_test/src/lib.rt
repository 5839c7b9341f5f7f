//! What a user sees of the sinks, on examples.
#![tactic(auto)]

#[cfg(test)]
mod layer_tests;
#[cfg(test)]
mod totals_tests;
#[cfg(test)]
mod trace_tests;
#[cfg(test)]
mod words;
