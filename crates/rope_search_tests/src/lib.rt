//! Proved tests of `rope_search` and the crates below it: an example of each public type, and a
//! custom source and sink.
#![tactic(auto)]

#[cfg(test)]
mod embedded;
#[cfg(test)]
mod examples;
#[cfg(test)]
mod io_examples;
#[cfg(test)]
mod own_streams;
#[cfg(test)]
mod report_examples;
