//! Proved tests of `regex_cursor`: an example for each public type, a custom cursor, and custom
//! finders for a searcher.
#![tactic(auto)]

#[cfg(test)]
mod calls;
#[cfg(test)]
mod engines;
#[cfg(test)]
mod lists;
#[cfg(test)]
mod literals;
#[cfg(test)]
mod own_cursor;
#[cfg(test)]
mod patterns;
#[cfg(test)]
mod regex;
#[cfg(test)]
mod ropey_cursor;
#[cfg(test)]
mod searchers;
