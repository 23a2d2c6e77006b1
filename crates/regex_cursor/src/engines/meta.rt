//! The regex that users take: it chooses among the engines.

mod ahead;
mod all;
mod back;
mod builder;
mod cache;
mod captures_matches;
mod config;
mod dense;
mod exact;
mod find_matches;
mod finder;
mod left;
mod leftmost;
mod linear;
mod literals;
mod regex;
mod shared;
mod split;
mod split_n;
mod splitter;
mod starts;
mod strategy;

pub use builder::Builder;
pub use cache::Cache;
pub use captures_matches::CapturesMatches;
pub use config::Config;
pub use find_matches::FindMatches;
pub use linear::LinearMatches;
pub use regex::Regex;
pub use rx_program::BuildError;
pub use split::Split;
pub use split_n::SplitN;
