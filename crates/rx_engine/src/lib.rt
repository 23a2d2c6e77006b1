//! What engines hold of patterns: the program, the groups, and the settings.
#![tactic(auto)]

mod builder;
mod compiled;
mod config;
mod groups;

pub use builder::{Builder, borrowed, spelled};
pub use compiled::Compiled;
pub use config::Config;
