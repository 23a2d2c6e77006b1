//! Texts whose bytes arrive in parts, for `rope_search`.
#![tactic(auto)]

mod arriving;
mod boxed_builder;
mod growing;

pub use arriving::ArrivingText;
pub use growing::GrowingText;
