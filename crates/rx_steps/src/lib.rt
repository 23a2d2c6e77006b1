//! Searches in haystacks in chunks that follow all threads of a program at once.
#![tactic(auto)]

mod all_walks;
mod asked;
mod followed;
mod idle;
pub mod laws;
mod node;
mod pending;
mod place;
mod reverse_search;
mod reverse_stepper;
mod search;
mod sides;
mod started;
mod stepper;
mod thread_list;
mod visited;

pub use asked::AskedLooks;
pub use idle::last_place;
pub use node::Node;
pub use place::{Looks, Place};
pub use reverse_search::{ReverseCache, enter_end, search_rev, start_back, told_back};
pub use search::{
    Cache, advance, begins, clear_slots, enter, search_all, search_slots, start_state,
};
pub use started::{MetEnd, StartedNode};
pub use stepper::Stepper;
pub use thread_list::ThreadList;
pub use visited::Visited;
