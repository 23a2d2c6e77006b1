//! Sessions for callers in C: `include/rope_search.h` of the repository declares these calls.
//!
//! A call takes a handle, which holds a session or is closed. No call ends the program: it returns
//! a status, which says whether and why it is refused. Calls require of what C passes only what
//! `include/rope_search.h` says of pointers and of copies of a handle.
#![tactic(auto)]

mod commands;
mod counting;
mod edits;
mod escapes;
mod groups;
mod handles;
mod line_calls;
mod lines;
mod listed;
mod listed_calls;
mod listed_edits;
mod look_ups;
mod match_edits;
mod matches;
mod pattern_errors;
mod pending;
mod pending_calls;
mod reading;
mod text_changes;
mod text_matches;
mod text_parts;
mod version;

pub use commands::{
    rope_search_choose, rope_search_close, rope_search_edit, rope_search_edit_all,
    rope_search_forget, rope_search_fork, rope_search_next, rope_search_off, rope_search_open,
    rope_search_redo, rope_search_replace, rope_search_set_pattern, rope_search_set_text,
    rope_search_undo,
};
pub use counting::CountingSession;
pub use edits::TextEdit;
pub use escapes::rope_search_escape;
pub use handles::Handle;
pub use line_calls::{
    rope_search_clamp, rope_search_copy_line, rope_search_copy_matches_in, rope_search_edit_bytes,
    rope_search_line_len,
};
pub use listed::Listed;
pub use listed_calls::{
    rope_search_list_index, rope_search_listed_before, rope_search_listed_from,
};
pub use listed_edits::rope_search_replace_listed;
pub use look_ups::{
    Counted, rope_search_buffers, rope_search_byte_of, rope_search_can_redo, rope_search_can_undo,
    rope_search_changed, rope_search_chosen, rope_search_column_in, rope_search_copy_matches,
    rope_search_copy_text, rope_search_count_matches, rope_search_counted, rope_search_groups_at,
    rope_search_position_in, rope_search_position_of, rope_search_rows, rope_search_text_len,
    rope_search_text_lines,
};
pub use match_edits::rope_search_replace_match;
pub use matches::{Group, Match, Span};
pub use pattern_errors::{PatternReason, rope_search_pattern_error};
pub use pending_calls::{
    rope_search_advance, rope_search_begin_pattern, rope_search_cancel, rope_search_copy_pending,
    rope_search_count_pending, rope_search_pending, rope_search_window,
};
pub use text_changes::{
    rope_search_join, rope_search_keep, rope_search_redo_steps, rope_search_text_changes,
    rope_search_undo_steps,
};
pub use text_matches::rope_search_next_all;
pub use text_parts::{
    rope_search_append_part, rope_search_begin_text, rope_search_cancel_text, rope_search_end_text,
};
pub use version::rope_search_version;
