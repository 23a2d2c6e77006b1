//! The matches of a pattern kept live over a text that is edited, undone and forked: commands in,
//! replies out.
#![tactic(auto)]

mod buffer;
mod byte_edits;
mod command_lines;
mod commands;
mod edits;
mod encodings;
mod endings;
mod escapes;
mod headers;
mod history;
mod joins;
mod kept_rows;
pub mod laws;
mod limits;
mod line_columns;
mod listed;
mod listed_matches;
mod listings;
mod match_edits;
mod parts;
mod pattern_errors;
mod payloads;
mod replies;
mod requests;
mod runs;
mod search;
mod session;
mod stretches;
mod text_changes;
mod text_matches;
mod texts;

pub use buffer::Buffer;
pub use commands::{Command, CommandOf, Payload, Reply};
pub use edits::Edit;
pub use encodings::Encoding;
pub use endings::Ended;
pub use escapes::escape;
pub use limits::Limits;
pub use line_columns::column_for;
pub use listed::{ListIndex, ListedMatch};
pub use pattern_errors::pattern_error;
pub use rope_search_io::{Broken, Device, Failed, Fault, MemorySink, MemorySource, Sink, Source};
pub use rope_search_reports::explaining::{Mistake, Reason, Refusal};
pub use rope_search_reports::{
    CallerInC, Finder, Groups, Lines, Position, Row, byte_of, find_all, find_from, groups_at,
    line_text, position_of, search_line,
};
pub use rope_search_texts::ArrivingText;
pub use ropey::Rope;
pub use runs::{run, run_limited};
pub use session::Session;
pub use stretches::Stretch;
pub use text_changes::TextChange;
pub use text_matches::TextMatch;
