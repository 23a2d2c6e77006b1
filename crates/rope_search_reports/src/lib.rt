//! The report of a text and a pattern: for each line, where the pattern matches in it; and the
//! count of the lines that were searched.
#![tactic(auto)]

mod changes;
mod columns;
pub mod escaping;
pub mod explaining;
pub mod laws;
mod line;
mod line_start;
mod line_teller;
mod line_texts;
mod patches;
mod pattern_text;
mod positions;
mod replacing;
mod reports;
mod rows;
mod walk;

pub use changes::{Changes, patches_of};
pub use line_texts::line_text;
pub use patches::{Patch, growth, put_in_place, put_patches, shift_once};
pub use positions::{Place, Position, byte_of, place_of, places_of, position_of};
pub use replacing::replace_rows;
pub use reports::{report_of, rows_of_lines};
pub use rope_search_changes::{Change, Groups};
pub use rows::{
    CallerInC, Finder, Lines, PATTERN_LEN, Row, add_groups_of_line, find_all, find_from,
    find_groups, find_spans, groups_at, search_line,
};
