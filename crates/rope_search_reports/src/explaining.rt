//! Why a text is refused as a pattern, reexported from `regex_cursor`.

pub use regex_cursor::util::syntax::Config;
pub use regex_cursor::{Mistake, Reason, Refusal, explain};
