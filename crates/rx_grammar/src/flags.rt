//! The flags of settings and groups.

/// A flag of a setting or a group, as in `(?i)`.
#[derive(Debug, Clone, Copy, PartialEq, Eq)]
pub(crate) enum Flag {
    /// `i`: letters match in any case.
    CaseInsensitive,
    /// `m`: `^` and `$` also match at the ends of lines.
    MultiLine,
    /// `s`: `.` also matches the line terminator.
    DotMatchesNewLine,
    /// `U`: repetitions are lazy, and greedy with `?`.
    SwapGreed,
}
