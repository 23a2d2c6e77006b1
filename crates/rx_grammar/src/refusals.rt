//! Where and why a pattern is refused.

use thiserror::Error;

/// What is outside the grammar, or missing.
#[derive(Debug, Clone, Copy, PartialEq, Eq, Error)]
pub enum Mistake {
    /// The text ends in a group.
    #[error("a group isn't closed")]
    OpenGroup,
    /// A `)` closes no group.
    #[error("a parenthesis closes no group")]
    NoOpenGroup,
    /// A `*`, `+`, `?` or `{` follows neither an atom nor a repetition.
    #[error("there is nothing to repeat")]
    NothingToRepeat,
    /// What follows a `{` isn't `n}`, `n,}` or `n,m}`.
    #[error("a count isn't finished, or isn't one")]
    Count,
    /// A number in braces exceeds 65,535.
    #[error("a count is above 65,535")]
    LargeCount,
    /// The greatest number in braces is below the least one.
    #[error("the greatest number of a count is below the least one")]
    CountOrder,
    /// What follows a `\` isn't in the grammar.
    #[error("an escape isn't finished, or isn't one")]
    Escape,
    /// The hexadecimal digits of an escape are no scalar value.
    #[error("the number of an escape is no character's")]
    Scalar,
    /// The text ends in a class.
    #[error("a class isn't closed")]
    OpenClass,
    /// The class has something that is no item.
    #[error("a class has no such item")]
    ClassItem,
    /// The last character of a range is below its first.
    #[error("a range of characters runs backwards")]
    RangeOrder,
    /// What follows a `(?` is neither the head of a group nor a setting.
    #[error("the head of a group isn't finished, or isn't one")]
    GroupHead,
    /// An earlier group has the same name.
    #[error("two groups have one name")]
    RepeatedName,
    /// There is a `.` without the flag `s`, and the line terminator is 128 or more.
    #[error("`.` stands beside a line terminator that isn't an ASCII byte")]
    Dot,
}

/// Why a pattern is refused: a `SyntaxError`, with detail for a text outside the grammar.
#[derive(Debug, Clone, Copy, PartialEq, Eq, Error)]
pub enum Reason {
    /// The pattern has more than 65,536 bytes. This is checked first.
    #[error("the pattern has more than 65,536 bytes")]
    TooLong,
    /// The pattern is only valid with a greater nest limit.
    #[error("the pattern is nested too deeply")]
    Nesting,
    /// The pattern isn't in the grammar, whatever the nest limit.
    #[error("{0}")]
    Outside(Mistake),
}

/// Where and why a pattern is refused.
#[derive(Debug, Clone, Copy, PartialEq, Eq, Error)]
#[error("at the byte {place}: {reason}")]
pub struct Refusal {
    /// The byte offset of the first character that can't be there, or the length of a text that
    /// ends too early.
    pub place: usize,
    /// The reason.
    pub reason: Reason,
}
