//! The items of a class in brackets.

/// A letter class: `\d`, `\s` or `\w`. A capital letter negates it.
#[derive(Debug, Clone, Copy, PartialEq, Eq, Hash)]
pub enum ClassPerlKind {
    /// `\d`: the decimal digits, General_Category Nd.
    Digit,
    /// `\s`: the property White_Space.
    Space,
    /// `\w`: the properties Alphabetic and Join_Control, and the General_Categories Mark, Nd and
    /// Pc.
    Word,
}

/// An item of a class.
#[derive(Debug, Clone, Copy, PartialEq, Eq)]
pub enum ClassItem {
    /// The characters from one to another, inclusive.
    Span(char, char),
    /// A letter class, negated if the flag is true.
    Perl(ClassPerlKind, bool),
}
