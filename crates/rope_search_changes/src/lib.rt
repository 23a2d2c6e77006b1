//! The groups of a match, and the changes that a replacement makes.
#![tactic(auto)]

/// A change of a text, in byte offsets: the end of the part removed from the old text, and the
/// start and the end of the part inserted into the new text.
#[derive(Clone, Copy, Debug)]
pub struct Change {
    /// The end of the removed part, in the old text.
    pub old_end: usize,
    /// The start of the inserted part, in the new text.
    pub new_start: usize,
    /// The end of the inserted part, in the new text.
    pub new_end: usize,
}

/// The spans of the groups 0 to 9 of a match, each as two byte offsets. Group 0 is the whole match.
/// A group that the pattern doesn't have, or that doesn't take part in the match, is `None`.
pub type Groups = [Option<(usize, usize)>; 10];
