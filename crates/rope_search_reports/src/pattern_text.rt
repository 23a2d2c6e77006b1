//! The text of a pattern, readable by contracts only.
use std::marker::Model;
use std::snapshot::Snapshot;

/// The text of a pattern. It takes no bytes at run time, and only contracts can read it.
#[derive(Drop)]
pub struct PatternText {
    text: Snapshot<Text>,
}

// A text, character by character. No value of it exists at run time.
#[derive(Drop)]
enum Text {
    Start,
    Longer(Snapshot<Text>, char),
}

impl Model for PatternText {
    ghost use Rattle.std.specs.Prelude.{ℕ, List};
    ghost use Rattle.rope_search_reports.specs.Finders.{characters_of};

    ghost Value = { List ℕ };

    ghost view = { λ pattern. characters_of pattern.text.value };
}

impl PatternText {
    ghost use Rattle.std.specs.Prelude.{◌≡◌, chars};

    /// Returns the text of a pattern.
    pub fn new(pattern: &str) -> PatternText
        ensures { result ≡ chars pattern.now }
    {
        let mut text = Snapshot::of(&Text::Start);
        for c in pattern.chars() {
            text = Snapshot::of(&Text::Longer(text, c));
        }
        PatternText { text }
    }
}

const _: () = prove!(size_of::<PatternText>() == 0);
