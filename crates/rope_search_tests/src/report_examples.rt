//! An example for each public type of `rope_search_reports`.
use rope_search::{
    Finder, Groups, Lines, Position, Rope, byte_of, find_all, position_of, search_line,
};
use std::test::Fail;

/// `Finder`, `Row` and `search_line`: a finder is made once for a pattern and searches many lines,
/// each as a slice. A row has the columns of the matches, in UTF-16 code units: the frog has two.
#[test]
fn one_finder_for_many_lines(rt: HostRuntime) -> Result<(), Fail> {
    let text = Rope::from_str(rt.alloc(), "ab🐸aab")?;
    let mut tick = Lines::new(&rt);
    let mut finder = Finder::new(rt.alloc(), "a+b")?;
    let row = search_line(&mut tick, &mut finder, text.slice(..))?;
    assert!(rt; row.matches() == [(0, 2), (4, 7)].as_slice());
    assert!(rt; tick.count() == 1);
    // Each search of a line is counted, whatever it finds.
    if let Some(front) = text.get_slice(..1) {
        let row = search_line(&mut tick, &mut finder, front)?;
        assert!(rt; row.matches().is_empty());
    }
    assert!(rt; (tick.count(), tick.wholes()) == (2, 0));
    Ok(())
}

// Returns whether these are three matches, the first of which has these groups.
fn are_three(found: &[Groups]) -> bool {
    let [first, _, _] = found else {
        return false;
    };
    first[0] == Some((0, 3))
        && first[1] == Some((0, 1))
        && first[2] == Some((2, 2))
        && first[3] == Some((2, 3))
        && first[4].is_none()
}

/// `find_all` and `Groups`: all matches in a whole text, across the ends of its lines, each with
/// the spans of its groups. A group that the pattern doesn't have has none.
#[test]
fn matches_in_a_whole_text(rt: HostRuntime) -> Result<(), Fail> {
    let text = Rope::from_str(rt.alloc(), "a=1\nb c=\nd")?;
    let mut tick = Lines::new(&rt);
    let mut finder = Finder::new(rt.alloc(), r"(\w)(?:=(\s*)(\w))?")?;
    let found = find_all(&mut tick, &mut finder, &text)?;
    assert!(rt; are_three(&found) && (tick.count(), tick.wholes()) == (0, 1));
    Ok(())
}

// It has no contract, so the tests are proved without the contracts of positions, and show their
// effect.
fn are_of_each_other(text: &Rope, line: usize, column: usize, byte_idx: usize) -> bool {
    let position = Position { line, column };
    match byte_of(text, position) {
        None => false,
        Some(place) => place == byte_idx && position_of(text, place) == position,
    }
}

/// `Position`: one in the text of a line, or at that text's end, has one offset, whose position it
/// is. The frog has four bytes and two code units, and its line ends before CR LF.
#[test]
fn positions_and_their_places(rt: HostRuntime) -> Result<(), Fail> {
    let text = Rope::from_str(rt.alloc(), "a🐸b\r\nc\r")?;
    for (line, column, place) in [
        (0, 0, 0),
        (0, 1, 1),
        (0, 3, 5),
        (0, 4, 6),
        (1, 0, 8),
        (1, 1, 9),
        (2, 0, 10),
    ] {
        assert!(rt; are_of_each_other(&text, line, column, place), "at {place}");
    }
    Ok(())
}
