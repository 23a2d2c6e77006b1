//! An example for each public type of `rope_search`. Its README shows the first two.
use rope_search::{
    ArrivingText, Buffer, Command, Edit, Ended, Fault, Groups, Limits, Lines, MemorySink,
    MemorySource, Mistake, Payload, Position, Reason, Refusal, Reply, Session, pattern_error, run,
};
use std::test::Fail;

// It has no contract, so the tests are proved without the contract of a command, and show its
// effect.
fn session_of(
    rt: &HostRuntime,
    tick: &mut Lines,
    text: &[u8],
    pattern: &[u8],
) -> Result<Session, Fault> {
    let mut session = Session::new(rt.alloc(), Limits::default())?;
    session.apply(tick, Command::Text(Payload::Kept(text)))?;
    session.apply(tick, Command::Pattern(Payload::Kept(pattern)))?;
    Ok(session)
}

/// `Session`, `Command` and `Payload`: a text and a pattern, and where the matches are.
#[test]
fn a_pattern_in_a_text(rt: HostRuntime) -> Result<(), Fail> {
    let mut tick = Lines::new(&rt);
    let session = session_of(&rt, &mut tick, b"a frog\na toad\n", b"o")?;
    let report = session.buffer().report().unwrap_or(&[]);
    // A row for each line, the last of them empty. Columns are UTF-16 code units.
    let expected: [&[(usize, usize)]; 3] = [&[(4, 5)], &[(3, 4)], &[]];
    assert!(rt; report.len() == expected.len());
    for (row, matches) in report.iter().zip(expected) {
        assert!(rt; row.matches() == matches);
    }
    Ok(())
}

// The same for a text that arrived.
fn set_arrived(
    session: &mut Session,
    tick: &mut Lines,
    text: ArrivingText,
) -> Result<Reply, Fault> {
    session.set_arrived(tick, text)
}

/// `ArrivingText` and `Session::set_arrived`: a text that is read in parts, and held once.
#[test]
fn a_text_that_arrives(rt: HostRuntime) -> Result<(), Fail> {
    let mut tick = Lines::new(&rt);
    let mut session = session_of(&rt, &mut tick, b"a frog", b"o")?;
    let mut text = ArrivingText::new(rt.alloc(), 6, 100);
    text.append(b"a to");
    text.append(b"ad");
    assert!(rt; set_arrived(&mut session, &mut tick, text)? == Reply::Done);
    assert!(rt; session.buffer().text().eq_str("a toad"));
    Ok(())
}

/// `run`, `MemorySource` and `MemorySink`: the bytes of commands in, the bytes of replies out.
#[test]
fn a_run_over_memory(rt: HostRuntime) -> Result<(), Fail> {
    let mut tick = Lines::new(&rt);
    let input = b"text 6\na frogpattern 1\nolist\n";
    let mut source = MemorySource::new(input, 4096, None);
    let mut sink = MemorySink::new(rt.alloc(), 4096, 4096, None)?;
    let ended = run(&mut tick, rt.alloc(), &mut source, &mut sink);
    assert!(rt; ended == Ok(Ended::Input));
    assert!(rt; sink.written() == b"ok\nok\nm 0 4 5\nok 1\n".as_slice());
    Ok(())
}

// The same for this.
fn apply(session: &mut Session, tick: &mut Lines, command: Command<'_>) -> Result<Reply, Fault> {
    session.apply(tick, command)
}

// The same for a buffer with a text and a pattern.
fn buffer_of(
    rt: &HostRuntime,
    tick: &mut Lines,
    text: &str,
    pattern: &str,
) -> Result<Buffer, Fault> {
    let mut buffer = Buffer::new(rt.alloc(), Limits::default())?;
    buffer.set_text(tick, text)?;
    buffer.set_pattern(tick, pattern)?;
    Ok(buffer)
}

// The same for this.
fn groups_at(
    session: &mut Session,
    tick: &mut Lines,
    line: usize,
    number: usize,
) -> Result<Groups, Fault> {
    session.groups_at(tick, line, number)
}

// Returns whether these are the columns of a match and of its two groups, and there is no other
// group.
fn are_these(groups: &Groups, places: [Option<(usize, usize)>; 3]) -> bool {
    groups[0] == places[0]
        && groups[1] == places[1]
        && groups[2] == places[2]
        && groups[9].is_none()
}

/// `Session::groups_at`: the groups of a match of the report, as columns; the frog has two code
/// units. Its line is searched once more.
#[test]
fn groups_of_a_match(rt: HostRuntime) -> Result<(), Fail> {
    let mut tick = Lines::new(&rt);
    let text = "🐸 x=1 y=\nz".as_bytes();
    let mut session = session_of(&rt, &mut tick, text, br"(\w)=(\d)?")?;
    let groups = groups_at(&mut session, &mut tick, 0, 0)?;
    assert!(rt; are_these(&groups, [Some((3, 6)), Some((3, 4)), Some((5, 6))]));
    let groups = groups_at(&mut session, &mut tick, 0, 1)?;
    assert!(rt; are_these(&groups, [Some((7, 9)), Some((7, 8)), None]));
    for (line, number) in [(0, 2), (2, 0)] {
        let refused = groups_at(&mut session, &mut tick, line, number).err();
        assert!(rt; refused == Some(Fault::Range) && tick.count() == 2 + 3);
    }
    Ok(())
}

/// `pattern_error` and `Refusal`, `Reason`, `Mistake`: where and why a text is no pattern; `None`
/// for a pattern, also for one that is too heavy, and for one that is too long.
#[test]
fn why_a_pattern_is_refused(rt: HostRuntime) -> Result<(), Fail> {
    let open = Refusal {
        place: 2,
        reason: Reason::Outside(Mistake::OpenGroup),
    };
    assert!(rt; pattern_error(rt.alloc(), b"(a") == Ok(Some(open)));
    assert!(rt; pattern_error(rt.alloc(), b"(a)") == Ok(None));
    assert!(rt; pattern_error(rt.alloc(), b"a{65535}{65535}") == Ok(None));
    assert!(rt; pattern_error(rt.alloc(), b"(\xff") == Err(Fault::Utf8));
    Ok(())
}

/// `Reply`: the replies to accepted commands. A fork is a buffer of its own.
#[test]
fn replies(rt: HostRuntime) -> Result<(), Fail> {
    let mut tick = Lines::new(&rt);
    let mut session = session_of(&rt, &mut tick, b"a frog", b"frog")?;
    let start = Position { line: 0, column: 2 };
    let end = Position { line: 0, column: 6 };
    for (command, reply) in [
        (Command::Print, Reply::Print),
        (Command::List, Reply::List),
        (Command::Next(start), Reply::Found(start, end)),
        (Command::Next(end), Reply::NoMatch),
        (Command::Fork, Reply::Number(1)),
        (Command::Off, Reply::Done),
    ] {
        assert!(rt; apply(&mut session, &mut tick, command) == Ok(reply));
    }
    assert!(rt; apply(&mut session, &mut tick, Command::List) == Err(Fault::Nothing));
    assert!(rt; session.fork() == Ok(2) && session.choose(2) == Ok(()));
    assert!(rt; session.choose(3) == Err(Fault::Nothing));
    Ok(())
}

/// `Payload`: one that was kept, one that is too long to keep, and one for which there was no
/// memory. `Limits`: one on the bytes of a text, which doesn't apply to patterns. A refusal leaves
/// the text unchanged.
#[test]
fn payloads(rt: HostRuntime) -> Result<(), Fail> {
    let mut tick = Lines::new(&rt);
    let mut session = Session::new(rt.alloc(), Limits { text: 4 })?;
    for (command, told) in [
        (Command::Text(Payload::Kept(b"frog")), Ok(Reply::Done)),
        (Command::Text(Payload::Kept(b"frog\xff")), Err(Fault::Utf8)),
        (Command::Text(Payload::Kept(b"frogs")), Err(Fault::Size)),
        (
            Command::Text(Payload::Long { utf8: true }),
            Err(Fault::Size),
        ),
        (
            Command::Text(Payload::Long { utf8: false }),
            Err(Fault::Utf8),
        ),
        (Command::Text(Payload::Lost), Err(Fault::Memory)),
        (Command::Pattern(Payload::Kept(b"frogs")), Ok(Reply::Done)),
        (
            Command::Pattern(Payload::Long { utf8: true }),
            Err(Fault::Limit),
        ),
        (
            Command::Pattern(Payload::Long { utf8: false }),
            Err(Fault::Utf8),
        ),
        (Command::Pattern(Payload::Lost), Err(Fault::Memory)),
        (Command::List, Ok(Reply::List)),
    ] {
        assert!(rt; apply(&mut session, &mut tick, command) == told);
    }
    assert!(rt; session.buffer().text().eq_str("frog"));
    Ok(())
}

/// `Buffer`, `Position` and `Lines`: an edit between two positions, and its undo. Only the edited
/// line is searched again, as the count of rows shows.
#[test]
fn an_edit_of_a_line(rt: HostRuntime) -> Result<(), Fail> {
    let mut tick = Lines::new(&rt);
    let mut buffer = buffer_of(&rt, &mut tick, "a frog\na toad", "toad")?;
    assert!(rt; tick.count() == 2);
    let start = Position { line: 0, column: 2 };
    let end = Position { line: 0, column: 6 };
    buffer.edit(&mut tick, start, end, "toad")?;
    assert!(rt; tick.count() == 3);
    for row in buffer.report().unwrap_or(&[]) {
        assert!(rt; row.matches() == [(2, 6)].as_slice());
    }
    buffer.undo(&mut tick)?;
    assert!(rt; buffer.text().eq_str("a frog\na toad"));
    Ok(())
}

// The same for this.
fn edit_all(session: &mut Session, tick: &mut Lines, edits: &[Edit<'_>]) -> Result<(), Fault> {
    session.edit_all(tick, edits)
}

/// `Edit`: several edits as one. Their positions are those of the text before any of them, and two
/// may touch. Each searches as many lines as it inserts, and one undo reverts all.
#[test]
fn several_edits_as_one(rt: HostRuntime) -> Result<(), Fail> {
    let mut tick = Lines::new(&rt);
    let mut session = session_of(&rt, &mut tick, b"a frog\na toad", b"toad")?;
    let (start, end) = (
        Position { line: 0, column: 2 },
        Position { line: 0, column: 6 },
    );
    let (next, last) = (
        Position { line: 1, column: 0 },
        Position { line: 1, column: 1 },
    );
    let toad = Edit {
        from: start,
        to: end,
        text: b"toad",
    };
    let line = Edit {
        from: end,
        to: end,
        text: b"\n",
    };
    let the = Edit {
        from: next,
        to: last,
        text: b"the",
    };
    assert!(rt; edit_all(&mut session, &mut tick, &[the, toad]) == Err(Fault::Range));
    assert!(rt; edit_all(&mut session, &mut tick, &[toad, toad]) == Err(Fault::Range));
    assert!(rt; tick.count() == 2);
    assert!(rt; edit_all(&mut session, &mut tick, &[toad, line, the]) == Ok(()));
    assert!(rt; session.buffer().text().eq_str("a toad\n\nthe toad"));
    assert!(rt; tick.count() <= 6);
    assert!(rt; apply(&mut session, &mut tick, Command::Undo) == Ok(Reply::Done));
    assert!(rt; session.buffer().text().eq_str("a frog\na toad"));
    Ok(())
}
