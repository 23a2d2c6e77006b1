//! The program of a crate that uses `rope_search`, as its README shows it.
use rope_search::{Buffer, Fault, Limits, Lines, Position};
use std::io;
use std::process::ExitCode;

fn main(rt: HostRuntime) -> ExitCode {
    let mut tick = Lines::new(&rt);
    let Ok(buffer) = edited(&rt, &mut tick) else {
        return ExitCode::FAILURE;
    };
    match show(&rt, &buffer) {
        Ok(()) => ExitCode::SUCCESS,
        Err(_) => ExitCode::FAILURE,
    }
}

/// Returns a buffer with a text, a pattern and an edit, which the report follows.
fn edited(rt: &HostRuntime, tick: &mut Lines) -> Result<Buffer, Fault> {
    let mut buffer = Buffer::new(rt.alloc(), Limits::default())?;
    buffer.set_text(tick, "a frog\na toad")?;
    buffer.set_pattern(tick, "frog|toad")?;
    let place = Position { line: 0, column: 2 };
    buffer.edit(tick, place, place, "toad and a ")?;
    Ok(buffer)
}

/// Writes a line for each match: its line and its columns.
fn show(rt: &HostRuntime, buffer: &Buffer) -> io::Result<()> {
    for (line, row) in buffer.report().unwrap_or(&[]).iter().enumerate() {
        for (start, end) in row.matches() {
            println!(rt; "line {line}: {start} to {end}")?;
        }
    }
    Ok(())
}

/// It writes three matches, one of them in the inserted text.
#[test]
fn a_program_of_ones_own(rt: HostRuntime) -> Result<(), std::test::Fail> {
    let mut tick = Lines::new(&rt);
    let buffer = edited(&rt, &mut tick)?;
    let expected: [&[(usize, usize)]; 2] = [&[(2, 6), (13, 17)], &[(2, 6)]];
    for (row, matches) in buffer.report().unwrap_or(&[]).iter().zip(expected) {
        assert!(rt; row.matches() == matches);
    }
    let _ended = main(rt);
    Ok(())
}
