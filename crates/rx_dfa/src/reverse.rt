//! The reverse program of an engine, for backward searches.

ghost use Rattle.std.specs.Prelude.{IfOk};
ghost use Rattle.rx_steps.specs.Reversed.{IsReverseOf};

use rx_engine::Compiled;
use rx_program::ReverseProgram;
use rx_program::laws::{programs_are_above_patterns, programs_keep_patterns};
use std::alloc::AllocError;

/// Returns the reverse of an engine's program.
pub(crate) fn reverse_of(compiled: &Compiled) -> Result<ReverseProgram, AllocError>
    ensures { IfOk result (IsReverseOf compiled.now.program) }
{
    // Laws, for the proof only.
    programs_are_above_patterns();
    programs_keep_patterns();
    let reverse = compiled.program().reversed()?;
    Ok(reverse)
}
