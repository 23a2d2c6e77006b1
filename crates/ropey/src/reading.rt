//! Reading a rope from a reader.

ghost use Rattle.std.specs.Prelude.{IfOk, IfErr};
ghost use Rattle.ropey.specs.Chunks.{AreFull};
ghost use Rattle.ropey.specs.Comparing.{text_bytes};
ghost use Rattle.ropey.specs.Reading.{GivesToEnd, GivesUntil};

use crate::read_fault::ReadFault;
use crate::read_window::ReadWindow;
use crate::rope::Rope;
use crate::rope_builder::RopeBuilder;
use std::alloc::Global;
use std::io::Read;

/// The number of reads after which reading is given up.
const MOST_READS: u64 = 1 << 62;

impl Rope {
    /// Returns a rope of all bytes of a reader, up to its end. `O(n)`.
    ///
    /// Reads into a buffer of 4,096 bytes. A read may end inside a character.
    ///
    /// # Errors
    ///
    /// The first of these that is met. The bytes read so far are lost.
    ///
    /// - `Read` if a read fails, also with `Interrupted`
    /// - `Utf8` if the bytes so far begin no valid UTF-8, or the end comes inside a character
    /// - `Size` for more than `isize::MAX` bytes
    /// - `Memory`
    /// - `Turns` if `2^62` reads don't reach the end
    pub fn from_reader<R: Read>(alloc: Global, reader: &mut R) -> Result<Self, ReadFault>
        ensures text { IfOk result (λ rope. GivesToEnd (R.remaining reader.old)
            (R.remaining reader.new) (text_bytes rope)) }
        ensures full { IfOk result (λ rope. AreFull rope) }
        ensures fault { IfErr result (λ fault. GivesUntil fault (R.remaining reader.old)
            (R.remaining reader.new)) }
    {
        let mut builder = RopeBuilder::new(alloc);
        let mut window = ReadWindow::new();
        for _ in 0..MOST_READS {
            if !window.read(reader)? {
                if !window.is_empty() {
                    return Err(ReadFault::Utf8);
                }
                return match builder.finish() {
                    Ok(rope) => Ok(rope),
                    Err(_) => Err(ReadFault::Memory),
                };
            }
            window.give_text(&mut builder)?;
        }
        Err(ReadFault::Turns)
    }
}
