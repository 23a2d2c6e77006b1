//! Reads a command's payload.
ghost use Rattle.std.specs.Prelude.{◌≡◌, ◌<◌, ◌≤◌, ◌++◌, [], List, ℕ, OnOk, length, take};
ghost use Rattle.rope_search.specs.Stands.{StandsFor};
ghost use Rattle.rope_search.specs.Requests.{Collects, GathersMore, KeptSoFar, TakesGathered, TakesPayload};
ghost use Rattle.rope_search_texts.specs.Arriving.{Arrives};

use crate::commands::Payload;
use rope_search_io::{Broken, ReadBuffer, Source, Utf8Judge};
use rope_search_texts::ArrivingText;
use std::alloc::{AllocError, Global};

/// What gathers the bytes of a payload while it is read.
pub trait Gather {
    // What is kept of the bytes before, given a limit on the payload's bytes and their number.
    ghost keeps: { KeptSoFar Self };

    /// Adds the payload's next bytes; `left` is the number of bytes still to come, with these.
    fn gather(&mut self, bytes: &[u8], left: u64)
        ensures { GathersMore keeps self.old self.new bytes.now };
}

/// What is kept of a payload while it is read. It takes memory for at most twice the bytes that
/// were read, and never for more than the line's number of bytes.
#[derive(Drop)]
pub enum Collected {
    /// All bytes so far.
    Kept(Vec<u8>),
    /// Whether they are UTF-8; the payload has more bytes than its limit.
    Judged(Utf8Judge),
    /// Nothing, because there was no memory.
    Lost,
}

impl Collected {
    /// Returns the state before the first of `len` bytes, which are kept if they are at most
    /// `most`.
    pub fn new(alloc: Global, len: u64, most: usize) -> Collected
        ensures collects { Collects most len result [] }
        ensures kept_or_judged { result ≡ Collected.Lost → ⊥ }
    {
        if len <= most as u64 {
            Collected::Kept(Vec::new(alloc))
        } else {
            Collected::Judged(Utf8Judge::new())
        }
    }

    /// Returns the payload, after all of it was read.
    pub fn payload(&self) -> Payload<'_>
        ensures stands { (limit : ℕ) (bytes : List ℕ) → Collects limit (length bytes) self.now bytes
            → StandsFor limit result bytes }
        ensures lost { result ≡ Payload.Lost → self.now ≡ Collected.Lost }
    {
        match self {
            Collected::Kept(bytes) => Payload::Kept(bytes.as_slice()),
            Collected::Judged(judge) => Payload::Long {
                utf8: judge.is_utf8(),
            },
            Collected::Lost => Payload::Lost,
        }
    }
}

impl Gather for Collected {
    ghost keeps = { Collects };

    fn gather(&mut self, bytes: &[u8], left: u64) {
        match self {
            Collected::Kept(kept) => {
                if add_to(kept, bytes, left).is_err() {
                    *self = Collected::Lost;
                }
            }
            Collected::Judged(judge) => judge.feed(bytes),
            Collected::Lost => {}
        }
    }
}

impl Gather for ArrivingText {
    ghost keeps = { Arrives };

    fn gather(&mut self, bytes: &[u8], _left: u64) {
        self.append(bytes);
    }
}

/// Appends a payload's next bytes to those kept; `left` is the number of bytes still to come.
fn add_to(kept: &mut Vec<u8>, bytes: &[u8], left: u64) -> Result<(), AllocError>
    ensures more { OnOk result (kept.new.items ≡ kept.old.items ++ bytes.now) }
{
    let spare = kept.capacity().saturating_sub(kept.len());
    if spare < bytes.len() {
        let more = kept.len().max(bytes.len());
        kept.reserve_exact(left.min(more as u64) as usize)?;
    }
    kept.extend_from_slice(bytes)
}

/// Returns the first bytes, at most this number.
fn front(bytes: &[u8], most: u64) -> &[u8]
    ensures front { result.now ≡ take (length result.now) bytes.now }
    ensures within { length result.now ≤ length bytes.now }
    ensures most { length result.now ≤ most }
    ensures some { 0 < most → 0 < length bytes.now → 0 < length result.now }
{
    if bytes.len() as u64 <= most {
        return bytes;
    }
    &bytes[..most as usize]
}

/// Reads a payload of `len` bytes. Returns `false` if the input ended before that.
fn read_payload<R: Source, G: Gather>(
    read_buffer: &mut ReadBuffer,
    source: &mut R,
    gathered: &mut G,
    len: u64,
) -> Result<bool, Broken>
    ensures { TakesPayload G.keeps result len gathered.old gathered.new
        read_buffer.old read_buffer.new (R.state source.old) (R.state source.new) }
{
    let mut left = len;
    while left > 0 {
        if !read_buffer.fill(source)? {
            return Ok(false);
        }
        let bytes = front(read_buffer.as_slice(), left);
        gathered.gather(bytes, left);
        let count = bytes.len();
        read_buffer.consume(count);
        left -= count as u64;
    }
    Ok(true)
}

/// Reads a payload of `len` bytes, which are kept if they are at most `most`. Returns `None` if the
/// input ended before that.
pub fn collect<R: Source>(
    read_buffer: &mut ReadBuffer,
    source: &mut R,
    alloc: Global,
    len: u64,
    most: usize,
) -> Result<Option<Collected>, Broken>
    ensures { TakesGathered Collects result most len read_buffer.old read_buffer.new
        (R.state source.old) (R.state source.new) }
{
    let mut collected = Collected::new(alloc, len, most);
    if read_payload(read_buffer, source, &mut collected, len)? {
        Ok(Some(collected))
    } else {
        Ok(None)
    }
}

/// Reads a text of `len` bytes, which is kept if they are at most `limit`. Returns `None` if the
/// input ended before that.
pub fn arrived<R: Source>(
    read_buffer: &mut ReadBuffer,
    source: &mut R,
    alloc: Global,
    len: u64,
    limit: usize,
) -> Result<Option<ArrivingText>, Broken>
    ensures { TakesGathered Arrives result limit len read_buffer.old read_buffer.new
        (R.state source.old) (R.state source.new) }
{
    let mut text = ArrivingText::new(alloc, len, limit);
    if read_payload(read_buffer, source, &mut text, len)? {
        Ok(Some(text))
    } else {
        Ok(None)
    }
}
