//! The slots that an edge notes.

ghost use Rattle.std.specs.Prelude.{◌≡◌, ◌<◌, ◌≤◌, ℕ, Some, None, true, length, slice_get, IfSome};
ghost use Rattle.rx_steps.specs.Threads.{Slots, note_slot};
ghost use Rattle.rx_onepass.specs.Edges.{AreNotedBy, marked, note_all};

use rx_util::NonMaxUsize;

/// At most four slots. A number greater than that of each slot is none.
#[derive(Clone, Copy, Debug)]
pub(crate) struct Noted {
    first: usize,
    second: usize,
    third: usize,
    fourth: usize,
}

/// Writes an offset into a slot, if there is that slot.
#[inline(always)]
fn put(slots: &mut [Option<NonMaxUsize>], slot: usize, at: NonMaxUsize)
    ensures { slots.new ≡ note_slot slot at slots.old }
{
    if slot < slots.len() {
        slots[slot] = Some(at);
    }
}

impl Noted {
    /// Writes an offset into the slots.
    pub(crate) fn put(&self, slots: &mut [Option<NonMaxUsize>], at: NonMaxUsize)
        ensures { slots.new ≡ note_all self.now at slots.old }
    {
        put(slots, self.fourth, at);
        put(slots, self.third, at);
        put(slots, self.second, at);
        put(slots, self.first, at);
    }
}

/// Returns the first slot that is marked, or the number of slots.
fn first_marked(marks: &[Option<NonMaxUsize>]) -> usize
    ensures within { result ≤ length marks.now }
    ensures there { result < length marks.now
        → (i : ℕ) × (slice_get marks.now result ≡ Some (Some i)) }
    ensures before { (k : ℕ) → k < result → slice_get marks.now k ≡ Some None }
{
    for (index, mark) in marks.iter().enumerate() {
        if mark.is_some() {
            return index;
        }
    }
    marks.len()
}

/// Removes the mark of the first slot that is marked, and returns that slot, or the number of
/// slots.
fn take_marked(marks: &mut [Option<NonMaxUsize>]) -> usize
    ensures taken { (i : ℕ) (slots : Slots) → length slots ≡ length marks.old
        → marked i marks.old slots ≡ note_slot result i (marked i marks.new slots) }
    ensures len { length marks.new ≡ length marks.old }
{
    let slot = first_marked(marks);
    if slot < marks.len() {
        marks[slot] = None;
    }
    slot
}

/// Returns whether no slot is marked.
fn are_bare(marks: &[Option<NonMaxUsize>]) -> bool
    ensures { result ≡ true → AreNotedBy marks.now None }
{
    first_marked(marks) == marks.len()
}

/// Returns the slots that are marked, if they are at most four, and removes the marks.
fn take_all(marks: &mut [Option<NonMaxUsize>]) -> Option<Noted>
    ensures { IfSome result (λ noted. AreNotedBy marks.old (Some noted)) }
{
    let first = take_marked(marks);
    let second = take_marked(marks);
    let third = take_marked(marks);
    let fourth = take_marked(marks);
    if !are_bare(marks) {
        return None;
    }
    Some(Noted {
        first,
        second,
        third,
        fourth,
    })
}

/// Returns the slots that are marked, `Some(None)` if none is, and `None` if there are too many.
/// Marks may be removed.
pub(crate) fn noted_of(marks: &mut [Option<NonMaxUsize>]) -> Option<Option<Noted>>
    ensures { IfSome result (λ noted. AreNotedBy marks.old noted) }
{
    if are_bare(marks) {
        return Some(None);
    }
    let noted = take_all(marks)?;
    Some(Some(noted))
}
