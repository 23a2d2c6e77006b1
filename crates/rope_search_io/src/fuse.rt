//! The call that fails, for tests of failures.
ghost use Rattle.std.specs.Prelude.{◌≡◌, ◌↔◌, IsTrue, Some};
ghost use Rattle.rope_search_io.specs.Sources.{burnt};

/// Counts one call, and returns whether it is the one that fails: at `Some(1)` this one, at `None`
/// none.
pub fn burns(fuse: &mut Option<u64>) -> bool
    ensures fails { IsTrue result ↔ (fuse.old ≡ Some 1) }
    ensures next { fuse.new ≡ burnt fuse.old }
{
    match *fuse {
        Some(1) => {
            *fuse = None;
            true
        }
        Some(calls) if calls > 1 => {
            *fuse = Some(calls - 1);
            false
        }
        _ => false,
    }
}
