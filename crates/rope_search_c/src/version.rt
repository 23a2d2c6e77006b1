//! The version of the library.
ghost use Rattle.std.specs.Prelude.{◌≡◌, ◌+◌, ◌*◌};

/// Returns the version of the library, like `ROPE_SEARCH_VERSION` of the header: 1,000,000 times
/// its first number plus 1,000 times its second plus its third.
#[unsafe(no_mangle)]
pub extern "C" fn rope_search_version() -> u32
    ensures { result ≡ 1000000 * 0 + 1000 * 2 + 0 }
{
    2000
}
