//! Limits on sizes.
ghost use Rattle.std.specs.Prelude.{◌^◌, ◌<◌};

/// The limits of a session or a buffer. The default is one gibibyte for a text.
#[derive(Clone, Copy, Debug, PartialEq, Eq)]
pub struct Limits {
    /// The maximum number of bytes of a text in a buffer, at most `isize::MAX`. A longer one is
    /// refused with `Fault::Size`.
    pub text: usize,
    ghost in_range: { text < 2 ^ 63 },
}

/// The default: one gibibyte for a text.
impl Default for Limits {
    ghost use Rattle.std.specs.Prelude.{◌≡◌, ◌^◌};

    ghost is_default = { λ limits. limits.text ≡ 2 ^ 30 };

    fn default() -> Limits {
        Limits { text: 1 << 30 }
    }
}
