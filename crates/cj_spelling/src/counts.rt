//! Counts of words, which stop at the greatest number of 64 bits.

ghost use Rattle.std.specs.Prelude.{◌≡◌, ◌+◌};
ghost use Rattle.cj_spelling.specs.Counting.{capped};

/// The sum of two counts.
pub fn added(one: u64, other: u64) -> u64
    ensures { result ≡ capped (one + other) }
{
    one.saturating_add(other)
}
