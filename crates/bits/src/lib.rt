// The bits of a byte, for the registers of a chip.
#![tactic(auto)]

ghost use Rattle.std.specs.Prelude.{◌≡◌, ◌≤◌};
ghost use Rattle.card.specs.Bits.{bit};
ghost use Rattle.bits.specs.Bytes.{put, highest};

/// Whether bit n is set. A byte has bits 0 to 7; the others are not set.
pub fn is_set(x: u8, n: u8) -> bool
    ensures { result ≡ bit x n }
{
    n < 8 && x & (1 << n) != 0
}

/// The byte with bit n set or clear, where it has that bit.
pub fn with(x: u8, n: u8, on: bool) -> u8
    ensures { result ≡ put n on x }
{
    if n >= 8 {
        return x;
    }
    if on { x | (1 << n) } else { x & !(1 << n) }
}

// Not an Option: 0 is below every level, so that callers compare it as it is.
/// The highest bit that is set of bits 1 to 7, or 0.
pub fn highest_set(x: u8) -> u8
    ensures value { result ≡ highest (bit x) 7 }
    ensures bound { result ≤ 7 }
{
    if x == 0 {
        0
    } else {
        7 - x.leading_zeros() as u8
    }
}
