// Integers by their payloads, in two's complement.
ghost use Rattle.std.specs.Prelude.{◌+ℤ◌, ◌<ℤ◌, Decides};
ghost use Rattle.verse.specs.Lines.{value};
ghost use Rattle.verse_rules.specs.Tests.{Summed};

// The sum of two integers, if it is one of 32 bits.
pub fn sum(m: u32, n: u32) -> Option<u32>
    ensures { Summed (value m +ℤ value n) result }
{
    m.cast_signed()
        .checked_add(n.cast_signed())
        .map(|k| k.cast_unsigned())
}

// Is the first the greater?
pub fn exceeds(m: u32, n: u32) -> bool
    ensures { Decides result (value n <ℤ value m) }
{
    m.cast_signed() > n.cast_signed()
}
