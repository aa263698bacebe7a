// Bits of a 64-bit word.
ghost use Rattle.std.specs.Prelude.{◌≡◌, ◌*◌, ◌^◌, ◌%◌, ◌<◌};
ghost use Rattle.std.specs.Int.Bits.{bit_or};
ghost use Rattle.owed.specs.Bits.{bit_at};

// The word with bit t set.
pub fn with_bit(word: u64, t: usize) -> u64
    requires { t < 64 }
    ensures { result ≡ bit_or word ((1 * 2 ^ t) % 2 ^ 64) }
{
    word | (1 << t)
}

// Bit t of the word is set.
pub fn has_bit(word: u64, t: usize) -> bool
    requires { t < 64 }
    ensures { result ≡ bit_at word t }
{
    (word >> t) & 1 == 1
}
