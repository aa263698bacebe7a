// Big-endian words of two and four bytes in a slice of bytes. The place goes beside the slice, and no part of it is taken: the clauses
// speak of the whole slice, as the definitions of specs/Word.antt do.
ghost use Rattle.std.specs.Prelude.{◌≡◌, ◌+◌, ◌*◌, ◌<◌, ◌≤◌, length};
ghost use Rattle.forms.specs.Word.{word, word32, is_blank, set_word, set_word32, put_words};

// The word of two bytes that starts at `at`.
#[tactic(auto, unfolding(crate::specs::Word::word))]
pub fn read16(s: &[u8], at: usize) -> usize
    requires { at + 1 < length s.now }
    ensures { (result ≡ word s.now at) × (result < 65536) }
{
    usize::from(u16::from_be_bytes([s[at], s[at + 1]]))
}

// The word of four bytes that starts at `at`.
#[tactic(auto, unfolding(crate::specs::Word::word32, crate::specs::Word::word))]
pub fn read32(s: &[u8], at: usize) -> usize
    requires { at + 3 < length s.now }
    ensures { result ≡ word32 s.now at }
{
    u32::from_be_bytes([s[at], s[at + 1], s[at + 2], s[at + 3]]) as usize
}

// The n words of two bytes from `at` on are all 0. It looks at every byte, which compiles to wide steps; a way out at the first
// byte that is not 0 would not.
pub fn blank(s: &[u8], at: usize, n: usize) -> bool
    requires { at + 2 * n ≤ length s.now }
    ensures { result ≡ is_blank s.now at n }
{
    s[at..at + 2 * n].iter().fold(0, |seen, byte| seen | *byte) == 0
}

// Writes `v` as the word of two bytes that starts at `at`.
#[tactic(auto, using(crate::proofs::WordBytes::put_two))]
pub fn write16(s: &mut [u8], at: usize, v: usize)
    requires { (at + 1 < length s.old) × (v < 65536) }
    ensures { s.new ≡ set_word s.old at v }
{
    s[at..at + 2].copy_from_slice(&(v as u16).to_be_bytes());
}

// Writes `v` as the word of four bytes that starts at `at`.
#[tactic(auto, using(crate::proofs::WordBytes::put_four))]
pub fn write32(s: &mut [u8], at: usize, v: usize)
    requires { (at + 3 < length s.old) × (v < 4294967296) }
    ensures { s.new ≡ set_word32 s.old at v }
{
    s[at..at + 4].copy_from_slice(&(v as u32).to_be_bytes());
}

// Writes 0 as the n words of two bytes from `at` on.
#[tactic(auto, using(crate::proofs::WordBytes::put_zeros))]
pub fn clear(s: &mut [u8], at: usize, n: usize)
    requires { at + 2 * n ≤ length s.old }
    ensures { s.new ≡ put_words at n (λ i. 0) s.old }
{
    s[at..at + 2 * n].fill(0);
}
