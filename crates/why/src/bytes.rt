// Bytes of a slice that may be shorter than one thinks: what is not there is 0.
ghost use Rattle.std.specs.Prelude.{◌≡◌, ◌<◌};
ghost use Rattle.forms.specs.Word.{byte, word};
ghost use Rattle.why.specs.State.{length_field};

use forms::words;

pub fn byte_of(s: &[u8], i: usize) -> usize
    ensures { (result ≡ byte s.now i) × (result < 256) }
{
    s.get(i).map_or(0, |b| usize::from(*b))
}

// The word of two bytes that starts at `at`. (Not by `u16::from_be_bytes`: a byte is a number here, and one that is not there is 0.)
#[tactic(auto, unfolding(forms::specs::Word::word))]
pub fn word_of(s: &[u8], at: usize) -> usize
    requires { at < 4294967296 }
    ensures { (result ≡ word s.now at) × (result < 65536) }
{
    256 * byte_of(s, at) + byte_of(s, at + 1)
}

// What the length field of a stored form says, and 0 where it is not whole.
#[tactic(auto, unfolding(crate::specs::State::length_field))]
pub fn length_field(s: &[u8]) -> usize
    ensures { result ≡ length_field s.now }
{
    if s.len() < 5 { 0 } else { words::read32(s, 1) }
}
