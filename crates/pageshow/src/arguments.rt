// What the words behind the program's name ask for: `--log` and a budget, each at most once, in any order.
ghost use Rattle.std.specs.Prelude.{◌≡◌};
ghost use Rattle.pageshow.specs.Arguments.{with_digit, number_says, word_says, asks};

use model::net::Net;

// A budget has at most so many digits.
const DIGITS_MOST: usize = 10;

// What one word says.
#[derive(Clone, Copy)]
pub enum Word {
    Log,
    Budget(usize),
}

// The log is wanted on standard output, and the page has at most so many events.
#[derive(Clone, Copy)]
pub struct Wish {
    pub log: bool,
    pub budget: usize,
}

// As many words as are counted, of which the first two are given; where there are fewer, what stands for the others changes nothing. A word
// with no bytes is no word of ours, so a caller gives one for what it had no room for.
pub fn read(count: usize, first: &[u8], second: &[u8]) -> Option<Wish>
    ensures { result ≡ asks count first.now second.now }
{
    match (count, word_of(first), word_of(second)) {
        (0, _, _) => Some(Wish {
            log: false,
            budget: Net::MAX_EVENTS,
        }),
        (1, Some(Word::Log), _) => Some(Wish {
            log: true,
            budget: Net::MAX_EVENTS,
        }),
        (1, Some(Word::Budget(budget)), _) => Some(Wish { log: false, budget }),
        (2, Some(Word::Log), Some(Word::Budget(budget)))
        | (2, Some(Word::Budget(budget)), Some(Word::Log)) => Some(Wish { log: true, budget }),
        _ => None,
    }
}

// `--log`, a budget, or neither.
fn word_of(word: &[u8]) -> Option<Word>
    ensures { result ≡ word_says word.now }
{
    if word == b"--log".as_slice() {
        return Some(Word::Log);
    }
    number_of(word).map(Word::Budget)
}

// A number of 32 bits, in 1 to 10 digits.
fn number_of(word: &[u8]) -> Option<usize>
    ensures { result ≡ number_says word.now }
{
    if !(1..=DIGITS_MOST).contains(&word.len()) {
        return None;
    }
    let mut n = 0;
    for byte in word {
        n = with_digit(n, *byte)?;
    }
    Some(n as usize)
}

// A number with one more digit behind it, where the byte is one and 32 bits have room for it.
fn with_digit(n: u32, byte: u8) -> Option<u32>
    ensures { result ≡ with_digit n byte }
{
    match byte {
        b'0'..=b'9' => n.checked_mul(10)?.checked_add(u32::from(byte - b'0')),
        _ => None,
    }
}
