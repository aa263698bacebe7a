// What a state owes, by the bits of the two words of the owed report: the starts, and behind them the ends.
ghost use Rattle.std.specs.Prelude.{◌≡◌, ◌-◌, ◌<◌, IfSome};
ghost use Rattle.why.specs.Each.{next_from};
ghost use Rattle.why.specs.State.{owed_most, does_owe, owed_phrase};

use crate::phrase::{Phrase, Word};
use owed::bits;

// 64 starts and 64 ends. (A number, and no enum, says which: the cursor keeps it as the item that is to come.)
pub const OWED_MOST: usize = 128;

#[tactic(auto, unfolding(crate::specs::State::does_owe))]
fn owes(starts: u64, ends: u64, i: usize) -> bool
    requires { i < owed_most }
    ensures { result ≡ does_owe starts ends i }
{
    if i < 64 {
        bits::has_bit(starts, i)
    } else {
        bits::has_bit(ends, i - 64)
    }
}

// The lowest from `from` on that is owed.
#[tactic(auto, unfolding(crate::specs::Each::next_from))]
pub fn next_owed(starts: u64, ends: u64, from: usize) -> Option<usize>
    ensures value { result ≡ next_from (does_owe starts ends) (owed_most - from) from }
    ensures upper_bound { IfSome result (λ i. i < owed_most) }
{
    (from..OWED_MOST).find(|i| owes(starts, ends, *i))
}

#[tactic(auto, unfolding(crate::specs::State::owed_phrase))]
pub fn owed_phrase(i: usize) -> Phrase
    ensures { result ≡ owed_phrase i }
{
    if i < 64 {
        Phrase::new(Word::StartOwed, [i])
    } else {
        Phrase::new(Word::EndOwed, [i - 64])
    }
}
