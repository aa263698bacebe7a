// The words of a state: its markings, and behind them its counts, row by row. Those that hold something are told, and of two states the first
// word in which they differ.
ghost use Rattle.std.specs.Prelude.{◌≡◌, ◌-◌, ◌<◌, IfSome};
ghost use Rattle.why.specs.Each.{next_from};
ghost use Rattle.why.specs.State.{word_count, held, is_held, content_at, held_phrase, first_other, difference_of, differs_phrase, other_phrase};

use crate::bytes;
use crate::phrase::{Phrase, Word};
use forms::places;

// What a word of a state is: the marking of a place, or the count of a transition at an age.
#[derive(Clone, Copy)]
pub enum Content {
    Marking { place: usize },
    Count { transition: usize, age: usize },
}

// A word in which two states differ, and what it holds in the one and in the other.
#[derive(Clone, Copy)]
pub struct Difference {
    pub at: usize,
    pub here: usize,
    pub there: usize,
}

// How many words the state has.
pub fn word_count(state: &[u8]) -> usize
    ensures { (result ≡ word_count state.now) × (result < 65536) }
{
    let rows = bytes::byte_of(state, places::TRANSITIONS_AT);
    let width = bytes::byte_of(state, places::WIDTH_AT);
    bytes::byte_of(state, places::PLACES_AT) + rows * width
}

// What word i holds.
#[tactic(auto, unfolding(crate::specs::State::held))]
pub fn held(state: &[u8], i: usize) -> usize
    requires { i < 65536 }
    ensures { (result ≡ held state.now i) × (result < 65536) }
{
    bytes::word_of(state, 8 + 2 * i)
}

// The lowest word from `from` on that holds something.
#[tactic(auto, unfolding(crate::specs::Each::next_from))]
pub fn next_held(state: &[u8], from: usize) -> Option<usize>
    ensures value { result ≡ next_from (is_held state.now) (word_count state.now - from) from }
    ensures upper_bound { IfSome result (λ i. i < 65536) }
{
    (from..word_count(state)).find(|i| 0 < held(state, *i))
}

// The first word in which two states differ.
#[tactic(auto, unfolding(crate::specs::State::first_other, crate::specs::Each::next_from))]
fn first_other(one: &[u8], other: &[u8]) -> Option<usize>
    ensures value { result ≡ first_other one.now other.now }
    ensures upper_bound { IfSome result (λ i. i < 65536) }
{
    (0..word_count(one)).find(|i| held(one, *i) != held(other, *i))
}

#[tactic(auto, unfolding(crate::specs::State::difference_of))]
fn differ(one: &[u8], other: &[u8]) -> Option<Difference>
    ensures { result ≡ difference_of one.now other.now }
{
    let at = first_other(one, other)?;
    Some(Difference {
        at,
        here: held(one, at),
        there: held(other, at),
    })
}

// What word i is. (A state has at least one age.)
#[tactic(auto, unfolding(crate::specs::State::content_at))]
fn content_at(state: &[u8], i: usize) -> Content
    ensures { result ≡ content_at state.now i }
{
    let places = bytes::byte_of(state, places::PLACES_AT);
    let width = bytes::byte_of(state, places::WIDTH_AT).max(1);
    if i < places {
        Content::Marking { place: i }
    } else {
        Content::Count {
            transition: (i - places) / width,
            age: (i - places) % width,
        }
    }
}

// What word i holds, as a phrase.
#[tactic(auto, unfolding(crate::specs::State::held_phrase))]
pub fn held_phrase(state: &[u8], i: usize) -> Phrase
    requires { i < 65536 }
    ensures { result ≡ held_phrase state.now i }
{
    let tokens = held(state, i);
    match content_at(state, i) {
        Content::Marking { place } => Phrase::new(Word::Mark, [place, tokens]),
        Content::Count { transition, age } => Phrase::new(Word::Run, [transition, age, tokens]),
    }
}

// A difference as a phrase, in words of a marking or in words of a count.
#[tactic(auto, unfolding(crate::specs::State::differs_phrase))]
fn differs_phrase(state: &[u8], marks: Word, runs: Word, found: Difference) -> Phrase
    ensures { result ≡ differs_phrase marks runs state.now found }
{
    match content_at(state, found.at) {
        Content::Marking { place } => Phrase::new(marks, [place, found.here, found.there]),
        Content::Count { transition, age } => Phrase::new(
            runs,
            [transition, age, found.here, found.there],
        ),
    }
}

// Where a state differs from another, as a phrase.
pub fn other_phrase(one: &[u8], other: &[u8], marks: Word, runs: Word) -> Option<Phrase>
    ensures { result ≡ other_phrase marks runs one.now other.now }
{
    differ(one, other).map(|found| differs_phrase(one, marks, runs, found))
}
