// The marking written: the weights of a transition leave it or join it. Each place is asked as it is written, and where one says no the
// places before it are set back, so that an event that is accepted goes over the places once.
ghost use Rattle.std.specs.Prelude.{◌≡◌, ℕ, Bool, ◌<◌, ◌≤◌, ◌+◌, length, Option, Some};
ghost use Rattle.model.specs.Limits.{Held};
ghost use Rattle.forms.specs.Word.{byte, word, put_words};
ghost use Rattle.forms.specs.Places.{mark_at};
ghost use Rattle.owed.specs.Marks.{FoundBelow, short_place};
ghost use Rattle.moves.specs.Marking.{Changes, Changed, after_taking, after_giving, is_roomy, taken, given};

use forms::{places, words};
use model::net::Net;
use owed::weights::AboveZero;

// Each place with a weight above 0, from the lowest, gets what `to` makes of its marking and the weight, up to the first of which it makes
// none, which is answered.
fn change<F: Fn(usize, usize) -> Option<usize>>(
    weights: &[u8],
    state: &mut [u8],
    to: F,
) -> Option<usize>
    requires inside { (length weights.now < 256) × (mark_at (length weights.now) ≤ length state.old) }
    requires asked { (p : ℕ) → p < length weights.now → word state.old (mark_at p) < 65536 → F.pre to (word state.old (mark_at p)) (byte weights.now p) }
    requires fits { (p v : ℕ) → p < length weights.now → word state.old (mark_at p) < 65536 → F.post to (word state.old (mark_at p)) (byte weights.now p) (Some v) → v < 65536 }
    ensures { (fails : ℕ → Bool) (g : ℕ → ℕ) → Changes (F.post to) weights.now state.old fails g → Changed fails g (length weights.now) state.old result state.new }
{
    for (p, weight) in AboveZero::of(weights) {
        let at = places::mark_at(p);
        let Some(marking) = to(words::read16(state, at), weight) else {
            return Some(p);
        };
        words::write16(state, at, marking);
    }
    None
}

// The weights leave the marking, if every place has its weight. Answers the lowest that has not, or none.
pub fn take(weights: &[u8], state: &mut [u8]) -> Option<usize>
    requires { (length weights.now < 256) × (mark_at (length weights.now) ≤ length state.old) }
    ensures value { FoundBelow (length weights.now) (short_place weights.now 0 state.old (length weights.now)) result }
    ensures state_after { state.new ≡ taken weights.now 0 state.old (length weights.now) }
{
    let short = change(
        weights,
        state,
        |marking, weight| marking.checked_sub(weight),
    );
    if let Some(p) = short {
        give_back(&weights[..p], state);
    }
    short
}

// The weights join the marking, if every place has room for its weight. Whether they do is all that is told: no refusal names the place.
pub fn give(weights: &[u8], state: &mut [u8]) -> bool
    requires { (length weights.now < 256) × (mark_at (length weights.now) ≤ length state.old) }
    ensures value { result ≡ is_roomy weights.now 0 state.old (length weights.now) }
    ensures state_after { state.new ≡ given weights.now 0 state.old (length weights.now) }
{
    let full = change(
        weights,
        state,
        |marking, weight| Some(marking + weight).filter(|more| Net::held(*more)),
    );
    let Some(p) = full else {
        return true;
    };
    take_back(&weights[..p], state);
    false
}

// Each place has room for its weight: the test that `give` makes, and nothing is written.
pub fn has_room(weights: &[u8], state: &[u8]) -> bool
    requires { (length weights.now < 256) × (mark_at (length weights.now) ≤ length state.now) }
    ensures { result ≡ is_roomy weights.now 0 state.now (length weights.now) }
{
    (0..weights.len()).all(|p| Net::held(
        words::read16(state, places::mark_at(p)) + usize::from(weights[p]),
    ))
}

// The weights that have left the marking join it again.
fn give_back(weights: &[u8], state: &mut [u8])
    requires inside { (length weights.now < 256) × (mark_at (length weights.now) ≤ length state.old) }
    requires by_index { (p : ℕ) → p < length weights.now → Held (word state.old (mark_at p) + byte weights.now p) }
    ensures { state.new ≡ put_words (mark_at 0) (length weights.now) (after_giving weights.now 0 state.old) state.old }
{
    change(weights, state, |left, weight| Some(left + weight));
}

// The weights that have joined the marking leave it again.
fn take_back(weights: &[u8], state: &mut [u8])
    requires inside { (length weights.now < 256) × (mark_at (length weights.now) ≤ length state.old) }
    requires by_index { (p : ℕ) → p < length weights.now → byte weights.now p ≤ word state.old (mark_at p) }
    ensures { state.new ≡ put_words (mark_at 0) (length weights.now) (after_taking weights.now 0 state.old) state.old }
{
    change(weights, state, |more, weight| Some(more - weight));
}
