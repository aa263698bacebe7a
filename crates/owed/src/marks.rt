// The marking against the weights of a transition.
ghost use Rattle.std.specs.Prelude.{◌<◌, ◌≤◌, length};
ghost use Rattle.forms.specs.Places.{mark_at};
ghost use Rattle.owed.specs.Marks.{FoundBelow, short_place};

use crate::weights::AboveZero;
use forms::{places, words};

// The lowest place that has fewer tokens than its weight, or none.
pub fn short_place(weights: &[u8], state: &[u8]) -> Option<usize>
    requires { (length weights.now < 256) × (mark_at (length weights.now) ≤ length state.now) }
    ensures { FoundBelow (length weights.now) (short_place weights.now 0 state.now (length weights.now)) result }
{
    for (p, weight) in AboveZero::of(weights) {
        if words::read16(state, places::mark_at(p)) < weight {
            return Some(p);
        }
    }
    None
}
