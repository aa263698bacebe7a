// The owed report.
ghost use Rattle.std.specs.Prelude.{◌≡◌};
ghost use Rattle.std.specs.Int.Count.{ones, count_trailing_zeros};
ghost use Rattle.model.specs.Owed.{does_owe_start, does_owe_end, standing_of};
ghost use Rattle.forms.specs.Stored.{net_of, stored};
ghost use Rattle.forms.specs.States.{IsState};
ghost use Rattle.owed.specs.Bits.{word_of};
ghost use Rattle.owed.specs.Reported.{set_of, reported};

use crate::{counts, sets};
use forms::checked::CheckedNet;
use model::answer::Standing;

// A set of transitions: bit t of the word says that t is one of them; how many there are; the lowest, or 64.
#[derive(Clone, Copy)]
pub struct OwedSet {
    pub word: u64,
    pub count: u32,
    pub lowest: u32,
}

// The transitions whose start is owed, those whose end is owed, and how the state stands.
#[derive(Clone, Copy)]
pub struct Owed {
    pub starts: OwedSet,
    pub ends: OwedSet,
    pub standing: Standing,
}

impl OwedSet {
    // The set that a word stands for. A name and no `From`: not every word is meant as a set.
    pub fn of(word: u64) -> OwedSet
        ensures { result ≡ set_of word (ones word) (count_trailing_zeros 64 word) }
    {
        OwedSet {
            word: word,
            count: u64::count_ones(word),
            lowest: u64::trailing_zeros(word),
        }
    }
}

// What the state owes.
pub fn report(net: CheckedNet, state: &[u8]) -> Owed
    requires { IsState (net_of net.bytes.now) state.now }
    ensures { result ≡ reported (net_of net.entry.bytes.now) (stored net.entry.bytes.now state.now) }
{
    let starts = sets::starts_owed(net, state);
    let ends = sets::ends_owed(net, state);
    Owed {
        starts: OwedSet::of(starts),
        ends: OwedSet::of(ends),
        standing: standing(net, state, starts, ends),
    }
}

// How the state stands, by its two words: the first that holds.
fn standing(net: CheckedNet, state: &[u8], starts: u64, ends: u64) -> Standing
    requires is_state { IsState (net_of net.bytes.now) state.now }
    requires starts_value { starts ≡ word_of (net_of net.bytes.now).transitions (does_owe_start (net_of net.bytes.now) (stored net.bytes.now state.now)) }
    requires ends_value { ends ≡ word_of (net_of net.bytes.now).transitions (does_owe_end (net_of net.bytes.now) (stored net.bytes.now state.now)) }
    ensures { result ≡ standing_of (net_of net.entry.bytes.now) (stored net.entry.bytes.now state.now) }
{
    if starts != 0 {
        return Standing::StartOwed;
    }
    if ends != 0 {
        return Standing::EndOwed;
    }
    if counts::nothing_running(net, state) {
        return Standing::AtRest;
    }
    Standing::FreeToTick
}
