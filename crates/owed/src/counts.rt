// The counts of the clock matrix: those at age 0, those at their transition's lfd, and all of them.
ghost use Rattle.std.specs.Prelude.{◌≡◌, ◌<◌};
ghost use Rattle.model.specs.Net.{count as count_of};
ghost use Rattle.model.specs.Rules.{has_no_end_owed, owes_no_old_end, has_no_old_end_owed, has_none_fresh, has_nothing_running};
ghost use Rattle.forms.specs.Word.{byte};
ghost use Rattle.forms.specs.Stored.{net_of, stored};
ghost use Rattle.forms.specs.States.{IsState};

use forms::checked::CheckedNet;
use forms::{places, words};
use model::age::Age;

// How many firings of transition t are of this age.
pub fn count(net: CheckedNet, state: &[u8], t: usize, age: Age) -> usize
    requires is_state { IsState (net_of net.bytes.now) state.now }
    requires t_bound { (t < net.shape.transitions) × (age.0 < net.shape.width) }
    ensures { (result ≡ count_of (stored net.entry.bytes.now state.now) t age.0) × (result < 65536) }
{
    words::read16(state, places::count_at(net.shape, t, age.column()))
}

// How many firings of transition t must end: those at its lfd.
pub fn due(net: CheckedNet, state: &[u8], t: usize) -> usize
    requires is_state { IsState (net_of net.bytes.now) state.now }
    requires t_bound { t < net.shape.transitions }
    ensures { (result ≡ count_of (stored net.entry.bytes.now state.now) t ((net_of net.entry.bytes.now).lfd t)) × (result < 65536) }
{
    count(net, state, t, Age(net.lfd(t) as u8))
}

// No count stands at its transition's lfd.
pub fn no_end_owed(net: CheckedNet, state: &[u8]) -> bool
    requires { IsState (net_of net.bytes.now) state.now }
    ensures { result ≡ has_no_end_owed (net_of net.entry.bytes.now) (stored net.entry.bytes.now state.now) }
{
    (0..net.shape.transitions).all(|t| due(net, state, t) == 0)
}

// No end of age 1 or more is owed by transition t: no count stands at its lfd, or its lfd is 0.
#[tactic(auto, using(std::proofs::lemmas::Bool::Decides::nat_tests), unfolding(model::specs::Rules::owes_no_old_end))]
fn owes_no_old_end(net: CheckedNet, state: &[u8], t: usize) -> bool
    requires is_state { IsState (net_of net.bytes.now) state.now }
    requires t_bound { t < net.shape.transitions }
    ensures { result ≡ owes_no_old_end (net_of net.entry.bytes.now) (stored net.entry.bytes.now state.now) t }
{
    due(net, state, t) == 0 || net.lfd(t) == 0
}

// No end of age 1 or more is owed.
pub fn no_old_end_owed(net: CheckedNet, state: &[u8]) -> bool
    requires { IsState (net_of net.bytes.now) state.now }
    ensures { result ≡ has_no_old_end_owed (net_of net.entry.bytes.now) (stored net.entry.bytes.now state.now) }
{
    (0..net.shape.transitions).all(|t| owes_no_old_end(net, state, t))
}

// No firing has age 0.
pub fn none_fresh(net: CheckedNet, state: &[u8]) -> bool
    requires { IsState (net_of net.bytes.now) state.now }
    ensures { result ≡ has_none_fresh (net_of net.entry.bytes.now) (stored net.entry.bytes.now state.now) }
{
    (0..net.shape.transitions).all(|t| count(net, state, t, Age(0)) == 0)
}

// No count is above 0: the clock matrix is one block of words.
pub fn nothing_running(net: CheckedNet, state: &[u8]) -> bool
    requires { IsState (net_of net.bytes.now) state.now }
    ensures { result ≡ has_nothing_running (net_of net.entry.bytes.now) (stored net.entry.bytes.now state.now) }
{
    words::blank(
        state,
        places::clock_at(net.shape.places),
        places::cells(net.shape),
    )
}
