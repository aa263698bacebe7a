// The check of a state's bytes, numbers 8 and 9.
ghost use Rattle.std.specs.Prelude.{◌≡◌, ◌<◌, ◌≤◌};
ghost use Rattle.forms.specs.Checked.{in_turn};
ghost use Rattle.forms.specs.Stored.{net_of};
ghost use Rattle.forms.specs.States.{StateHead, has_head, check_counts, check_state};

use crate::checked::CheckedNet;
use crate::fault::Fault;
use crate::{begins, places, words};
use model::age::Age;
use model::net::Net;

// Version 1, P, T and D the net's, the length the formula's, and the buffer at least as long.
#[tactic(auto, unfolding(crate::specs::States::has_head))]
fn has_head(shape: Net, state: &[u8]) -> bool
    requires { (shape.places < 256) × (shape.transitions < 256) × (shape.width ≤ 256) }
    ensures { result ≡ has_head shape.places shape.transitions shape.width state.now }
{
    let length = places::state_length(shape);
    8 <= state.len()
        && begins::begins(state, length)
        && usize::from(state[places::PLACES_AT]) == shape.places
        && usize::from(state[places::TRANSITIONS_AT]) == shape.transitions
        && usize::from(state[places::WIDTH_AT]) == shape.width
        && length <= state.len()
}

// Transition t: no count stands at an age above its lfd.
#[tactic(auto, using(crate::proofs::CheckedNets::limits), unfolding(crate::specs::States::has_none_past, crate::specs::Stored::net_of))]
fn check_counts(net: CheckedNet, state: &[u8], t: usize) -> Result<(), Fault>
    requires state_head { StateHead (net_of net.bytes.now) state.now }
    requires t_bound { t < net.shape.transitions }
    ensures { result ≡ check_counts (net_of net.entry.bytes.now) state.now t }
{
    let above = net.lfd(t) + 1;
    let at = places::count_at(net.shape, t, Age(above as u8).column());
    if !words::blank(state, at, net.shape.width - above) {
        return Err(Fault::PastLfd(t));
    }
    Ok(())
}

// Checks that a state of the net stands at the front of the buffer: its head, and the transitions in turn, from the lowest.
#[tactic(auto, using(crate::proofs::CheckedNets::limits, crate::proofs::Turns::turns), unfolding(crate::specs::States::check_state))]
pub fn check_state(net: CheckedNet, state: &[u8]) -> Result<(), Fault>
    ensures { result ≡ check_state (net_of net.entry.bytes.now) state.now }
{
    if !has_head(net.shape, state) {
        return Err(Fault::StateFrame);
    }
    for t in 0..net.shape.transitions {
        check_counts(net, state, t)?;
    }
    Ok(())
}
