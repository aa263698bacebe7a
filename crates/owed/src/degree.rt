// The degree of a transition: how many times it is enabled.
ghost use Rattle.std.specs.Prelude.{◌≡◌, ◌<◌, ◌≤◌, length};
ghost use Rattle.model.specs.Tab.{least};
ghost use Rattle.model.specs.Limits.{token_limit};
ghost use Rattle.model.specs.Rules.{times as times_of, degree as degree_of};
ghost use Rattle.forms.specs.Word.{byte, word};
ghost use Rattle.forms.specs.Places.{mark_at};
ghost use Rattle.forms.specs.Stored.{net_of, stored};
ghost use Rattle.forms.specs.States.{IsState};

use crate::weights;
use forms::checked::CheckedNet;
use forms::{places, words};
use model::net::Net;

// How many times a weight goes into a marking; any number of times where it is 0, so the limit.
fn times(weight: usize, marking: usize) -> usize
    ensures { result ≡ times_of weight marking }
{
    marking.checked_div(weight).unwrap_or(Net::MAX_TOKENS)
}

// The least of these over the places.
fn least_times(weights: &[u8], state: &[u8]) -> usize
    requires { (length weights.now < 256) × (mark_at (length weights.now) ≤ length state.now) }
    ensures { result ≡ least token_limit (length weights.now) (λ p. times_of (byte weights.now p) (word state.now (mark_at p))) }
{
    (0..weights.len()).fold(Net::MAX_TOKENS, |fewest, p| {
        let marking = words::read16(state, places::mark_at(p));
        fewest.min(times(usize::from(weights[p]), marking))
    })
}

// How many times transition t is enabled.
pub fn degree(net: CheckedNet, state: &[u8], t: usize) -> usize
    requires is_state { IsState (net_of net.bytes.now) state.now }
    requires t_bound { t < net.shape.transitions }
    ensures { result ≡ degree_of (net_of net.entry.bytes.now) (stored net.entry.bytes.now state.now) t }
{
    least_times(weights::inputs(net, t), state)
}
