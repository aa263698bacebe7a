// Sums over the bytes of a checked net and state. The contract of each sum has a bound that keeps those above it within 64 bits, for every width
// that fits its byte: durations up to 254.
ghost use Rattle.std.specs.Prelude.{◌≡◌, ◌+◌, ◌*◌, ◌<◌, ◌≤◌, length};
ghost use Rattle.model.specs.Tab.{sum};
ghost use Rattle.forms.specs.Word.{byte, word};
ghost use Rattle.forms.specs.Places.{mark_at};
ghost use Rattle.forms.specs.Stored.{net_of, stored};
ghost use Rattle.forms.specs.States.{IsState};
ghost use Rattle.balance.specs.Bounds.{arc_most, tokens_most, word_most};
ghost use Rattle.balance.specs.Weights.{weighed};
ghost use Rattle.balance.specs.Told.{weight_at, weighing, checked_weighing};

use forms::checked::CheckedNet;
use forms::{places, words};
use model::age::Age;

// Why a net and weights have no total.
#[derive(Clone, Copy)]
pub enum Imbalance {
    // the lowest transition whose outputs weigh other than its inputs
    Unbalanced(usize),
    // the weights are not 2P bytes
    NoWeights,
}

// What the arcs of so many places weigh, which stand in the net from `from` on.
fn arcs(net: &[u8], from: usize, weights: &[u8], places: usize) -> usize
    requires { (places < 256) × (from + places ≤ length net.now) × (2 * places ≤ length weights.now) }
    ensures { (result ≡ weighed places (weight_at weights.now) (λ p. byte net.now (from + p))) × (result ≤ places * arc_most) }
{
    (0..places)
        .map(|p| words::read16(weights, 2 * p) * usize::from(net[from + p]))
        .sum()
}

// What the marking weighs.
fn marking(state: &[u8], weights: &[u8], places: usize) -> usize
    requires { (places < 256) × (mark_at places ≤ length state.now) × (2 * places ≤ length weights.now) }
    ensures { (result ≡ weighed places (weight_at weights.now) (λ p. word state.now (mark_at p))) × (result ≤ places * tokens_most) }
{
    (0..places)
        .map(|p| words::read16(weights, 2 * p) * words::read16(state, places::mark_at(p)))
        .sum()
}

// The sum of n words of two bytes.
fn words_sum(s: &[u8], at: usize, n: usize) -> usize
    requires { (n < 256) × (at + 2 * n ≤ length s.now) }
    ensures { (result ≡ sum n (λ k. word s.now (at + 2 * k))) × (result ≤ n * word_most) }
{
    (0..n).map(|k| words::read16(s, at + 2 * k)).sum()
}

// The state, weighed transition by transition; the first that is unbalanced ends it.
#[tactic(auto, using(forms::proofs::CheckedNets::limits))]
fn weigh_all(net: CheckedNet, state: &[u8], weights: &[u8]) -> Result<u64, Imbalance>
    requires { IsState (net_of net.bytes.now) state.now × (2 * net.shape.places ≤ length weights.now) }
    ensures { result ≡ weighing (net_of net.entry.bytes.now) (weight_at weights.now) (stored net.entry.bytes.now state.now) }
{
    let places = net.shape.places;
    let mut total = marking(state, weights, places);
    for t in 0..net.shape.transitions {
        let taken = arcs(net.bytes, places::inputs_at(places, t), weights, places);
        let given = arcs(net.bytes, places::outputs_at(places, t), weights, places);
        if taken != given {
            return Err(Imbalance::Unbalanced(t));
        }
        let row = places::count_at(net.shape, t, Age(0).column());
        total += words_sum(state, row, net.shape.width) * taken;
    }
    Ok(total as u64)
}

// The state weighed by weights of two bytes for each place.
#[tactic(auto, using(std::proofs::lemmas::Bool::Decides::nat_tests), unfolding(crate::specs::Told::checked_weighing))]
pub fn weigh(net: CheckedNet, state: &[u8], weights: &[u8]) -> Result<u64, Imbalance>
    requires { IsState (net_of net.bytes.now) state.now }
    ensures { result ≡ checked_weighing (net_of net.entry.bytes.now) weights.now (stored net.entry.bytes.now state.now) }
{
    if weights.len() != 2 * net.shape.places {
        return Err(Imbalance::NoWeights);
    }
    weigh_all(net, state, weights)
}
