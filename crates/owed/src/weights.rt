// The weights of a transition: one for each place, of which most are 0. These are passed over, and eight at once where that many are 0.
ghost use Rattle.std.specs.Prelude.{◌≡◌, ◌-◌, ◌<◌, length};
ghost use Rattle.std.specs.Iterator.{at_most};
ghost use Rattle.forms.specs.Stored.{net_of};
ghost use Rattle.owed.specs.Weights.{AreWeights, NextAbove, pass_zero};

use forms::checked::CheckedNet;
use forms::places;

// The input weights of transition t.
pub fn inputs<'a>(net: CheckedNet<'a>, t: usize) -> &'a [u8]
    requires { t < net.shape.transitions }
    ensures { AreWeights net.entry.shape.places ((net_of net.entry.bytes.now).takes t) result.now }
{
    let at = places::inputs_at(net.shape.places, t);
    &net.bytes[at..at + net.shape.places]
}

// The output weights of transition t. Not one function with `inputs`: they differ in where they stand and in what is promised.
pub fn outputs<'a>(net: CheckedNet<'a>, t: usize) -> &'a [u8]
    requires { t < net.shape.transitions }
    ensures { AreWeights net.entry.shape.places ((net_of net.entry.bytes.now).gives t) result.now }
{
    let at = places::outputs_at(net.shape.places, t);
    &net.bytes[at..at + net.shape.places]
}

// The place to look at behind place p, whose weight is 0: eight places on where their weights are all 0, and else the next one.
pub fn pass_zero(weights: &[u8], p: usize) -> usize
    requires { p < length weights.now }
    ensures { result ≡ pass_zero weights.now 0 p (length weights.now) }
{
    // asked first of all the weights: a compiler then makes a loop of its own for small nets
    if weights.len() < 8 {
        return p + 1;
    }
    match weights[p..].first_chunk() {
        Some(eight) if u64::from_le_bytes(*eight) == 0 => p + 8,
        _ => p + 1,
    }
}

// The places from `at` on whose weights are above 0, each with its weight.
#[derive(Clone, Copy, Drop)]
pub struct AboveZero<'a> {
    weights: &'a [u8],
    at: usize,
}

impl<'a> AboveZero<'a> {
    // All of them.
    pub fn of(weights: &'a [u8]) -> AboveZero<'a>
        ensures { (result.weights.now ≡ weights.now) × (result.at ≡ 0) }
    {
        AboveZero { weights, at: 0 }
    }
}

impl<'a> Iterator for AboveZero<'a> {
    type Item = (usize, usize);

    ghost next_gives = { λ s r t. (t.weights ≡ s.weights) × NextAbove s.weights.now s.at r t.at };

    ghost remaining = { λ s. at_most (length s.weights.now - s.at) };

    fn next(&mut self) -> Option<(usize, usize)> {
        // by one place or by eight, which no range does
        while self.at < self.weights.len() {
            let p = self.at;
            let weight = usize::from(self.weights[p]);
            if weight != 0 {
                self.at = p + 1;
                return Some((p, weight));
            }
            self.at = pass_zero(self.weights, p);
        }
        None
    }
}
