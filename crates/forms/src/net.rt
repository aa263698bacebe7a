// The check of a net's bytes, numbers 1 to 6, and the shape of a checked net.
ghost use Rattle.std.specs.Prelude.{◌≡◌, ◌+◌, ◌<◌, ◌≤◌, length};
ghost use Rattle.forms.specs.Word.{byte};
ghost use Rattle.forms.specs.Places.{row_at, row_length};
ghost use Rattle.forms.specs.Stored.{net_of};
ghost use Rattle.forms.specs.Nets.{IsNet, has_net_head, has_some_weight, check_row, check_net};
ghost use Rattle.forms.specs.Checked.{in_turn};
ghost use Rattle.forms.specs.Frame.{HasShape};

use crate::fault::Fault;
use crate::{begins, places, words};
use model::net::Net;

// At least 7 bytes, version 1, and the length is the slice's.
#[tactic(auto, unfolding(crate::specs::Nets::has_net_head))]
fn has_head(net: &[u8]) -> bool
    ensures { result ≡ has_net_head net.now }
{
    7 <= net.len() && begins::begins(net, net.len())
}

// Some weight is above 0.
fn some_weight(weights: &[u8]) -> bool
    ensures { result ≡ has_some_weight (length weights.now) (byte weights.now) }
{
    weights.iter().any(|weight| *weight != 0)
}

// Transition t: its interval, its input weights, its output weights.
#[tactic(auto, using(crate::proofs::Rows::weights_within), unfolding(crate::specs::Nets::check_row, crate::specs::Stored::net_of))]
fn check_row(net: &[u8], t: usize) -> Result<(), Fault>
    requires { (7 ≤ length net.now) × (t < 256) × (row_at (byte net.now 5) t + row_length (byte net.now 5) ≤ length net.now) }
    ensures { result ≡ check_row (net_of net.now) t }
{
    let places = usize::from(net[places::PLACES_AT]);
    let sfd = usize::from(net[places::row_at(places, t)]);
    let lfd = usize::from(net[places::lfd_at(places, t)]);
    if !Net::is_interval(sfd, lfd) {
        return Err(Fault::NoInterval(t));
    }
    if !some_weight(&net[places::inputs_at(places, t)..][..places]) {
        return Err(Fault::NoInput(t));
    }
    if !some_weight(&net[places::outputs_at(places, t)..][..places]) {
        return Err(Fault::NoOutput(t));
    }
    Ok(())
}

// The longest duration of transition t. The bound leaves room for every width that fits its byte.
#[tactic(auto, unfolding(crate::specs::Stored::net_of))]
fn lfd(net: &[u8], t: usize) -> usize
    requires { IsNet net.now × (t < byte net.now 6) }
    ensures { (result ≡ (net_of net.now).lfd t) × (result < 255) }
{
    usize::from(net[places::lfd_at(usize::from(net[places::PLACES_AT]), t)])
}

// The shape of a checked net: its width is one more than the longest duration.
pub fn shape_of(net: &[u8]) -> Net
    requires { IsNet net.now }
    ensures { HasShape (net_of net.now) result }
{
    let places = usize::from(net[places::PLACES_AT]);
    let transitions = usize::from(net[places::TRANSITIONS_AT]);
    let longest = (0..transitions).map(|t| lfd(net, t)).max().unwrap_or(0);
    Net::new(places, transitions, longest + 1)
}

// Checks the bytes of a net: its head, its size, its length, and the transitions in turn, from the lowest.
#[tactic(auto, using(crate::proofs::Rows::row_within, crate::proofs::Turns::turns), unfolding(crate::specs::Nets::check_net, crate::specs::Nets::has_net_head))]
pub fn check_net(net: &[u8]) -> Result<(), Fault>
    ensures { result ≡ check_net net.now }
{
    if !has_head(net) {
        return Err(Fault::NetFrame);
    }
    let places = usize::from(net[places::PLACES_AT]);
    let transitions = usize::from(net[places::TRANSITIONS_AT]);
    if !Net::sized(places, transitions) {
        return Err(Fault::NetSize);
    }
    if net.len() != places::row_at(places, transitions) {
        return Err(Fault::NetLength);
    }
    for t in 0..transitions {
        check_row(net, t)?;
    }
    Ok(())
}
