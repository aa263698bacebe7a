// The initial state, number 7.
ghost use Rattle.std.specs.Prelude.{◌≡◌, ◌<◌, ◌≤◌, length};
ghost use Rattle.forms.specs.Word.{word, put_words};
ghost use Rattle.forms.specs.Places.{initial_at, mark_at};
ghost use Rattle.forms.specs.Stored.{net_of};
ghost use Rattle.forms.specs.Written.{headed, check_room, after_initial};

use crate::checked::CheckedNet;
use crate::fault::Fault;
use crate::{begins, places, words};
use model::net::Net;

// Version, length, P, T, D.
#[tactic(auto, unfolding(crate::specs::Written::headed))]
fn write_head(shape: Net, state: &mut [u8])
    requires { (shape.places < 256) × (shape.transitions < 256) × (shape.width < 256) × (8 ≤ length state.old) }
    ensures { state.new ≡ headed shape.places shape.transitions shape.width state.old }
{
    state[0] = begins::VERSION;
    state[places::PLACES_AT] = shape.places as u8;
    state[places::TRANSITIONS_AT] = shape.transitions as u8;
    state[places::WIDTH_AT] = shape.width as u8;
    words::write32(state, 1, places::state_length(shape));
}

// The net's initial marking.
fn write_marking(net: &[u8], places: usize, state: &mut [u8])
    requires { (places < 256) × (initial_at places ≤ length net.now) × (mark_at places ≤ length state.old) }
    ensures { state.new ≡ put_words 8 places (λ p. word net.now (initial_at p)) state.old }
{
    let marks = places::mark_at(0)..places::mark_at(places);
    let initials = places::initial_at(0)..places::initial_at(places);
    state[marks].copy_from_slice(&net[initials]);
}

// Writes the whole image of the initial state at the front of the buffer, where there is room.
#[tactic(auto, using(crate::proofs::CheckedNets::limits), unfolding(crate::specs::Places::state_length))]
pub fn initial(net: CheckedNet, state: &mut [u8]) -> Result<(), Fault>
    ensures { (result ≡ check_room (net_of net.entry.bytes.now) state.old) × (state.new ≡ after_initial (net_of net.entry.bytes.now) state.old) }
{
    let shape = net.shape;
    if state.len() < places::state_length(shape) {
        return Err(Fault::NoRoom);
    }
    write_head(shape, state);
    write_marking(net.bytes, shape.places, state);
    words::clear(state, places::clock_at(shape.places), places::cells(shape));
    Ok(())
}
