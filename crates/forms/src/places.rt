// Where things stand in the stored forms, behind their heads of fixed bytes. Each place has one definition and one function; products
// stand here alone.
ghost use Rattle.std.specs.Prelude.{◌≡◌, ◌*◌, ◌<◌, ◌≤◌};
ghost use Rattle.forms.specs.Places.{initial_at, row_at, lfd_at, inputs_at, outputs_at, mark_at, clock_at, count_at, state_length};

use model::age::Column;
use model::net::Net;

// The bytes of a head behind version and length: P and T of a net or a state, and D of a state.
pub const PLACES_AT: usize = 5;

pub const TRANSITIONS_AT: usize = 6;

pub const WIDTH_AT: usize = 7;

// The events follow the fifth byte of a log.
pub const EVENTS_AT: usize = 5;

// The longest lawful net, state and log, for who lends a buffer.
pub const LONGEST_NET: usize = 7
    + 2 * Net::MAX_PLACES
    + Net::MAX_TRANSITIONS * (2 + 2 * Net::MAX_PLACES);

pub const LONGEST_STATE: usize = 8
    + 2 * Net::MAX_PLACES
    + 2 * Net::MAX_TRANSITIONS * (Net::MAX_DURATION + 1);

pub const LONGEST_LOG: usize = EVENTS_AT + 2 * Net::MAX_EVENTS;

// Where the initial marking of place p stands in a net.
pub fn initial_at(p: usize) -> usize
    requires { p < 256 }
    ensures { result ≡ initial_at p }
{
    7 + 2 * p
}

// Where the bytes of transition t begin in a net of so many places: its sfd. The net ends where another would begin.
#[tactic(auto, unfolding(crate::specs::Places::row_at))]
pub fn row_at(places: usize, t: usize) -> usize
    requires { (places < 256) × (t < 256) }
    ensures { (result ≡ row_at places t) × (result < 262144) }
{
    7 + 2 * places + t * (2 + 2 * places)
}

// Where the lfd of transition t stands.
pub fn lfd_at(places: usize, t: usize) -> usize
    requires { (places < 256) × (t < 256) }
    ensures { result ≡ lfd_at places t }
{
    row_at(places, t) + 1
}

// Where the input weights of transition t begin.
pub fn inputs_at(places: usize, t: usize) -> usize
    requires { (places < 256) × (t < 256) }
    ensures { result ≡ inputs_at places t }
{
    row_at(places, t) + 2
}

// Where the output weights of transition t begin.
pub fn outputs_at(places: usize, t: usize) -> usize
    requires { (places < 256) × (t < 256) }
    ensures { result ≡ outputs_at places t }
{
    row_at(places, t) + 2 + places
}

// Where the marking of place p stands in a state.
pub fn mark_at(p: usize) -> usize
    requires { p < 256 }
    ensures { result ≡ mark_at p }
{
    8 + 2 * p
}

// Where the counts begin in a state: behind the markings.
pub fn clock_at(places: usize) -> usize
    requires { places < 256 }
    ensures { result ≡ clock_at places }
{
    mark_at(places)
}

// How many counts a state has.
pub fn cells(shape: Net) -> usize
    requires { (shape.transitions < 256) × (shape.width ≤ 256) }
    ensures { (result ≡ shape.transitions * shape.width) × (result < 131072) }
{
    shape.transitions * shape.width
}

// Where the count of transition t in a column stands in a state.
#[tactic(auto, unfolding(crate::specs::Places::count_at))]
pub fn count_at(shape: Net, t: usize, column: Column) -> usize
    requires { (shape.places < 256) × (shape.width ≤ 256) × (t < 256) × (0 < column.0) × (column.0 ≤ 256) }
    ensures { result ≡ count_at shape.places shape.width t column }
{
    clock_at(shape.places) + 2 * (t * shape.width + column.age().0 as usize)
}

// How long a state is.
#[tactic(auto, unfolding(crate::specs::Places::state_length))]
pub fn state_length(shape: Net) -> usize
    requires { (shape.places < 256) × (shape.transitions < 256) × (shape.width ≤ 256) }
    ensures { (result ≡ state_length shape.places shape.transitions shape.width) × (result < 524288) }
{
    clock_at(shape.places) + 2 * cells(shape)
}
