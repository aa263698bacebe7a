// The shape of a net, and the limits of document 01: each is stated here once. specs/Limits.antt states them for the definitions;
// the contract of each function that uses one holds the two together.
ghost use Rattle.std.specs.Prelude.{◌≡◌};
ghost use Rattle.model.specs.Limits.{shape_of, is_sized, is_interval, is_logged, is_held};

// How many places and transitions a net has, and how wide its clock matrix is.
#[derive(Clone, Copy)]
pub struct Net {
    pub places: usize,
    pub transitions: usize,
    pub width: usize,
}

impl Net {
    pub const MAX_PLACES: usize = 64;

    pub const MAX_TRANSITIONS: usize = 64;

    pub const MAX_DURATION: usize = 63;

    pub const MAX_EVENTS: usize = 24_000;

    pub const MAX_TOKENS: usize = 65_535;

    pub fn new(places: usize, transitions: usize, width: usize) -> Self
        ensures { result ≡ shape_of places transitions width }
    {
        Self {
            places,
            transitions,
            width,
        }
    }

    // A net may have so many places and transitions.
    pub fn sized(places: usize, transitions: usize) -> bool
        ensures { result ≡ is_sized places transitions }
    {
        (1..=Net::MAX_PLACES).contains(&places) && (1..=Net::MAX_TRANSITIONS).contains(&transitions)
    }

    // A transition may have these shortest and longest durations.
    pub fn is_interval(sfd: usize, lfd: usize) -> bool
        ensures { result ≡ is_interval sfd lfd }
    {
        sfd <= lfd && lfd <= Net::MAX_DURATION
    }

    // A log may have so many events.
    pub fn logged(events: usize) -> bool
        ensures { result ≡ is_logged events }
    {
        events <= Net::MAX_EVENTS
    }

    // A place, or a count, may hold so many.
    pub fn held(tokens: usize) -> bool
        ensures { result ≡ is_held tokens }
    {
        tokens <= Net::MAX_TOKENS
    }
}
