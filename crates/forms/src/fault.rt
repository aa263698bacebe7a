// What a check answers, and the numbers and indices of document 01.
ghost use Rattle.std.specs.Prelude.{◌≡◌};
ghost use Rattle.forms.specs.Checked.{number_of, index_of, number_of_fault, index_of_fault};

// What is wrong with the bytes of a net, a state or a log. A transition is told where one is at fault.
#[derive(Clone, Copy)]
pub enum Fault {
    // 1: a net's version or length.
    NetFrame,
    // 2: P or T.
    NetSize,
    // 3: a net's length is not the formula's.
    NetLength,
    // 4, 5, 6: of a transition.
    NoInterval(usize),
    NoInput(usize),
    NoOutput(usize),
    // 7: the buffer is shorter than the initial state.
    NoRoom,
    // 8: a state's version, length, P, T or D, or a buffer that is too short for it.
    StateFrame,
    // 9: a count above its transition's lfd.
    PastLfd(usize),
    // 10: a log's version or length, half an event, or too many events.
    LogFrame,
}

impl From<Fault> for u8 {
    ghost from_gives = { λ fault number. number ≡ number_of_fault fault };

    fn from(fault: Fault) -> u8 {
        match fault {
            Fault::NetFrame => 1,
            Fault::NetSize => 2,
            Fault::NetLength => 3,
            Fault::NoInterval(_) => 4,
            Fault::NoInput(_) => 5,
            Fault::NoOutput(_) => 6,
            Fault::NoRoom => 7,
            Fault::StateFrame => 8,
            Fault::PastLfd(_) => 9,
            Fault::LogFrame => 10,
        }
    }
}

impl Fault {
    // The transition at fault, or 0 where none is told, which the C interface has for its index. Each fault is named, so that a new one
    // must say what it tells.
    pub fn index(self) -> usize
        ensures { result ≡ index_of_fault self }
    {
        match self {
            Fault::NoInterval(t) | Fault::NoInput(t) | Fault::NoOutput(t) | Fault::PastLfd(t) => t,
            Fault::NetFrame
            | Fault::NetSize
            | Fault::NetLength
            | Fault::NoRoom
            | Fault::StateFrame
            | Fault::LogFrame => 0,
        }
    }
}

// The number that a check tells: 0 where nothing is wrong.
pub fn number_of(checked: Result<(), Fault>) -> u8
    ensures { result ≡ number_of checked }
{
    match checked {
        Ok(()) => 0,
        Err(fault) => fault.into(),
    }
}

// And its index.
pub fn index_of(checked: Result<(), Fault>) -> usize
    ensures { result ≡ index_of checked }
{
    match checked {
        Ok(()) => 0,
        Err(fault) => fault.index(),
    }
}
