// What the calls tell beside a run and a walk (runs::told). On a refusal every field but number and index is 0,
// except the place and the shortage that 13 tells. They are numbers, and no results: the C interface hands them on, and `OnBytes` and
// `Promised` speak of them.
ghost use Rattle.std.specs.Prelude.{◌≡◌};
ghost use Rattle.engine.specs.Answers.{verdict_of, unfit, answered, event_unfit, event_answered, no_degree, owed_of, no_report, tells_step};

use forms::fault;
use forms::fault::Fault;
use model::answer;
use model::answer::{Refusal, Short};
use owed::report::{Owed, OwedSet};

// Document 01's number, and the transition for 4, 5, 6 and 9.
#[derive(Clone, Copy)]
pub struct Verdict {
    pub number: u8,
    pub index: usize,
}

// And the place that is short, which 13 alone tells.
#[derive(Clone, Copy)]
pub struct EventTold {
    pub number: u8,
    pub index: usize,
    pub short: Short,
}

// And how many times a transition is enabled.
#[derive(Clone, Copy)]
pub struct DegreeTold {
    pub number: u8,
    pub index: usize,
    pub degree: usize,
}

// And what a state owes: the starts, the ends, and document 01's number for the standing.
#[derive(Clone, Copy)]
pub struct OwedTold {
    pub number: u8,
    pub index: usize,
    pub starts: OwedSet,
    pub ends: OwedSet,
    pub standing: u8,
}

// And where a step of a log stands in it.
#[derive(Clone, Copy)]
pub struct StepTold {
    pub number: u8,
    pub index: usize,
    pub start: usize,
    pub length: usize,
}

// Of a check.
impl From<Result<(), Fault>> for Verdict {
    ghost from_gives = { λ checked told. told ≡ verdict_of checked };

    fn from(checked: Result<(), Fault>) -> Verdict {
        Verdict {
            number: fault::number_of(checked),
            index: fault::index_of(checked),
        }
    }
}

// Of what a call was given.
impl From<Fault> for Verdict {
    ghost from_gives = { λ fault told. told ≡ unfit fault };

    fn from(fault: Fault) -> Verdict {
        Verdict {
            number: fault.into(),
            index: fault.index(),
        }
    }
}

// Of a single event taken back: its index is always 0.
impl From<Result<(), Refusal>> for Verdict {
    ghost from_gives = { λ answer told. told ≡ answered answer };

    fn from(answer: Result<(), Refusal>) -> Verdict {
        Verdict {
            number: answer::number_of(answer),
            index: 0,
        }
    }
}

impl From<Fault> for EventTold {
    ghost from_gives = { λ fault told. told ≡ event_unfit fault };

    fn from(fault: Fault) -> EventTold {
        EventTold {
            number: fault.into(),
            index: fault.index(),
            short: Short::nothing(),
        }
    }
}

// Of a single event: its index is always 0.
impl From<Result<(), Refusal>> for EventTold {
    ghost from_gives = { λ answer told. told ≡ event_answered answer };

    fn from(answer: Result<(), Refusal>) -> EventTold {
        EventTold {
            number: answer::number_of(answer),
            index: 0,
            short: answer::short_of(answer),
        }
    }
}

impl From<Fault> for DegreeTold {
    ghost from_gives = { λ fault told. told ≡ no_degree fault };

    fn from(fault: Fault) -> DegreeTold {
        DegreeTold {
            number: fault.into(),
            index: fault.index(),
            degree: 0,
        }
    }
}

// Of a report.
impl From<Owed> for OwedTold {
    ghost from_gives = { λ owed told. told ≡ owed_of owed };

    fn from(owed: Owed) -> OwedTold {
        OwedTold {
            number: 0,
            index: 0,
            starts: owed.starts,
            ends: owed.ends,
            standing: owed.standing.into(),
        }
    }
}

impl From<Fault> for OwedTold {
    ghost from_gives = { λ fault told. told ≡ no_report fault };

    fn from(fault: Fault) -> OwedTold {
        let none = OwedSet {
            word: 0,
            count: 0,
            lowest: 0,
        };
        OwedTold {
            number: fault.into(),
            index: fault.index(),
            starts: none,
            ends: none,
            standing: 0,
        }
    }
}

impl StepTold {
    pub fn refused(number: u8) -> StepTold
        ensures { result ≡ tells_step number 0 0 }
    {
        StepTold {
            number,
            index: 0,
            start: 0,
            length: 0,
        }
    }
}
