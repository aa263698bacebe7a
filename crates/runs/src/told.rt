// What a run and what a walk back tells: numbers, as the C interface hands them on, whether a fault, a refusal or nothing stopped it.
ghost use Rattle.std.specs.Prelude.{◌≡◌};
ghost use Rattle.runs.specs.Runs.{run_fault, walk_fault};

use forms::fault::Fault;
use model::answer::Short;

// Of a run: document 01's number and index, how many events were done, how many of them were ticks, the place that is short, which 13
// alone tells, and whether a start has happened in the step of the state that is left, which is false for 1 to 10. The index is the event refused;
// the transition for 4, 5, 6 and 9; of an accepted run the number of events; and else 0.
#[derive(Clone, Copy)]
pub struct RunTold {
    pub number: u8,
    pub index: usize,
    pub done: usize,
    pub ticks: usize,
    pub short: Short,
    pub started: bool,
}

// Of a walk back: number and index, how many events were taken back, and how many of them were ticks. The index is the
// event refused, counted from the log's front; the transition for 4, 5, 6 and 9; of an accepted walk the number of events that were not taken
// back; and else 0.
#[derive(Clone, Copy)]
pub struct WalkTold {
    pub number: u8,
    pub index: usize,
    pub done: usize,
    pub ticks: usize,
}

// Of what a call was given: nothing was done.
impl From<Fault> for RunTold {
    ghost from_gives = { λ fault told. told ≡ run_fault fault };

    fn from(fault: Fault) -> RunTold {
        RunTold {
            number: fault.into(),
            index: fault.index(),
            done: 0,
            ticks: 0,
            short: Short::nothing(),
            started: false,
        }
    }
}

impl From<Fault> for WalkTold {
    ghost from_gives = { λ fault told. told ≡ walk_fault fault };

    fn from(fault: Fault) -> WalkTold {
        WalkTold {
            number: fault.into(),
            index: fault.index(),
            done: 0,
            ticks: 0,
        }
    }
}
