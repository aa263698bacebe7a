// The calls that can be asked for, with their numbers (docs/ASK.md).

// `started` says whether a start has happened in the step.
#[derive(Clone, Copy)]
pub enum Call {
    CheckNet,
    Initial,
    CheckState,
    Event {
        first: u8,
        second: u8,
        started: bool,
    },
    Back {
        first: u8,
        second: u8,
        started: bool,
    },
    Degree {
        transition: usize,
    },
    Owed,
    Run {
        started: bool,
    },
    Walk {
        events: usize,
        started: bool,
    },
    Step {
        step: usize,
    },
    Page {
        budget: usize,
    },
    Balance,
}
