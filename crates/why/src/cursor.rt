// How far the telling has come. Every call of `Telling::next` tells one phrase and moves on.
ghost use Rattle.std.specs.Prelude.{◌≡◌};
ghost use Rattle.why.specs.Said.{said, go_to, at_item, opens};

use crate::phrase::Phrase;

// Of a step: that earlier ones are not shown; its opening; its events, and how the state behind it stands; what that state holds.
#[derive(Clone, Copy)]
pub enum StepPart {
    Earlier,
    Open,
    Events,
    State,
}

// Of how the log ended: whether it was accepted; the refused event, and why; the place that is short; what is owed; the events behind it.
#[derive(Clone, Copy)]
pub enum VerdictPart {
    Outcome,
    Event,
    Why,
    Lacks,
    Owed,
    Behind,
}

// Of the last state: whether it fits; where it differs; the walk back from it; where that ends.
#[derive(Clone, Copy)]
pub enum LastPart {
    Opening,
    Check,
    Expected,
    Other,
    Walk,
    Event,
    Why,
    NoWay,
    Front,
}

// Of a net or a log that is refused.
#[derive(Clone, Copy)]
pub enum FaultPart {
    Opening,
    Why,
    Expected,
}

#[derive(Clone, Copy)]
pub enum Part {
    Step(StepPart),
    Verdict(VerdictPart),
    Last(LastPart),
    Fault(FaultPart),
    // The last line.
    End,
}

// The part, the step and the item within it that are to come; how many events have been fed, and whether a start has happened in the step of the
// state that they led to.
#[derive(Clone, Copy)]
pub struct Cursor {
    pub part: Part,
    pub step: usize,
    pub item: usize,
    pub fed: usize,
    pub started: bool,
}

// A phrase, and where to go on, if more is left to be told.
#[derive(Clone, Copy)]
pub struct Said {
    pub phrase: Phrase,
    pub cursor: Option<Cursor>,
}

impl Cursor {
    // The front of another part.
    pub(crate) fn go_to(self, part: Part) -> Cursor
        ensures { result ≡ go_to self part }
    {
        Cursor {
            part,
            item: 0,
            ..self
        }
    }

    // An item of the same part.
    pub(crate) fn at_item(self, item: usize) -> Cursor
        ensures { result ≡ at_item self item }
    {
        Cursor { item, ..self }
    }

    // The opening of a step.
    pub(crate) fn opens(self, step: usize) -> Cursor
        ensures { result ≡ opens self step }
    {
        Cursor {
            part: Part::Step(StepPart::Open),
            step,
            item: 0,
            ..self
        }
    }

    // A phrase, and the front of another part behind it.
    pub(crate) fn says(self, phrase: Phrase, part: Part) -> Said
        ensures { result ≡ said phrase (go_to self part) }
    {
        self.go_to(part).behind(phrase)
    }

    // A phrase, behind which the telling goes on here.
    pub(crate) fn behind(self, phrase: Phrase) -> Said
        ensures { result ≡ said phrase self }
    {
        Said {
            phrase,
            cursor: Some(self),
        }
    }
}
