// What is said, before it is put into words: which words, and the numbers that stand in them. The words themselves are a table of the program's.
ghost use Rattle.std.specs.Prelude.{◌≡◌, ◌≤◌};
ghost use Rattle.why.specs.Phrase.{numbers_most, phrase_of};

use phrases::wording;

#[derive(Clone, Copy)]
pub enum Word {
    First,
    Step,
    Start,
    End,
    Tick,
    NoEvent,
    Earlier,
    // How a state stands, by document 01's number.
    Stands(u8),
    Mark,
    Run,
    Others,
    Accepted,
    Refused,
    Lacks,
    StartOwed,
    EndOwed,
    Behind,
    OwedEnd,
    LastBefore,
    NoWayStarted,
    LastSame,
    LastOther,
    MarkOther,
    RunOther,
    WalkStops,
    NoWay,
    WalkEnds,
    MarkFirst,
    RunFirst,
    LastRefused,
    NetRefused,
    LogRefused,
    AcceptedEnd,
    RefusedEnd,
    // By document 01's number: what was expected, what the number means, and what it means in a walk back.
    Expected(u8),
    Why(u8),
    BackWhy(u8),
}

#[derive(Clone, Copy)]
pub struct Phrase {
    pub word: Word,
    // those that no words take are 0
    pub numbers: [usize; wording::NUMBERS_MOST],
}

impl Phrase {
    pub fn new<const N: usize>(word: Word, numbers: [usize; N]) -> Phrase
        requires { N ≤ numbers_most }
        ensures { result ≡ phrase_of word numbers.entry }
    {
        let mut all = [0; wording::NUMBERS_MOST];
        all[..N].copy_from_slice(&numbers);
        Phrase { word, numbers: all }
    }
}
