// What one event answers, done or taken back, and its number: document 01's, 24 to 27 of request W4, 28 and 29 of W5.
ghost use Rattle.std.specs.Prelude.{◌≡◌};
ghost use Rattle.model.specs.Answer.{nothing_short, number_of_barrier, number_of_refusal, short_of_refusal, number_of, short_of, number_of_standing};

// A place that lacks tokens, and how many it lacks. A byte would be enough for either; but of so small an answer the compiler makes one
// number, piece by piece, at every event.
#[derive(Clone, Copy)]
pub struct Short {
    pub place: u32,
    pub lacks: u32,
}

impl Short {
    // What is told where no place is short. Written out, and no derived `Default`: a must-fail edit tells another place here.
    pub fn nothing() -> Short
        ensures { result ≡ nothing_short }
    {
        Short { place: 0, lacks: 0 }
    }
}

// Why an event is not taken back: the reasons that are never told of an event done.
#[derive(Clone, Copy)]
pub enum Barrier {
    // 21: of a tick. A firing has age 0.
    SomeFresh,
    // 24, 25: of a start. No firing of the transition has age 0; a place would have held too many tokens.
    NoneStarted,
    PlaceOverfull,
    // 26, 27: of an end. A place has too few tokens to give back; too many firings would have had that age.
    TooFewTokens,
    CountOverfull,
}

impl From<Barrier> for u8 {
    ghost from_gives = { λ barrier number. number ≡ number_of_barrier barrier };

    fn from(barrier: Barrier) -> u8 {
        match barrier {
            Barrier::SomeFresh => 21,
            Barrier::NoneStarted => 24,
            Barrier::PlaceOverfull => 25,
            Barrier::TooFewTokens => 26,
            Barrier::CountOverfull => 27,
        }
    }
}

// Why an event is not done or not taken back.
#[derive(Clone, Copy)]
pub enum Refusal {
    // 11: the two bytes are no event.
    Malformed,
    // 12: the net has no such transition.
    NoSuchTransition,
    // 13, 29, 14: of a start. 13 tells the lowest place that is short; 29, that an end of age 1 or more is owed, which has to happen before it.
    NotEnabled(Short),
    OldEndOwed,
    CountFull,
    // 15, 28, 16, 17: of an end. 28: a start has happened in the step, and the firing is of age 1 or more.
    OutsideInterval,
    OldAfterStart,
    NoneOfThatAge,
    PlaceFull,
    // 18, 19, 20: of a tick.
    StartOwed,
    EndOwed,
    NothingRunning,
    // 21, 24 to 27: of a step back alone. It also tells 11, 12, 15, 18, 20, 28 and 29.
    OnlyBack(Barrier),
}

impl From<Refusal> for u8 {
    ghost from_gives = { λ refusal number. number ≡ number_of_refusal refusal };

    fn from(refusal: Refusal) -> u8 {
        match refusal {
            Refusal::Malformed => 11,
            Refusal::NoSuchTransition => 12,
            Refusal::NotEnabled(_) => 13,
            Refusal::OldEndOwed => 29,
            Refusal::CountFull => 14,
            Refusal::OutsideInterval => 15,
            Refusal::OldAfterStart => 28,
            Refusal::NoneOfThatAge => 16,
            Refusal::PlaceFull => 17,
            Refusal::StartOwed => 18,
            Refusal::EndOwed => 19,
            Refusal::NothingRunning => 20,
            Refusal::OnlyBack(barrier) => barrier.into(),
        }
    }
}

impl Refusal {
    // The place that is short, which 13 alone tells. Each refusal is named, so that a new one must say what it tells.
    pub fn short(self) -> Short
        ensures { result ≡ short_of_refusal self }
    {
        match self {
            Refusal::NotEnabled(short) => short,
            Refusal::Malformed
            | Refusal::NoSuchTransition
            | Refusal::OldEndOwed
            | Refusal::CountFull
            | Refusal::OutsideInterval
            | Refusal::OldAfterStart
            | Refusal::NoneOfThatAge
            | Refusal::PlaceFull
            | Refusal::StartOwed
            | Refusal::EndOwed
            | Refusal::NothingRunning
            | Refusal::OnlyBack(_) => Short::nothing(),
        }
    }
}

// The number of the answer to an event, done or taken back: 0 where nothing is refused.
pub fn number_of(answer: Result<(), Refusal>) -> u8
    ensures { result ≡ number_of answer }
{
    match answer {
        Ok(()) => 0,
        Err(why) => why.into(),
    }
}

// The place that is short, of such an answer.
pub fn short_of(answer: Result<(), Refusal>) -> Short
    ensures { result ≡ short_of answer }
{
    match answer {
        Ok(()) => Short::nothing(),
        Err(why) => why.short(),
    }
}

// How a state stands: what must happen next. The first that holds is told.
#[derive(Clone, Copy)]
pub enum Standing {
    StartOwed,
    EndOwed,
    FreeToTick,
    AtRest,
}

impl From<Standing> for u8 {
    ghost from_gives = { λ standing number. number ≡ number_of_standing standing };

    fn from(standing: Standing) -> u8 {
        match standing {
            Standing::StartOwed => 1,
            Standing::EndOwed => 2,
            Standing::FreeToTick => 3,
            Standing::AtRest => 4,
        }
    }
}
