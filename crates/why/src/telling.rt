// The telling, phrase by phrase: what is found out first, where it begins, and what comes next.
ghost use Rattle.std.specs.Prelude.{◌≡◌, ◌≤◌, length};
ghost use Rattle.std.specs.Option.{option_copied_mut};
ghost use Rattle.replay.specs.Replayed.{longest_state};
ghost use Rattle.why.specs.Found.{found_of, found_state, left_behind, last_left};
ghost use Rattle.why.specs.Said.{telling, about, begun, Reached};
ghost use Rattle.why.specs.Said.{from_step, beginning, StepsFrom, StepsTo, GoesOn, Somewhere, TellsOn};

use crate::cursor::{Cursor, FaultPart, Part, Said, StepPart};
use crate::found;
use crate::found::{Found, LastFound, Wish};
use crate::phrase::{Phrase, Word};
use engine::calls;
use replay::input;

// What is told of: a net and a log, what was found out of them, and what is asked to be shown.
#[derive(Clone, Copy)]
pub struct Telling<'a> {
    pub net: &'a [u8],
    pub log: &'a [u8],
    pub found: Found,
    pub wish: Wish,
}

// A telling, and where it begins.
#[derive(Clone, Copy)]
pub struct Begun<'a> {
    pub telling: Telling<'a>,
    pub cursor: Cursor,
}

// How many steps are shown where not all are asked for.
pub const FEW: usize = 3;

// Finds out what is to be told, and where the telling begins. The initial state stands in `state` then. There is room for every state, so that
// what is refused is the net or the log. (The option is matched here: of one that is passed on whole nothing would be known at the end.)
#[tactic(auto, unfolding(crate::specs::Found::found_of, crate::specs::Found::found_state, crate::specs::Found::last_found, crate::specs::Found::state_left))]
pub fn begin<'a>(
    net: &'a [u8],
    log: &'a [u8],
    state: &mut [u8],
    last: Option<&mut [u8]>,
    wish: Wish,
) -> Begun<'a>
    requires { longest_state ≤ length state.old }
    ensures value { result ≡ begun (telling net.entry log.entry (found_of net.now log.now state.old (option_copied_mut last.entry)) wish) }
    ensures state_after { state.new ≡ found_state net.now log.now state.old (option_copied_mut last.entry) }
    ensures last_after { left_behind last.exit ≡ last_left net.now log.now (option_copied_mut last.entry) }
    ensures reached { Reached (about result.telling state.new) state.new result.cursor }
{
    calls::initial(net, state);
    let told = calls::run(net, state, log, false);
    let last = match last {
        None => LastFound::NotGiven,
        Some(last) => found::look_back(net, log, state, last),
    };
    calls::initial(net, state);
    let events = found::events_in(log);
    let found = Found { told, events, last };
    let telling = Telling {
        net,
        log,
        found,
        wish,
    };
    Begun {
        telling,
        cursor: telling.beginning(),
    }
}

impl Telling<'_> {
    // The first step that is shown.
    #[tactic(auto, unfolding(crate::specs::Said::from_step))]
    fn from_step(&self) -> usize
        ensures { result ≡ from_step self.now.found self.now.wish }
    {
        if self.wish.all {
            0
        } else {
            self.found.told.ticks.saturating_sub(FEW - 1)
        }
    }

    // Where the telling begins: with a fault of the net or of the log, with the steps that are not shown, or with the first step.
    #[tactic(auto, unfolding(crate::specs::Said::beginning))]
    fn beginning(&self) -> Cursor
        ensures { result ≡ beginning self.now.found self.now.wish }
    {
        let step = self.from_step();
        let part = if input::is_early(self.found.told.number) {
            Part::Fault(FaultPart::Opening)
        } else if 0 < step {
            Part::Step(StepPart::Earlier)
        } else {
            Part::Step(StepPart::Open)
        };
        Cursor {
            part,
            step,
            item: 0,
            fed: 0,
            started: false,
        }
    }

    fn step(&self, state: &mut [u8], portion: &mut [u8], cursor: Cursor, part: StepPart) -> Said
        requires steps_from { StepsFrom self.now state.old cursor part }
        requires log_in_bounds { length self.now.log.now ≤ length portion.old }
        ensures steps_to { StepsTo self.now state.old portion.old cursor part result state.new portion.new }
        ensures portion_len_unchanged { length portion.new ≡ length portion.old }
    {
        match part {
            StepPart::Earlier => cursor
                .opens(cursor.step)
                .behind(Phrase::new(Word::Earlier, [cursor.step])),
            StepPart::Open => self.open(state, portion, cursor),
            StepPart::Events => self.events(state, cursor),
            StepPart::State => self.holds(state, cursor),
        }
    }

    // The next phrase.
    pub fn next(&self, state: &mut [u8], portion: &mut [u8], cursor: Cursor) -> Said
        requires somewhere { Somewhere self.now cursor state.old }
        requires log_in_bounds { length self.now.log.now ≤ length portion.old }
        ensures goes_on { GoesOn self.now state.old portion.old cursor cursor.part result state.new portion.new }
        ensures tells_on { TellsOn self.now cursor state.old result state.new }
        ensures portion_len_unchanged { length portion.new ≡ length portion.old }
    {
        match cursor.part {
            Part::Step(part) => self.step(state, portion, cursor, part),
            Part::Verdict(part) => self.verdict(state, cursor, part),
            Part::Last(part) => self.last(cursor, part),
            Part::Fault(part) => self.fault(cursor, part),
            Part::End => self.end(),
        }
    }
}
