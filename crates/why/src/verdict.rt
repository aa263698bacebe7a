// How the log ended: accepted, or refused at an event; and what the state behind the last event that was done owes.
ghost use Rattle.std.specs.Prelude.{◌≡◌, ◌-◌};
ghost use Rattle.why.specs.Report.{meaning};
ghost use Rattle.why.specs.Said.{outcome_said, why_said, lacks_said, owed_said, behind_said, verdict_said};

use crate::cursor::{Cursor, LastPart, Part, Said, VerdictPart};
use crate::phrase::{Phrase, Word};
use crate::telling::Telling;
use crate::{events, owing};
use engine::calls;
use model::answer::Refusal;

// What a number means, for a transition.
pub fn meaning(number: u8, t: usize) -> Phrase
    ensures { result ≡ meaning number t }
{
    Phrase::new(Word::Why(number), [t])
}

impl Telling<'_> {
    #[tactic(auto, unfolding(crate::specs::Said::outcome_said))]
    fn outcome(&self, cursor: Cursor) -> Said
        ensures { result ≡ outcome_said self.now.found cursor }
    {
        let told = self.found.told;
        if told.number == 0 {
            cursor.says(
                Phrase::new(Word::Accepted, [self.found.events, told.ticks]),
                Part::Verdict(VerdictPart::Owed),
            )
        } else {
            cursor.says(
                Phrase::new(Word::Refused, [told.index, told.ticks]),
                Part::Verdict(VerdictPart::Event),
            )
        }
    }

    #[tactic(auto, unfolding(crate::specs::Said::why_said))]
    fn why(&self, cursor: Cursor) -> Said
        ensures { result ≡ why_said self.now.found cursor }
    {
        let told = self.found.told;
        if told.number == u8::from(Refusal::NotEnabled(told.short)) {
            cursor.says(meaning(told.number, 0), Part::Verdict(VerdictPart::Lacks))
        } else {
            cursor.says(meaning(told.number, 0), Part::Verdict(VerdictPart::Owed))
        }
    }

    fn lacks(&self, cursor: Cursor) -> Said
        ensures { result ≡ lacks_said self.now.found cursor }
    {
        let short = self.found.told.short;
        cursor.says(
            Phrase::new(Word::Lacks, [short.place as usize, short.lacks as usize]),
            Part::Verdict(VerdictPart::Owed),
        )
    }

    // The next thing that is owed, or that there is no more.
    #[tactic(auto, unfolding(crate::specs::Said::owed_said))]
    fn owed(&self, state: &[u8], cursor: Cursor) -> Said
        ensures { result ≡ owed_said self.now.net.now state.now self.now.found cursor }
    {
        let owed = calls::owed(self.net, state);
        let next = owing::next_owed(owed.starts.word, owed.ends.word, cursor.item);
        if let Some(i) = next {
            return cursor.at_item(i + 1).behind(owing::owed_phrase(i));
        }
        let no_more = Phrase::new(Word::OwedEnd, []);
        if self.found.told.number == 0 {
            cursor.says(no_more, Part::Last(LastPart::Opening))
        } else {
            cursor.says(no_more, Part::Verdict(VerdictPart::Behind))
        }
    }

    // How many events stand behind the refused one.
    fn behind(&self, cursor: Cursor) -> Said
        ensures { result ≡ behind_said self.now.found cursor }
    {
        let count = self
            .found
            .events
            .saturating_sub(self.found.told.index)
            .saturating_sub(1);
        cursor.says(
            Phrase::new(Word::Behind, [count]),
            Part::Last(LastPart::Opening),
        )
    }

    pub(crate) fn verdict(&self, state: &[u8], cursor: Cursor, part: VerdictPart) -> Said
        ensures { result ≡ verdict_said self.now.net.now self.now.log.now state.now self.now.found cursor part }
    {
        match part {
            VerdictPart::Outcome => self.outcome(cursor),
            VerdictPart::Event => cursor.says(
                events::event_phrase(self.log, self.found.told.index),
                Part::Verdict(VerdictPart::Why),
            ),
            VerdictPart::Why => self.why(cursor),
            VerdictPart::Lacks => self.lacks(cursor),
            VerdictPart::Owed => self.owed(state, cursor),
            VerdictPart::Behind => self.behind(cursor),
        }
    }
}
