// The last state: whether it is the one that the log leads to, and where a walk back from it stops or ends. And the last line of all.
ghost use Rattle.std.specs.Prelude.{◌≡◌};
ghost use Rattle.why.specs.Report.{is_good, no_way_phrase};
ghost use Rattle.why.specs.Said.{end_said, walk_said, not_fit_said, fit_opening_said, fit_said, last_said};

use crate::cursor::{Cursor, LastPart, Part, Said};
use crate::found::{LastFit, LastFound};
use crate::phrase::{Phrase, Word};
use crate::telling::Telling;
use crate::{events, verdict};
use engine::answers::Verdict;
use model::answer::Refusal;
use runs::told::WalkTold;

// No lawful state leads to the last state by the event at which the walk stopped and those behind it; where a start stands before it in its step, not
// with that start.
fn no_way(walk: WalkTold) -> Phrase
    ensures { result ≡ no_way_phrase walk }
{
    if walk.number == u8::from(Refusal::OldAfterStart) {
        Phrase::new(Word::NoWayStarted, [walk.index])
    } else {
        Phrase::new(Word::NoWay, [walk.index])
    }
}

// The walk back ends at the front of the log, or stops.
#[tactic(auto, unfolding(crate::specs::Said::walk_said))]
fn walk_back(walk: WalkTold, cursor: Cursor) -> Said
    ensures { result ≡ walk_said walk cursor }
{
    if walk.number == 0 {
        cursor.says(Phrase::new(Word::WalkEnds, []), Part::Last(LastPart::Front))
    } else {
        cursor.says(
            Phrase::new(Word::WalkStops, [walk.index]),
            Part::Last(LastPart::Event),
        )
    }
}

impl Telling<'_> {
    // The log was accepted, and the last state, where there is one, is the one that it leads to.
    fn is_good(&self) -> bool
        ensures { result ≡ is_good self.now.found }
    {
        self.found.told.number == 0
            && match self.found.last {
                LastFound::NotGiven => true,
                LastFound::NotFit { .. } => false,
                LastFound::Fit(fit) => fit.other.is_none(),
            }
    }

    // The last line.
    pub(crate) fn end(&self) -> Said
        ensures { result ≡ end_said self.now.found }
    {
        let word = if self.is_good() {
            Word::AcceptedEnd
        } else {
            Word::RefusedEnd
        };
        Said {
            phrase: Phrase::new(word, []),
            cursor: None,
        }
    }

    // It is no state of the net. (The other parts are of one that is.)
    fn not_fit(&self, check: Verdict, expected: Phrase, cursor: Cursor, part: LastPart) -> Said
        ensures { result ≡ not_fit_said self.now.found check expected cursor part }
    {
        match part {
            LastPart::Opening => cursor.says(
                Phrase::new(Word::LastRefused, []),
                Part::Last(LastPart::Check),
            ),
            LastPart::Check => cursor.says(
                verdict::meaning(check.number, check.index),
                Part::Last(LastPart::Expected),
            ),
            LastPart::Expected => cursor.says(expected, Part::End),
            _ => self.end(),
        }
    }

    // A state of the net: the log leads to it, or to another; or it was refused, just behind it or elsewhere.
    #[tactic(auto, unfolding(crate::specs::Said::fit_opening_said))]
    fn fit_opening(&self, fit: LastFit, cursor: Cursor) -> Said
        ensures { result ≡ fit_opening_said self.now.found fit cursor }
    {
        match (self.found.told.number, fit.other) {
            (0, None) => cursor.says(Phrase::new(Word::LastSame, []), Part::End),
            (0, Some(_)) => cursor.says(
                Phrase::new(Word::LastOther, []),
                Part::Last(LastPart::Other),
            ),
            (_, None) => cursor.says(
                Phrase::new(Word::LastBefore, []),
                Part::Last(LastPart::Walk),
            ),
            (_, Some(_)) => walk_back(fit.walk, cursor),
        }
    }

    // It is one. (The other parts are of one that is not.)
    fn fit(&self, fit: LastFit, cursor: Cursor, part: LastPart) -> Said
        ensures { result ≡ fit_said self.now.log.now self.now.found fit cursor part }
    {
        let walk = fit.walk;
        match part {
            LastPart::Opening => self.fit_opening(fit, cursor),
            LastPart::Other => match fit.other {
                Some(other) => cursor.says(other, Part::Last(LastPart::Walk)),
                None => walk_back(walk, cursor),
            },
            LastPart::Walk => walk_back(walk, cursor),
            LastPart::Event => cursor.says(
                events::event_phrase(self.log, walk.index),
                Part::Last(LastPart::Why),
            ),
            LastPart::Why => cursor.says(
                Phrase::new(Word::BackWhy(walk.number), []),
                Part::Last(LastPart::NoWay),
            ),
            LastPart::NoWay => cursor.says(no_way(walk), Part::End),
            LastPart::Front => match fit.front {
                Some(front) => cursor.says(front, Part::End),
                None => self.end(),
            },
            _ => self.end(),
        }
    }

    pub(crate) fn last(&self, cursor: Cursor, part: LastPart) -> Said
        ensures { result ≡ last_said self.now.log.now self.now.found cursor part }
    {
        match self.found.last {
            LastFound::NotGiven => self.end(),
            LastFound::NotFit { check, expected } => self.not_fit(check, expected, cursor, part),
            LastFound::Fit(fit) => self.fit(fit, cursor, part),
        }
    }
}
