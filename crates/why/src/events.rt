// An event of a log, as a phrase.
ghost use Rattle.std.specs.Prelude.{◌≡◌};
ghost use Rattle.model.specs.Event.{event_of};
ghost use Rattle.why.specs.Report.{say_event, event_phrase};

use crate::bytes;
use crate::phrase::{Phrase, Word};
use forms::places;
use model::event::{Event, Pair};

fn say(pair: Pair) -> Phrase
    ensures { result ≡ say_event (event_of pair.first pair.second) pair.first pair.second }
{
    match Event::from(pair) {
        Event::Tick => Phrase::new(Word::Tick, []),
        Event::Start(t) => Phrase::new(Word::Start, [t]),
        Event::End(t, age) => Phrase::new(Word::End, [t, usize::from(age.0)]),
        Event::Malformed => Phrase::new(
            Word::NoEvent,
            [usize::from(pair.first), usize::from(pair.second)],
        ),
    }
}

// Event i of the log. (Where there is none its bytes are 0.)
#[tactic(auto, unfolding(crate::specs::Report::event_phrase))]
pub fn event_phrase(log: &[u8], i: usize) -> Phrase
    ensures { result ≡ event_phrase log.now i }
{
    if log.len() / 2 <= i {
        return Phrase::new(Word::Tick, []);
    }
    let at = places::EVENTS_AT + 2 * i;
    say(Pair {
        first: bytes::byte_of(log, at) as u8,
        second: bytes::byte_of(log, at + 1) as u8,
    })
}
