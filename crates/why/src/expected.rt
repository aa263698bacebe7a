// A net or a log that is refused: its number, what that means, and what was expected.
ghost use Rattle.std.specs.Prelude.{◌≡◌, ◌+◌, ◌<◌, length};
ghost use Rattle.forms.specs.Word.{byte};
ghost use Rattle.why.specs.Phrase.{phrase};
ghost use Rattle.why.specs.State.{length_field};
ghost use Rattle.why.specs.Report.{row_of, expected_of, fault_opening};
ghost use Rattle.why.specs.Said.{fault_said};

use crate::cursor::{Cursor, FaultPart, Part, Said};
use crate::phrase::{Phrase, Word};
use crate::telling::Telling;
use crate::{bytes, verdict};
use forms::places;

// The numbers of forms' faults: patterns take constants, and no constant's value may call `from`.
const NET_FRAME: u8 = 1;

const NET_SIZE: u8 = 2;

const NET_LENGTH: u8 = 3;

const LOG_FRAME: u8 = 10;

// Where the row of a transition begins in the net.
fn row_of(net: &[u8], t: usize) -> usize
    ensures { (result ≡ row_of net.now t) × (result < 262144) }
{
    places::row_at(bytes::byte_of(net, places::PLACES_AT), t.min(255))
}

// A form's length, what its length field says, and its version.
fn frame(word: Word, form: &[u8]) -> Phrase
    ensures { result ≡ phrase word (length form.now) (length_field form.now) (byte form.now 0) 0 }
{
    Phrase::new(
        word,
        [
            form.len(),
            bytes::length_field(form),
            bytes::byte_of(form, 0),
        ],
    )
}

impl Telling<'_> {
    #[tactic(auto, unfolding(crate::specs::Report::expected_of))]
    fn expected(&self) -> Phrase
        ensures { result ≡ expected_of self.now.net.now self.now.log.now self.now.found.told.number self.now.found.told.index }
    {
        let net = self.net;
        let t = self.found.told.index;
        let number = self.found.told.number;
        let word = Word::Expected(number);
        let places = bytes::byte_of(net, places::PLACES_AT);
        let transitions = bytes::byte_of(net, places::TRANSITIONS_AT);
        match number {
            LOG_FRAME => frame(word, self.log),
            NET_FRAME => frame(word, net),
            NET_SIZE => Phrase::new(word, [places, transitions]),
            NET_LENGTH => Phrase::new(
                word,
                [
                    places::row_at(places, transitions),
                    places,
                    transitions,
                    net.len(),
                ],
            ),
            _ => {
                let row = row_of(net, t);
                let sfd = bytes::byte_of(net, row);
                let lfd = bytes::byte_of(net, row + 1);
                Phrase::new(word, [t, sfd, lfd])
            }
        }
    }

    fn fault_opening(&self) -> Phrase
        ensures { result ≡ fault_opening self.now.found }
    {
        if self.found.told.number == LOG_FRAME {
            Phrase::new(Word::LogRefused, [])
        } else {
            Phrase::new(Word::NetRefused, [])
        }
    }

    pub(crate) fn fault(&self, cursor: Cursor, part: FaultPart) -> Said
        ensures { result ≡ fault_said self.now.net.now self.now.log.now self.now.found cursor part }
    {
        let told = self.found.told;
        match part {
            FaultPart::Opening => cursor.says(self.fault_opening(), Part::Fault(FaultPart::Why)),
            FaultPart::Why => cursor.says(
                verdict::meaning(told.number, told.index),
                Part::Fault(FaultPart::Expected),
            ),
            FaultPart::Expected => cursor.says(self.expected(), Part::End),
        }
    }
}
