// The words of each phrase. A capital letter stands for a number: A, B, C and D for the first to the fourth, P for the first with the
// name of that place, T with the name of that transition. Line ends are part of the words.
ghost use Rattle.std.specs.Prelude.{◌+◌, ◌≤◌, ◌≡◌, length};
ghost use Rattle.menuwhy.specs.Room.{words_most, phrase_most};

use phrases::wording;
use why::phrase::{Phrase, Word};

// No words have more bytes than this.
const WORDS_MOST: usize = 256;

// And each of these takes at most so many in the buffer.
pub const PHRASE_MOST: usize = WORDS_MOST * wording::PIECE_MOST;

// How a state stands.
fn stands(number: u8) -> &'static [u8]
    ensures { length result.now ≤ words_most }
{
    match number {
        1 => b"a start is owed\n",
        2 => b"an end is owed\n",
        3 => b"running, and free to tick\n",
        4 => b"at rest\n",
        _ => b"",
    }
}

// What was expected of a net, a state or a log that is refused.
fn expected(number: u8) -> &'static [u8]
    ensures { length result.now ≤ words_most }
{
    match number {
        1 => b"  the file has A bytes; its version is C, and its length field says B\n",
        2 => b"  it says places A, transitions B; each is 1 to 64\n",
        3 => b"  expected: A bytes, for places B, transitions C; the file has D\n",
        4 => b"  transition T: sfd B, lfd C; an lfd is at most 63\n",
        5 => b"  expected: an input weight above 0\n",
        6 => b"  expected: an output weight above 0\n",
        8 | 9 => b"  expected: bytes A, places B, transitions C, ages D\n",
        10 =>
            b"  the file has A bytes; its version is C, and its length field says B; a log has 5, and 2 for each event\n",
        _ => b"",
    }
}

// What the numbers mean.
fn meaning(number: u8) -> &'static [u8]
    ensures { length result.now ≤ words_most }
{
    match number {
        // of nets, states and logs
        1 => b"1: a net has at least 7 bytes, version 1 and its own length in its length field\n",
        2 => b"2: a net has 1 to 64 places and 1 to 64 transitions\n",
        3 => b"3: a net is as long as its places and transitions ask for\n",
        4 => b"4: transition T has an lfd that is below its sfd, or too long\n",
        5 => b"5: transition T takes no token from any place\n",
        6 => b"6: transition T gives no token to any place\n",
        8 =>
            b"8: version, length, places, transitions or ages are not those of a state of this net\n",
        9 => b"9: transition T has a firing that is older than its lfd\n",
        10 =>
            b"10: a log has version 1, its own length in its length field, whole events, and at most 24000 of them\n",
        // of events
        11 => b"11: these bytes are no event\n",
        12 => b"12: the net has no such transition\n",
        13 => b"13: it is not enabled\n",
        14 => b"14: 65535 firings of it have age 0 already\n",
        15 => b"15: the age is below its sfd or above its lfd\n",
        16 => b"16: no firing of it has that age\n",
        17 => b"17: a place would hold more than 65535 tokens\n",
        18 => b"18: no tick may pass while a start is owed\n",
        19 => b"19: no tick may pass while an end is owed\n",
        20 => b"20: no tick may pass where nothing runs\n",
        28 => b"28: a firing of age 1 or more may not end behind a start of its step\n",
        29 => b"29: no start may happen while a firing of age 1 or more is at its lfd\n",
        _ => b"",
    }
}

// What they mean in a walk back.
fn back_meaning(number: u8) -> &'static [u8]
    ensures { length result.now ≤ words_most }
{
    match number {
        11 => b"11: these bytes are no event\n",
        12 => b"12: the net has no such transition\n",
        15 => b"15: the age is below its sfd or above its lfd\n",
        18 => b"18: a transition is enabled there, and no tick may pass while a start is owed\n",
        20 => b"20: nothing runs there, and a tick leaves something running\n",
        21 => b"21: a firing has age 0 there, and a tick leaves none\n",
        24 => b"24: no firing of it has age 0 there, and a start leaves one\n",
        25 => b"25: a place would have held more than 65535 tokens before it\n",
        26 => b"26: a place holds fewer tokens there than this end gives\n",
        27 => b"27: 65535 firings of it have that age there, and one more ran before it\n",
        28 => b"28: a start stands before it in its step, and its age is 1 or more\n",
        29 =>
            b"29: a firing of age 1 or more is at its lfd there, and its end was owed before the start\n",
        _ => b"",
    }
}

// The words; none for a number that is not told there.
fn words_of(word: Word) -> &'static [u8]
    ensures { length result.now ≤ words_most }
{
    match word {
        // The steps, and what a state holds.
        Word::First => b"step 0, from the beginning: ",
        Word::Step => b"step A, behind tick A, from event B: ",
        Word::Start => b"start T; ",
        Word::End => b"end T at age B; ",
        Word::Tick => b"tick; ",
        Word::NoEvent => b"the bytes A B; ",
        Word::Earlier => b"earlier steps, not shown without --all: A\n",
        Word::Stands(number) => stands(number),
        Word::Mark => b"  place P holds B\n",
        Word::Run => b"  transition T runs at age B: C\n",
        Word::Others => b"  no other place holds a token, and nothing else runs\n",
        // How the log ended.
        Word::Accepted => b"the log kept the rules: events A, ticks B\n",
        Word::Refused => b"event A is refused, in step B (ticks before it: B): ",
        Word::Lacks => b"  place P lacks B\n",
        Word::StartOwed => b"  owed: start T\n",
        Word::EndOwed => b"  owed: end T\n",
        Word::Behind => b"  events behind it, which were not run: A\n",
        Word::OwedEnd => b"  that is all that is owed\n",
        // The last state.
        Word::LastBefore => b"the last state is the one just before the refused event\n",
        Word::NoWayStarted =>
            b"  no lawful state leads to the last state by event A and those behind it, with that start before it; a fault is at that start, or behind it, or in the last state itself\n",
        Word::LastSame => b"the last state is the one that the log leads to\n",
        Word::LastOther => b"the last state is not the one that the log leads to\n",
        Word::MarkOther => b"  place P holds B in the last state, and C behind the log\n",
        Word::RunOther =>
            b"  transition T runs at age B: C in the last state, and D behind the log\n",
        Word::WalkStops => b"walked back from the last state, the log stops at event A: ",
        Word::NoWay =>
            b"  no lawful state leads to the last state by event A and those behind it; a fault is at event A, or behind it, or in the last state itself\n",
        Word::WalkEnds =>
            b"walked back from the last state, the whole log begins in another state than the initial one\n",
        Word::MarkFirst => b"  place P holds B there, and C in the initial state\n",
        Word::RunFirst => b"  transition T runs at age B: C there, and D in the initial state\n",
        // What is refused, and the last line.
        Word::LastRefused => b"the last state is refused by ",
        Word::NetRefused => b"the net is refused by ",
        Word::LogRefused => b"the log is refused by ",
        Word::AcceptedEnd => b"accepted\n",
        Word::RefusedEnd => b"refused\n",
        // By document 01's number.
        Word::Expected(number) => expected(number),
        Word::Why(number) => meaning(number),
        Word::BackWhy(number) => back_meaning(number),
    }
}

// Puts the words of a phrase into the buffer, and answers the place behind them.
pub fn put(out: &mut [u8], at: usize, phrase: Phrase, names: &[u8]) -> usize
    requires { at + phrase_most ≤ length out.old }
    ensures upper_bound { result ≤ at + phrase_most }
    ensures out_len_unchanged { length out.new ≡ length out.old }
{
    wording::put(out, at, words_of(phrase.word), phrase.numbers, names)
}

// Puts at the front of the buffer that a line of the file of names cannot be read.
pub fn put_bad_name(out: &mut [u8], line: usize, names: &[u8]) -> usize
    requires { phrase_most ≤ length out.old }
    ensures upper_bound { result ≤ phrase_most }
    ensures out_len_unchanged { length out.new ≡ length out.old }
{
    wording::put(
        out,
        0,
        b"names, line A: a line is place or transition, a number from 0 to 63 and a name of 1 to 40 bytes, one blank between them and none behind\n",
        [line, 0, 0, 0],
        names,
    )
}
