// The file of names: a line for each named place and transition, `place N NAME` or `transition N NAME`. Where two lines name the same thing the
// first one counts, so that a file can be put in front of another.
ghost use Rattle.std.specs.Prelude.{◌≡◌, ◌<◌, ◌≤◌, [], ◌∷◌, length, IfSome};
ghost use Rattle.std.specs.Option.{option_map};
ghost use Rattle.phrases.specs.Names.{are_all_visible, is_name, word_of, shown, named, thing_of, thing_in, is_bad, is_due, next_bad, part, bytes_in, name_in, name_of, FitsIn, IsPart};

// A number is at most this.
const NUMBER_MOST: usize = 63;

// A name has at most so many bytes.
pub const NAME_MOST: usize = 40;

// What a name belongs to.
#[derive(Clone, Copy)]
pub enum Kind {
    Place,
    Transition,
}

impl Kind {
    // What its lines begin with.
    fn word(self) -> &'static [u8]
        ensures { result.now ≡ word_of self }
    {
        match self {
            Kind::Place => b"place ",
            Kind::Transition => b"transition ",
        }
    }
}

// The part of the file that is a name.
#[derive(Clone, Copy)]
pub struct Named {
    pub from: usize,
    pub to: usize,
}

// What a line says.
#[derive(Clone, Copy)]
struct Thing<'a> {
    number: usize,
    name: &'a [u8],
}

// The number of the lowest bad line above `after`, counted from 1. (Of the lines up to there only the ends are looked at.)
pub fn next_bad(names: &[u8], after: usize) -> Option<usize>
    ensures value { result ≡ next_bad names.now after }
    ensures bounds { IfSome result (λ line. (after < line) × (line ≤ length names.now)) }
{
    let mut from = 0;
    let mut before = 0;
    for (end, byte) in names.iter().enumerate() {
        if *byte == b'\n' {
            if is_due(&names[from..end], before, after) {
                return Some(before + 1);
            }
            from = end + 1;
            before += 1;
        }
    }
    is_due(&names[from..], before, after).then_some(before + 1)
}

// The part of the file that is the name of this place or transition. (It is looked for each time that the thing is told: one walk over the bytes costs
// less than `split`, most of all in a file of many short lines.)
pub fn name_of(names: &[u8], kind: Kind, number: usize) -> Option<Named>
    ensures value { result ≡ name_of names.now kind number }
    ensures bounds { IfSome result (λ name. IsPart name (length names.now)) }
{
    let mut from = 0;
    for (end, byte) in names.iter().enumerate() {
        if *byte == b'\n' {
            if let Some(name) = name_between(names, from, end, kind, number) {
                return Some(name);
            }
            from = end + 1;
        }
    }
    name_between(names, from, names.len(), kind, number)
}

// The same, in the line that stands between these places: the name is at its end.
#[inline(always)]
fn name_between(names: &[u8], from: usize, end: usize, kind: Kind, number: usize) -> Option<Named>
    requires { (from ≤ end) × (end ≤ length names.now) }
    ensures value { result ≡ name_in (word_of kind) number from (bytes_in names.now (part from end) ∷ []) }
    ensures bounds { IfSome result (λ name. IsPart name (length names.now)) }
{
    if let Some(thing) = thing_in(&names[from..end], kind)
        && thing.number == number
    {
        return Some(Named {
            from: end - thing.name.len(),
            to: end,
        });
    }
    None
}

// The line is bad, and its number is above `after`: so many lines stand before it.
#[inline(always)]
#[tactic(auto, unfolding(crate::specs::Names::is_due))]
fn is_due(line: &[u8], before: usize, after: usize) -> bool
    ensures { result ≡ is_due after before line.now }
{
    after <= before && is_bad(line)
}

// The line is not empty, and names nothing.
#[tactic(auto, unfolding(crate::specs::Names::is_bad))]
fn is_bad(line: &[u8]) -> bool
    ensures { result ≡ is_bad line.now }
{
    !line.is_empty()
        && thing_in(line, Kind::Place).is_none()
        && thing_in(line, Kind::Transition).is_none()
}

// What the line says of a thing of this kind. (The searches ask this of line after line; of a line that is too short it is seen without a call.)
#[inline(always)]
#[tactic(auto, using(crate::proofs::Lined::nothing_in_short), unfolding(crate::specs::Names::thing_in))]
fn thing_in(line: &[u8], kind: Kind) -> Option<Thing<'_>>
    ensures value { option_map shown result ≡ thing_in line.now (word_of kind) }
    ensures fits { IfSome result (λ thing. FitsIn thing.name.now line.now) }
{
    let word = kind.word();
    if line.len() < word.len() {
        return None;
    }
    thing_of(line.strip_prefix(word)?)
}

// What stands behind the word: one digit or two, a blank, and a name.
#[tactic(auto, unfolding(crate::specs::Names::thing_of))]
fn thing_of(rest: &[u8]) -> Option<Thing<'_>>
    ensures value { option_map shown result ≡ thing_of rest.now }
    ensures fits { IfSome result (λ thing. FitsIn thing.name.now rest.now) }
{
    match rest {
        [a, b' ', name @ ..] if a.is_ascii_digit() => thing_named((*a - b'0') as usize, name),
        [a, b, b' ', name @ ..] if a.is_ascii_digit() && b.is_ascii_digit() => {
            thing_named((*a - b'0') as usize * 10 + (*b - b'0') as usize, name)
        }
        _ => None,
    }
}

// This number with this name, where both are allowed.
#[tactic(auto, unfolding(crate::specs::Names::named))]
fn thing_named(number: usize, name: &[u8]) -> Option<Thing<'_>>
    ensures value { option_map shown result ≡ named number name.now }
    ensures fits { IfSome result (λ thing. FitsIn thing.name.now name.now) }
{
    (number <= NUMBER_MOST && is_name(name)).then_some(Thing { number, name })
}

fn is_name(name: &[u8]) -> bool
    ensures { result ≡ is_name name.now }
{
    (1..=NAME_MOST).contains(&name.len()) && are_all_visible(name)
}

// Each byte can stand in a name.
fn are_all_visible(name: &[u8]) -> bool
    ensures { result ≡ are_all_visible name.now }
{
    name.iter().all(|b| *b > b' ' && *b != 127)
}
