// Requests, as docs/ASK.md sets them down, read part by part.
ghost use Rattle.std.specs.Prelude.{◌≡◌, ◌^◌, ◌<◌, ◌≤◌, ◌++◌, length, take, IfOk, MatchResult};
ghost use Rattle.std.specs.Io.KnownBytes.{Consumes};
ghost use Rattle.model.specs.Tab.{one_if};
ghost use Rattle.menuask.specs.declared.request.RequestError.TheVariants.{Bad, Failed};
ghost use Rattle.menuask.specs.Requests.{code_of, IsCall, HasNoOther, bytes_of, number_bytes, slice_bytes, both_bytes, flag_bytes};
ghost use Rattle.menuask.specs.Requests.{IsEvent, NoNumber, NoSlice, NoBoth, NoEvent, NoRequest, IfBad};

use crate::call::Call;
use std::io;
use std::io::Read;

// A net or a state of a request has at most so many bytes (docs/ASK.md): more than any lawful one.
pub const SLICE_MOST: usize = 16384;

// And the third slice so many: a log, the buffer for one, or weights.
pub const THIRD_MOST: usize = 65536;

// Room for the slices of a request, which stand at the front. A slice for which there is no room is bad.
#[derive(Drop)]
pub struct Slices<'a> {
    pub net: &'a mut [u8],
    pub state: &'a mut [u8],
    pub third: &'a mut [u8],
}

// A call, and the lengths of the slices that it is asked with, which stand at the front of their buffers; 0 for one that it does not have. The third
// slice is a log, the buffer for one, or weights.
#[derive(Clone, Copy)]
pub struct Request {
    pub call: Call,
    pub net: usize,
    pub state: usize,
    pub third: usize,
}

impl Request {
    fn new(call: Call, net: usize, state: usize, third: usize) -> Request
        ensures { result ≡ record { call = call; net = net; state = state; third = third } }
    {
        Request {
            call,
            net,
            state,
            third,
        }
    }
}

// No request: it is bad, which is an unknown call, a slice that is too long, a number out of its range, or an input that ends within; or a read failed.
#[derive(Drop)]
pub enum RequestError {
    Bad,
    Failed(io::Error),
}

impl From<io::Error> for RequestError {
    ghost from_gives = { λ e r. r ≡ Failed e };

    fn from(e: io::Error) -> RequestError {
        RequestError::Failed(e)
    }
}

// A number: four bytes.
fn number<R: Read>(from: &mut R) -> Result<usize, RequestError>
    ensures bytes { IfOk result (λ n. Consumes (R.remaining from.old) (R.remaining from.new) (number_bytes n)) }
    ensures in_range { IfOk result (λ n. n < 2 ^ 32) }
    ensures bad { IfBad result (NoNumber (R.remaining from.old)) }
{
    let mut four = [0u8; 4];
    if streams::read_full(from, &mut four)? < four.len() {
        return Err(RequestError::Bad);
    }
    Ok(number_of(four))
}

fn number_of(four: [u8; 4]) -> usize
    ensures bytes { number_bytes result ≡ four }
    ensures in_range { result < 2 ^ 32 }
{
    u32::from_be_bytes(four) as usize
}

// A slice: its length, and as many bytes, put at the front of the buffer.
fn slice<R: Read>(from: &mut R, into: &mut [u8]) -> Result<usize, RequestError>
    ensures in_bounds { IfOk result (λ n. n ≤ length into.new) }
    ensures in_range { IfOk result (λ n. n < 2 ^ 32) }
    ensures bytes { IfOk result (λ n. Consumes (R.remaining from.old) (R.remaining from.new) (slice_bytes (take n into.new))) }
    ensures bad { IfBad result (NoSlice (R.remaining from.old) into.old) }
    ensures len_unchanged { length into.new ≡ length into.old }
{
    let n = number(from)?;
    if into.len() < n {
        return Err(RequestError::Bad);
    }
    if streams::read_full(from, &mut into[..n])? < n {
        return Err(RequestError::Bad);
    }
    Ok(n)
}

// Whether a start has happened in the step.
fn flag(n: usize) -> Result<bool, RequestError>
    ensures bytes { IfOk result (λ started. flag_bytes started ≡ number_bytes n) }
    ensures value { MatchResult result (λ started. n ≡ one_if started) (λ why. (why ≡ Bad) × (1 < n)) }
{
    match n {
        0 => Ok(false),
        1 => Ok(true),
        _ => Err(RequestError::Bad),
    }
}

// What three numbers say of an event: its two bytes, and whether a start has happened in the step.
fn event_of(first: usize, second: usize, started: usize) -> Result<(u8, u8, bool), RequestError>
    ensures { MatchResult result (λ r. (r.0 ≡ first) × (r.1 ≡ second) × (one_if r.2 ≡ started)) (λ why. (why ≡ Bad) × ¬ (IsEvent first second started)) }
{
    match (u8::try_from(first), u8::try_from(second)) {
        (Ok(first), Ok(second)) => Ok((first, second, flag(started)?)),
        _ => Err(RequestError::Bad),
    }
}

// The numbers of an event. All three are read before they are looked at.
fn event<R: Read>(from: &mut R) -> Result<(u8, u8, bool), RequestError>
    ensures bytes { IfOk result (λ r. Consumes (R.remaining from.old) (R.remaining from.new) (number_bytes r.0 ++ number_bytes r.1 ++ flag_bytes r.2)) }
    ensures bad { IfBad result (NoEvent (R.remaining from.old)) }
{
    let first = number(from)?;
    let second = number(from)?;
    let started = number(from)?;
    event_of(first, second, started)
}

// A net and a state.
fn both<R: Read>(from: &mut R, slices: &mut Slices) -> Result<(usize, usize), RequestError>
    ensures in_bounds { IfOk result (λ n. (n.0 ≤ length slices.new.net.now) × (n.1 ≤ length slices.new.state.now)) }
    ensures in_range { IfOk result (λ n. (n.0 < 2 ^ 32) × (n.1 < 2 ^ 32)) }
    ensures bytes { IfOk result (λ n. Consumes (R.remaining from.old) (R.remaining from.new) (both_bytes (take n.0 slices.new.net.now) (take n.1 slices.new.state.now))) }
    ensures bad { IfBad result (NoBoth (R.remaining from.old) slices.old.net.now slices.old.state.now) }
    ensures len_unchanged { (length slices.new.net.now ≡ length slices.old.net.now) × (length slices.new.state.now ≡ length slices.old.state.now) }
    ensures third_after { slices.new.third.now ≡ slices.old.third.now }
    ensures same_references { (slices.new.net.ghost_name ≡ slices.old.net.ghost_name) × (slices.new.state.ghost_name ≡ slices.old.state.ghost_name) × (slices.new.third.ghost_name ≡ slices.old.third.ghost_name) }
{
    let net = slice(from, slices.net)?;
    let state = slice(from, slices.state)?;
    Ok((net, state))
}

// What follows the byte of a call: its slices and numbers. A read that fails is an error too.
pub fn read<R: Read>(from: &mut R, code: u8, slices: &mut Slices) -> Result<Request, RequestError>
    ensures call { IfOk result (λ request. (code_of request.call ≡ code) × IsCall request.call) }
    ensures bytes { IfOk result (λ request. Consumes (R.remaining from.old) (R.remaining from.new)
        (bytes_of request.call (take request.net slices.new.net.now) (take request.state slices.new.state.now) (take request.third slices.new.third.now))) }
    ensures in_bounds { IfOk result (λ request. (request.net ≤ length slices.new.net.now) × (request.state ≤ length slices.new.state.now) × (request.third ≤ length slices.new.third.now)) }
    ensures in_range { IfOk result (λ request. (request.net < 2 ^ 32) × (request.state < 2 ^ 32) × (request.third < 2 ^ 32)) }
    ensures no_other { IfOk result (λ request. HasNoOther request.call request.net request.state request.third) }
    ensures bad { IfBad result (NoRequest (R.remaining from.old) code slices.old.net.now slices.old.state.now slices.old.third.now) }
    ensures len_unchanged { (length slices.new.net.now ≡ length slices.old.net.now) × (length slices.new.state.now ≡ length slices.old.state.now) × (length slices.new.third.now ≡ length slices.old.third.now) }
    ensures same_references { (slices.new.net.ghost_name ≡ slices.old.net.ghost_name) × (slices.new.state.ghost_name ≡ slices.old.state.ghost_name) × (slices.new.third.ghost_name ≡ slices.old.third.ghost_name) }
{
    match code {
        1 => {
            let net = slice(from, slices.net)?;
            Ok(Request::new(Call::CheckNet, net, 0, 0))
        }
        2 => {
            let (net, state) = both(from, slices)?;
            Ok(Request::new(Call::Initial, net, state, 0))
        }
        3 => {
            let (net, state) = both(from, slices)?;
            Ok(Request::new(Call::CheckState, net, state, 0))
        }
        4 => {
            let (net, state) = both(from, slices)?;
            let (first, second, started) = event(from)?;
            Ok(Request::new(
                Call::Event {
                    first,
                    second,
                    started,
                },
                net,
                state,
                0,
            ))
        }
        5 => {
            let (net, state) = both(from, slices)?;
            let (first, second, started) = event(from)?;
            Ok(Request::new(
                Call::Back {
                    first,
                    second,
                    started,
                },
                net,
                state,
                0,
            ))
        }
        6 => {
            let (net, state) = both(from, slices)?;
            let transition = number(from)?;
            Ok(Request::new(Call::Degree { transition }, net, state, 0))
        }
        7 => {
            let (net, state) = both(from, slices)?;
            Ok(Request::new(Call::Owed, net, state, 0))
        }
        8 => {
            let (net, state) = both(from, slices)?;
            let third = slice(from, slices.third)?;
            let started = flag(number(from)?)?;
            Ok(Request::new(Call::Run { started }, net, state, third))
        }
        9 => {
            let (net, state) = both(from, slices)?;
            let third = slice(from, slices.third)?;
            let events = number(from)?;
            let started = flag(number(from)?)?;
            Ok(Request::new(Call::Walk { events, started }, net, state, third))
        }
        10 => {
            let third = slice(from, slices.third)?;
            let step = number(from)?;
            Ok(Request::new(Call::Step { step }, 0, 0, third))
        }
        11 => {
            let (net, state) = both(from, slices)?;
            let third = slice(from, slices.third)?;
            let budget = number(from)?;
            Ok(Request::new(Call::Page { budget }, net, state, third))
        }
        12 => {
            let (net, state) = both(from, slices)?;
            let third = slice(from, slices.third)?;
            Ok(Request::new(Call::Balance, net, state, third))
        }
        _ => Err(RequestError::Bad),
    }
}
