// The calls of document 01. None asks anything of its caller: what is given is examined first, net, room, state, log and request in this
// order, and the first fault is told. A call that is refused before its first event writes nothing. The first clauses of a contract say what
// is told and left, as a function of the bytes; the last says what that comes to, in the words of the demands (specs/Promised.antt).
ghost use Rattle.std.specs.Prelude.{◌≡◌};
ghost use Rattle.engine.specs.Calls.{net_told, state_told, initial_told, initial_left, event_told, event_left, back_told, back_left};
ghost use Rattle.engine.specs.Calls.{degree_told, owed_told, run_told, run_left, walk_told, walk_left, step_told, PartOf};
ghost use Rattle.engine.specs.Steps.{PartGiven};
ghost use Rattle.engine.specs.Promised.{CheckNetPromise, CheckStatePromise, InitialPromise, EventPromise, BackPromise};
ghost use Rattle.engine.specs.Promised.{DegreePromise, OwedPromise, RunPromise, WalkPromise, StepPromise};

use crate::answers::{DegreeTold, EventTold, OwedTold, StepTold, Verdict};
use crate::examine;
use forms::checked::CheckedNet;
use forms::{initial, log, net, places};
use logs::steps;
use model::answer::Refusal;
use model::event::Pair;
use moves::event;
use moves::order::Step;
use owed::{degree, report};
use runs::told::{RunTold, WalkTold};
use runs::{run, walk};

// 23: the log has no such step. The one thing that a step is refused by beside a fault of the log, so no enum.
pub const NO_SUCH_STEP: u8 = 23;

// Checks a net: 1 to 6.
pub fn check_net(net: &[u8]) -> Verdict
    ensures value { result ≡ net_told net.now }
    ensures check_net_promise { CheckNetPromise net.now result }
{
    net::check_net(net).into()
}

// Checks a state of a net: 1 to 6, 8, 9.
pub fn check_state(net: &[u8], state: &[u8]) -> Verdict
    ensures value { result ≡ state_told net.now state.now }
    ensures check_state_promise { CheckStatePromise net.now state.now result }
{
    match examine::examine_state(net, state) {
        Ok(_) => Verdict {
            number: 0,
            index: 0,
        },
        Err(fault) => fault.into(),
    }
}

// Writes the initial state of a net at the front of the buffer: 1 to 7.
pub fn initial(net: &[u8], state: &mut [u8]) -> Verdict
    ensures value { result ≡ initial_told net.now state.old }
    ensures state_after { state.new ≡ initial_left net.now state.old }
    ensures initial_promise { InitialPromise net.now state.old result state.new }
{
    match CheckedNet::of(net) {
        Ok(net) => initial::initial(net, state).into(),
        Err(fault) => fault.into(),
    }
}

// Does one event, given by its two bytes. `started`: a start has happened before it, in the same step. It tells 1 to 6, 8, 9, 11 to 20, 28, 29.
pub fn event(net: &[u8], state: &mut [u8], first: u8, second: u8, started: bool) -> EventTold
    ensures value { result ≡ event_told net.now state.old first second started }
    ensures state_after { state.new ≡ event_left net.now state.old first second started }
    ensures event_promise { EventPromise net.now state.old first second started result state.new }
{
    match examine::examine_state(net, state) {
        Ok(net) => {
            let pair = Pair { first, second };
            event::apply(net, state, Step::given(started), pair).into()
        }
        Err(fault) => fault.into(),
    }
}

// Takes one event back. `started`: a start had happened before it, in the same step. It tells 1 to 6, 8, 9, 11, 12, 15, 18, 20, 21, 24 to 29.
pub fn back(net: &[u8], state: &mut [u8], first: u8, second: u8, started: bool) -> Verdict
    ensures value { result ≡ back_told net.now state.old first second started }
    ensures state_after { state.new ≡ back_left net.now state.old first second started }
    ensures back_promise { BackPromise net.now state.old first second started result state.new }
{
    match examine::examine_state(net, state) {
        Ok(net) => {
            let pair = Pair { first, second };
            event::back(net, state, Step::given(started), pair).into()
        }
        Err(fault) => fault.into(),
    }
}

// How many times transition t is enabled: 1 to 6, 8, 9, 12.
pub fn degree(net: &[u8], state: &[u8], t: usize) -> DegreeTold
    ensures value { result ≡ degree_told net.now state.now t }
    ensures degree_promise { DegreePromise net.now state.now t result }
{
    match examine::examine_state(net, state) {
        Ok(net) if net.shape.transitions <= t => DegreeTold {
            number: Refusal::NoSuchTransition.into(),
            index: 0,
            degree: 0,
        },
        Ok(net) => DegreeTold {
            number: 0,
            index: 0,
            degree: degree::degree(net, state, t),
        },
        Err(fault) => fault.into(),
    }
}

// What a state owes, and how it stands: 1 to 6, 8, 9.
pub fn owed(net: &[u8], state: &[u8]) -> OwedTold
    ensures value { result ≡ owed_told net.now state.now }
    ensures owed_promise { OwedPromise net.now state.now result }
{
    match examine::examine_state(net, state) {
        Ok(net) => report::report(net, state).into(),
        Err(fault) => fault.into(),
    }
}

// Runs a log. `started`: a start has happened before its first event, in the same step. It tells 1 to 6, 8 to 20, 28, 29. The events follow the fifth byte
// of the log.
pub fn run(net: &[u8], state: &mut [u8], log: &[u8], started: bool) -> RunTold
    ensures value { result ≡ run_told net.now state.old log.now started }
    ensures state_after { state.new ≡ run_left net.now state.old log.now started }
    ensures run_promise { RunPromise net.now state.old log.now started result state.new }
{
    match examine::examine_log(net, state, log) {
        Ok(net) => run::run(net, state, &log[places::EVENTS_AT..], started),
        Err(fault) => fault.into(),
    }
}

// Walks the last n events of a log back. `started`: a start had happened before the log's first event, in the same step. It tells 1 to 6, 8 to 12, 15, 18,
// 20 to 22, 24 to 29.
pub fn walk(net: &[u8], state: &mut [u8], log: &[u8], n: usize, started: bool) -> WalkTold
    ensures value { result ≡ walk_told net.now state.old log.now n started }
    ensures state_after { state.new ≡ walk_left net.now state.old log.now n started }
    ensures walk_promise { WalkPromise net.now state.old log.now n started result state.new }
{
    match examine::examine_log(net, state, log) {
        Ok(net) => walk::walk(net, state, &log[places::EVENTS_AT..], n, started),
        Err(fault) => fault.into(),
    }
}

// Where step k of a log stands in it: 10, 23.
pub fn step_told(log: &[u8], k: usize) -> StepTold
    ensures value { result ≡ step_told log.now k }
    ensures step_promise { StepPromise log.now k result }
{
    if let Err(fault) = log::check_log(log) {
        return StepTold::refused(fault.into());
    }
    match steps::span_of(&log[places::EVENTS_AT..], k) {
        Some(span) => StepTold {
            number: 0,
            index: 0,
            start: places::EVENTS_AT + span.start,
            length: span.end - span.start,
        },
        None => StepTold::refused(NO_SUCH_STEP),
    }
}

// Step k of a log, as a part of the log itself; the empty part at its front where step_told refuses.
pub fn step(log: &[u8], k: usize) -> &[u8]
    ensures part_of { PartOf log.entry result (step_told log.now k) }
    ensures part_given { PartGiven log.entry result k }
{
    let told = step_told(log, k);
    let start = told.start;
    let end = start + told.length;
    &log[start..end]
}
