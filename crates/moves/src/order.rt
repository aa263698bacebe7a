// The order of a step (request W5): its ends of age 1 or more come before its starts. A start asks that no such end is owed (29), and behind
// a start no firing of age 1 or more ends (28). Where one of the two rules is broken, what is told before its number is asked
// here; all the rest is in `firing`. Each pair, done and taken back, keeps its two functions: what is told before differs.
ghost use Rattle.std.specs.Prelude.{◌≡◌, true, false};
ghost use Rattle.model.specs.declared.event.Event.TheVariants as event;
ghost use Rattle.model.specs.Net.{State};
ghost use Rattle.model.specs.Moves.{started_by};
ghost use Rattle.model.specs.Rules.{answer_of, refused, can_end, has_no_old_end_owed, apply, back};
ghost use Rattle.forms.specs.Stored.{net_of, stored};
ghost use Rattle.forms.specs.States.{IsState};
ghost use Rattle.moves.specs.After.{applied, state_taken_back, after, Answers, step_of, clear_before};

use crate::{firing, marking};
use forms::checked::CheckedNet;
use model::age::Age;
use model::answer::{Barrier, Refusal};
use model::event::Event;
use owed::{counts, starts, weights};

// What is known of the step that an event stands in, in the state before it.
#[derive(Clone, Copy)]
pub struct Step {
    // A start has happened in it.
    pub started: bool,
    // No end of age 1 or more is owed. Where this is not known it is asked.
    pub clear: bool,
}

impl Step {
    // Before the first event only what the caller says is known.
    pub fn given(started: bool) -> Step
        ensures { result ≡ step_of started false }
    {
        Step {
            started: started,
            clear: false,
        }
    }

    // Behind an event that was done. A start sets both, since it was accepted, a tick clears both, and an end makes no end owed.
    pub fn behind(self, event: Event) -> Step
        ensures { result ≡ step_of (started_by self.started event) (started_by self.clear event) }
    {
        Step {
            started: event.started_by(self.started),
            clear: event.started_by(self.clear),
        }
    }
}

// Whether it is known of the state before an event that was taken back that no end of age 1 or more is owed, by whether it was behind it. Before
// a start and before a tick none can have been.
pub fn clear_before(clear: bool, event: Event) -> bool
    ensures { result ≡ clear_before clear event }
{
    match event {
        Event::Tick | Event::Start(_) => true,
        Event::End(_, age) => clear && age.0 == 0,
        Event::Malformed => clear,
    }
}

// No end of age 1 or more is owed, which may be known.
fn may_start(net: CheckedNet, state: &[u8], known: bool) -> bool
    requires is_state { IsState (net_of net.bytes.now) state.now }
    requires state_value { known ≡ true → has_no_old_end_owed (net_of net.bytes.now) (stored net.bytes.now state.now) ≡ true }
    ensures { result ≡ has_no_old_end_owed (net_of net.entry.bytes.now) (stored net.entry.bytes.now state.now) }
{
    known || counts::no_old_end_owed(net, state)
}

// Once a start has happened in the step, only firings of age 0 end.
#[tactic(auto, unfolding(model::specs::Rules::can_end))]
fn may_end(started: bool, age: Age) -> bool
    ensures { result ≡ can_end started age.0 }
{
    !started || age.0 == 0
}

// Transition t starts. Whether a start has happened before in the step is all one to it.
pub fn start(net: CheckedNet, state: &mut [u8], clear: bool, t: usize) -> Result<(), Refusal>
    requires is_state { IsState (net_of net.bytes.now) state.old }
    requires state_value { clear ≡ true → has_no_old_end_owed (net_of net.bytes.now) (stored net.bytes.now state.old) ≡ true }
    ensures value { result ≡ answer_of (applied net.entry.bytes.now false state.old (event.Start t)) }
    ensures state_after { state.new ≡ after (net_of net.entry.bytes.now) (applied net.entry.bytes.now false state.old (event.Start t)) state.old }
{
    if !may_start(net, state, clear) {
        return start_too_soon(net, state, t);
    }
    firing::start(net, state, t)
}

// Why transition t does not start while an end of age 1 or more is owed: 12 and 13 are told before 29.
fn start_too_soon(net: CheckedNet, state: &[u8], t: usize) -> Result<(), Refusal>
    requires is_state { IsState (net_of net.bytes.now) state.now }
    requires state_value { has_no_old_end_owed (net_of net.bytes.now) (stored net.bytes.now state.now) ≡ false }
    ensures { Answers net.entry.bytes.now state.now (applied net.entry.bytes.now false state.now (event.Start t)) result state.now }
{
    if net.shape.transitions <= t {
        return Err(Refusal::NoSuchTransition);
    }
    if let Some(p) = starts::lacking(net, state, t) {
        return Err(Refusal::NotEnabled(starts::short(net, state, t, p)));
    }
    Err(Refusal::OldEndOwed)
}

// A start of transition t is taken back. It changed no count of age 1 or more, so what is owed now of these was owed before it.
pub fn unstart(net: CheckedNet, state: &mut [u8], clear: bool, t: usize) -> Result<(), Refusal>
    requires is_state { IsState (net_of net.bytes.now) state.old }
    requires state_value { clear ≡ true → has_no_old_end_owed (net_of net.bytes.now) (stored net.bytes.now state.old) ≡ true }
    ensures value { result ≡ answer_of (state_taken_back net.entry.bytes.now false state.old (event.Start t)) }
    ensures state_after { state.new ≡ after (net_of net.entry.bytes.now) (state_taken_back net.entry.bytes.now false state.old (event.Start t)) state.old }
{
    if !may_start(net, state, clear) {
        return unstart_too_soon(net, state, t);
    }
    firing::unstart(net, state, t)
}

// Why a start of transition t cannot have been made while an end of age 1 or more was owed: 12, 24 and 25 are told before 29.
fn unstart_too_soon(net: CheckedNet, state: &[u8], t: usize) -> Result<(), Refusal>
    requires is_state { IsState (net_of net.bytes.now) state.now }
    requires state_value { has_no_old_end_owed (net_of net.bytes.now) (stored net.bytes.now state.now) ≡ false }
    ensures { Answers net.entry.bytes.now state.now (state_taken_back net.entry.bytes.now false state.now (event.Start t)) result state.now }
{
    if net.shape.transitions <= t {
        return Err(Refusal::NoSuchTransition);
    }
    if counts::count(net, state, t, Age(0)) == 0 {
        return Err(Refusal::OnlyBack(Barrier::NoneStarted));
    }
    if !marking::has_room(weights::inputs(net, t), state) {
        return Err(Refusal::OnlyBack(Barrier::PlaceOverfull));
    }
    Err(Refusal::OldEndOwed)
}

// Transition t ends, at an age.
pub fn end(
    net: CheckedNet,
    state: &mut [u8],
    started: bool,
    t: usize,
    age: Age,
) -> Result<(), Refusal>
    requires { IsState (net_of net.bytes.now) state.old }
    ensures value { result ≡ answer_of (applied net.entry.bytes.now started state.old (event.End t age)) }
    ensures state_after { state.new ≡ after (net_of net.entry.bytes.now) (applied net.entry.bytes.now started state.old (event.End t age)) state.old }
{
    if !may_end(started, age) {
        return Err(too_late(net, t, age));
    }
    firing::end(net, state, t, age)
}

// An end of transition t at an age is taken back.
pub fn unend(
    net: CheckedNet,
    state: &mut [u8],
    started: bool,
    t: usize,
    age: Age,
) -> Result<(), Refusal>
    requires { IsState (net_of net.bytes.now) state.old }
    ensures value { result ≡ answer_of (state_taken_back net.entry.bytes.now started state.old (event.End t age)) }
    ensures state_after { state.new ≡ after (net_of net.entry.bytes.now) (state_taken_back net.entry.bytes.now started state.old (event.End t age)) state.old }
{
    if !may_end(started, age) {
        return Err(too_late(net, t, age));
    }
    firing::unend(net, state, t, age)
}

// Why a firing of age 1 or more does not end behind a start, whatever the state, and cannot have: 12 and 15 are told before 28.
fn too_late(net: CheckedNet, t: usize, age: Age) -> Refusal
    requires age_value { can_end true age.0 ≡ false }
    ensures { (S : State) → (apply (net_of net.entry.bytes.now) true S (event.End t age) ≡ refused result) × (back (net_of net.entry.bytes.now) true S (event.End t age) ≡ refused result) }
{
    if net.shape.transitions <= t {
        return Refusal::NoSuchTransition;
    }
    if !firing::timely(net.bytes, t, age) {
        return Refusal::OutsideInterval;
    }
    Refusal::OldAfterStart
}
