// Starts and ends of a transition that the order of the step permits (`order`), done (12; 13, 14; 15, 16, 17) and taken back (12; 24, 25; 15,
// 26, 27). For these it is all one whether a start has happened in the step. They are four functions, and no generic one: each asks other things in
// another order, which is that of the numbers.
ghost use Rattle.std.specs.Prelude.{◌≡◌, true, false, ◌+◌, ◌<◌, ◌≤◌, length};
ghost use Rattle.model.specs.declared.event.Event.TheVariants as event;
ghost use Rattle.model.specs.Rules.{answer_of, is_timely, has_no_old_end_owed};
ghost use Rattle.model.specs.Age.{column_of};
ghost use Rattle.forms.specs.Word.{byte, set_word};
ghost use Rattle.forms.specs.Places.{count_at};
ghost use Rattle.forms.specs.Stored.{net_of, stored};
ghost use Rattle.forms.specs.Nets.{IsNet};
ghost use Rattle.forms.specs.States.{IsState};
ghost use Rattle.moves.specs.After.{applied, state_taken_back, after};

use crate::marking;
use forms::checked::CheckedNet;
use forms::{places, words};
use model::age::Age;
use model::answer::{Barrier, Refusal};
use model::net::Net;
use owed::{counts, marks, starts, weights};

// The age is in the interval of transition t. Asked of a net's bytes: it needs no shape.
#[tactic(auto, unfolding(model::specs::Rules::is_timely, forms::specs::Stored::net_of))]
pub fn timely(net: &[u8], t: usize, age: Age) -> bool
    requires { IsNet net.now × (t < byte net.now 6) }
    ensures { result ≡ is_timely (net_of net.now) t age.0 }
{
    let places = usize::from(net[places::PLACES_AT]);
    let sfd = usize::from(net[places::row_at(places, t)]);
    let lfd = usize::from(net[places::lfd_at(places, t)]);
    (sfd..=lfd).contains(&(age.0 as usize))
}

// Transition t starts.
pub fn start(net: CheckedNet, state: &mut [u8], t: usize) -> Result<(), Refusal>
    requires is_state { IsState (net_of net.bytes.now) state.old }
    requires state_value { has_no_old_end_owed (net_of net.bytes.now) (stored net.bytes.now state.old) ≡ true }
    ensures value { result ≡ answer_of (applied net.entry.bytes.now false state.old (event.Start t)) }
    ensures state_after { state.new ≡ after (net_of net.entry.bytes.now) (applied net.entry.bytes.now false state.old (event.Start t)) state.old }
{
    if net.shape.transitions <= t {
        return Err(Refusal::NoSuchTransition);
    }
    let running = counts::count(net, state, t, Age(0));
    if !Net::held(running + 1) {
        // 13 is told before 14
        if let Some(p) = starts::lacking(net, state, t) {
            return Err(Refusal::NotEnabled(starts::short(net, state, t, p)));
        }
        return Err(Refusal::CountFull);
    }
    // the test that `lacking` makes, made as the tokens are taken: both promise the same place
    if let Some(p) = marking::take(weights::inputs(net, t), state) {
        return Err(Refusal::NotEnabled(starts::short(net, state, t, p)));
    }
    set_count(net.shape, state, t, Age(0), running + 1);
    Ok(())
}

// A start of transition t is taken back.
pub fn unstart(net: CheckedNet, state: &mut [u8], t: usize) -> Result<(), Refusal>
    requires is_state { IsState (net_of net.bytes.now) state.old }
    requires state_value { has_no_old_end_owed (net_of net.bytes.now) (stored net.bytes.now state.old) ≡ true }
    ensures value { result ≡ answer_of (state_taken_back net.entry.bytes.now false state.old (event.Start t)) }
    ensures state_after { state.new ≡ after (net_of net.entry.bytes.now) (state_taken_back net.entry.bytes.now false state.old (event.Start t)) state.old }
{
    if net.shape.transitions <= t {
        return Err(Refusal::NoSuchTransition);
    }
    let running = counts::count(net, state, t, Age(0));
    if running == 0 {
        return Err(Refusal::OnlyBack(Barrier::NoneStarted));
    }
    if !marking::give(weights::inputs(net, t), state) {
        return Err(Refusal::OnlyBack(Barrier::PlaceOverfull));
    }
    set_count(net.shape, state, t, Age(0), running - 1);
    Ok(())
}

// Transition t ends, at an age.
pub fn end(net: CheckedNet, state: &mut [u8], t: usize, age: Age) -> Result<(), Refusal>
    requires { IsState (net_of net.bytes.now) state.old }
    ensures value { result ≡ answer_of (applied net.entry.bytes.now false state.old (event.End t age)) }
    ensures state_after { state.new ≡ after (net_of net.entry.bytes.now) (applied net.entry.bytes.now false state.old (event.End t age)) state.old }
{
    if net.shape.transitions <= t {
        return Err(Refusal::NoSuchTransition);
    }
    if !timely(net.bytes, t, age) {
        return Err(Refusal::OutsideInterval);
    }
    let running = counts::count(net, state, t, age);
    if running == 0 {
        return Err(Refusal::NoneOfThatAge);
    }
    if !marking::give(weights::outputs(net, t), state) {
        return Err(Refusal::PlaceFull);
    }
    set_count(net.shape, state, t, age, running - 1);
    Ok(())
}

// An end of transition t at an age is taken back.
pub fn unend(net: CheckedNet, state: &mut [u8], t: usize, age: Age) -> Result<(), Refusal>
    requires { IsState (net_of net.bytes.now) state.old }
    ensures value { result ≡ answer_of (state_taken_back net.entry.bytes.now false state.old (event.End t age)) }
    ensures state_after { state.new ≡ after (net_of net.entry.bytes.now) (state_taken_back net.entry.bytes.now false state.old (event.End t age)) state.old }
{
    if net.shape.transitions <= t {
        return Err(Refusal::NoSuchTransition);
    }
    if !timely(net.bytes, t, age) {
        return Err(Refusal::OutsideInterval);
    }
    let running = counts::count(net, state, t, age);
    let given = weights::outputs(net, t);
    if !Net::held(running + 1) {
        // 26 is told before 27
        if marks::short_place(given, state).is_some() {
            return Err(Refusal::OnlyBack(Barrier::TooFewTokens));
        }
        return Err(Refusal::OnlyBack(Barrier::CountOverfull));
    }
    // the test that `short_place` makes, made as the tokens are taken
    if marking::take(given, state).is_some() {
        return Err(Refusal::OnlyBack(Barrier::TooFewTokens));
    }
    set_count(net.shape, state, t, age, running + 1);
    Ok(())
}

// So many firings of transition t are of this age.
fn set_count(shape: Net, state: &mut [u8], t: usize, age: Age, count: usize)
    requires limits { (shape.places < 256) × (shape.width ≤ 256) × (t < 256) × (count < 65536) }
    requires inside { count_at shape.places shape.width t (column_of age) + 1 < length state.old }
    ensures { state.new ≡ set_word state.old (count_at shape.places shape.width t (column_of age)) count }
{
    words::write16(state, places::count_at(shape, t, age.column()), count);
}
