// A tick, done (18, 19, 20) and taken back (21, 18, 20). It is all one to it whether a start has happened in the step.
ghost use Rattle.std.specs.Prelude.{◌≡◌, true, false};
ghost use Rattle.model.specs.declared.event.Event.TheVariants as event;
ghost use Rattle.model.specs.Rules.{answer_of, has_no_end_owed, has_none_fresh, ticked, unticked};
ghost use Rattle.forms.specs.Stored.{net_of, stored};
ghost use Rattle.forms.specs.Written.{written};
ghost use Rattle.forms.specs.States.{IsState};
ghost use Rattle.moves.specs.After.{applied, state_taken_back, after, Settled};

use crate::shift;
use forms::checked::CheckedNet;
use forms::places;
use model::answer::{Barrier, Refusal};
use owed::{counts, starts};

// Every count moves to the next age. The state is lawful and none stands at its transition's lfd, so the last column is empty and the
// clock moves as one block.
pub fn move_on(net: CheckedNet, state: &mut [u8])
    requires is_state { IsState (net_of net.bytes.now) state.old }
    requires state_value { has_no_end_owed (net_of net.bytes.now) (stored net.bytes.now state.old) ≡ true }
    ensures { state.new ≡ written (net_of net.entry.bytes.now) (ticked (net_of net.entry.bytes.now) (stored net.entry.bytes.now state.old)) state.old }
{
    shift::shift_up(
        state,
        places::clock_at(net.shape.places),
        places::cells(net.shape),
    );
}

// Every count moves to the age before. None stands at age 0, so the first column is empty and the clock moves as one block.
fn move_back(net: CheckedNet, state: &mut [u8])
    requires is_state { IsState (net_of net.bytes.now) state.old }
    requires state_value { has_none_fresh (net_of net.bytes.now) (stored net.bytes.now state.old) ≡ true }
    ensures { state.new ≡ written (net_of net.entry.bytes.now) (unticked (net_of net.entry.bytes.now) (stored net.entry.bytes.now state.old)) state.old }
{
    shift::shift_down(
        state,
        places::clock_at(net.shape.places),
        places::cells(net.shape),
    );
}

// Time passes by one tick.
pub fn tick(net: CheckedNet, state: &mut [u8]) -> Result<(), Refusal>
    requires { IsState (net_of net.bytes.now) state.old }
    ensures value { result ≡ answer_of (applied net.entry.bytes.now false state.old event.Tick) }
    ensures state_after { state.new ≡ after (net_of net.entry.bytes.now) (applied net.entry.bytes.now false state.old event.Tick) state.old }
{
    if !starts::no_start_owed(net, state) {
        return Err(Refusal::StartOwed);
    }
    if !counts::no_end_owed(net, state) {
        return Err(Refusal::EndOwed);
    }
    if counts::nothing_running(net, state) {
        return Err(Refusal::NothingRunning);
    }
    move_on(net, state);
    Ok(())
}

// A tick is taken back.
pub fn untick(net: CheckedNet, state: &mut [u8]) -> Result<(), Refusal>
    requires { IsState (net_of net.bytes.now) state.old }
    ensures value { result ≡ answer_of (state_taken_back net.entry.bytes.now false state.old event.Tick) }
    ensures state_after { state.new ≡ after (net_of net.entry.bytes.now) (state_taken_back net.entry.bytes.now false state.old event.Tick) state.old }
{
    if !counts::none_fresh(net, state) {
        return Err(Refusal::OnlyBack(Barrier::SomeFresh));
    }
    if !starts::no_start_owed(net, state) {
        return Err(Refusal::StartOwed);
    }
    if counts::nothing_running(net, state) {
        return Err(Refusal::NothingRunning);
    }
    move_back(net, state);
    Ok(())
}

// Time passes by another tick: behind a tick no start is owed and something is running, so neither is looked for again.
pub fn tick_again(net: CheckedNet, state: &mut [u8]) -> Result<(), Refusal>
    requires is_state { IsState (net_of net.bytes.now) state.old }
    requires settled { Settled net.bytes.now state.old }
    ensures value { result ≡ answer_of (applied net.entry.bytes.now false state.old event.Tick) }
    ensures state_after { state.new ≡ after (net_of net.entry.bytes.now) (applied net.entry.bytes.now false state.old event.Tick) state.old }
{
    if !counts::no_end_owed(net, state) {
        return Err(Refusal::EndOwed);
    }
    move_on(net, state);
    Ok(())
}

// Another tick is taken back. What it asks, and what it is refused by, differs from `tick_again`'s.
pub fn untick_again(net: CheckedNet, state: &mut [u8]) -> Result<(), Refusal>
    requires is_state { IsState (net_of net.bytes.now) state.old }
    requires settled { Settled net.bytes.now state.old }
    ensures value { result ≡ answer_of (state_taken_back net.entry.bytes.now false state.old event.Tick) }
    ensures state_after { state.new ≡ after (net_of net.entry.bytes.now) (state_taken_back net.entry.bytes.now false state.old event.Tick) state.old }
{
    let none_fresh = counts::none_fresh(net, state);
    if !none_fresh {
        return Err(Refusal::OnlyBack(Barrier::SomeFresh));
    }
    move_back(net, state);
    Ok(())
}
