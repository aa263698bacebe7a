// An input is a net and then a log. The log is run from the net's initial state.
ghost use Rattle.std.specs.Prelude.{◌≡◌, false, ◌≤◌, length};
ghost use Rattle.engine.specs.Calls.{run_left};
ghost use Rattle.replay.specs.Replayed.{net_length_in, is_early, standing_after, ran_on, not_begun, replayed, replay_left};

use engine::answers::Verdict;
use engine::calls;
use forms::{places, words};
use model::answer::Short;

// The last of the numbers that are told before the first event: the log's.
pub const LAST_EARLY: u8 = 10;

// The fields of menurun's first line, each a number there.
#[derive(Clone, Copy)]
pub struct Replayed {
    pub number: u8,
    pub index: usize,
    pub done: usize,
    pub ticks: usize,
    pub standing: u8,
    pub short: Short,
}

// Where there is no initial state, nothing was done.
impl From<Verdict> for Replayed {
    ghost from_gives = { λ verdict told. told ≡ not_begun verdict };

    fn from(verdict: Verdict) -> Replayed {
        Replayed {
            number: verdict.number,
            index: verdict.index,
            done: 0,
            ticks: 0,
            standing: 0,
            short: Short::nothing(),
        }
    }
}

// The net is as many bytes as its length field says. It is empty, and as such refused by 1, where fewer arrived, or where the field
// is over the longest lawful net.
#[tactic(auto, unfolding(crate::specs::Replayed::net_length_in, crate::specs::Replayed::has_arrived, forms::specs::Places::row_at))]
pub fn net_length(input: &[u8]) -> usize
    ensures value { result ≡ net_length_in input.now }
    ensures upper_bound { result ≤ length input.now }
{
    if input.len() < 5 {
        return 0;
    }
    let field = words::read32(input, 1);
    if places::LONGEST_NET < field || input.len() < field {
        return 0;
    }
    field
}

// Told before the first event: then nothing was done, and nothing but the number and the index is shown.
pub fn is_early(number: u8) -> bool
    ensures { result ≡ is_early number }
{
    (1..=LAST_EARLY).contains(&number)
}

// Makes the initial state of the input's net at the front of the buffer, runs the input's log from there, and tells how it ended.
#[tactic(auto, unfolding(crate::specs::Replayed::replayed, crate::specs::Replayed::replay_left))]
pub fn replay(input: &[u8], state: &mut [u8]) -> Replayed
    ensures value { result ≡ replayed input.now state.old }
    ensures state_after { state.new ≡ replay_left input.now state.old }
{
    let (net, log) = input.split_at(net_length(input));
    let begun = calls::initial(net, state);
    if begun.number != 0 {
        return Replayed::from(begun);
    }
    run_on(net, state, log)
}

// Runs the log, with no start made before it, and asks how the state stands where it ended.
fn run_on(net: &[u8], state: &mut [u8], log: &[u8]) -> Replayed
    ensures value { result ≡ ran_on net.now state.old log.now }
    ensures state_after { state.new ≡ run_left net.now state.old log.now false }
{
    let told = calls::run(net, state, log, false);
    Replayed {
        number: told.number,
        index: told.index,
        done: told.done,
        ticks: told.ticks,
        standing: standing(told.number, net, state),
        short: told.short,
    }
}

// How the state stands, and 0 where the log was refused before its first event.
#[tactic(auto, unfolding(crate::specs::Replayed::standing_after))]
fn standing(number: u8, net: &[u8], state: &[u8]) -> u8
    ensures { result ≡ standing_after number net.now state.now }
{
    if is_early(number) {
        0
    } else {
        calls::owed(net, state).standing
    }
}
