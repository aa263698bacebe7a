// The page of a net, from its initial state, and what is told of it: what menurun tells of the net and the log that is written.
ghost use Rattle.std.specs.Prelude.{◌≡◌, ◌≤◌, length};
ghost use Rattle.runner.specs.Call.{state_left, log_left};
ghost use Rattle.replay.specs.Lines.{LateShown};
ghost use Rattle.pageshow.specs.Built.{alone_length, unbuilt, built_from, built, built_state, built_log, AsRun, AsReplayed};

use engine::answers::Verdict;
use engine::calls;
use forms::places;
use model::answer::Short;
use replay::input::Replayed;
use runner::call;

// The number of the page's stop, the length of its log in bytes, and the fields of menurun's first line. Where the net is refused the
// first two are 0.
#[derive(Clone, Copy)]
pub struct Built {
    pub stop: u8,
    pub log: usize,
    pub told: Replayed,
}

// Where there is no page, there is no log either.
impl From<Verdict> for Built {
    ghost from_gives = { λ why built. built ≡ unbuilt why };

    fn from(why: Verdict) -> Built {
        Built {
            stop: 0,
            log: 0,
            told: Replayed::from(why),
        }
    }
}

// The input is to be the net and nothing else. The check of nets sees whether it is as long as it says. One that is longer than the longest
// net is taken as empty, and as such refused by 1: so a program need not read all of it.
#[tactic(auto, unfolding(crate::specs::Built::alone_length, forms::specs::Places::row_at))]
pub fn net_length(input: &[u8]) -> usize
    ensures value { result ≡ alone_length input.now }
    ensures upper_bound { result ≤ length input.now }
{
    if places::LONGEST_NET < input.len() {
        0
    } else {
        input.len()
    }
}

// Makes the initial state of a net at the front of the buffer, and builds the page from there.
#[tactic(auto, unfolding(crate::specs::Built::built, crate::specs::Built::built_state, crate::specs::Built::built_log))]
pub fn build(net: &[u8], state: &mut [u8], log: &mut [u8], budget: usize) -> Built
    ensures value { result ≡ built net.now state.old log.old budget }
    ensures state_after { state.new ≡ built_state net.now state.old log.old budget }
    ensures log_after { log.new ≡ built_log net.now state.old log.old budget }
    ensures log_in_bounds { (result.log ≤ length log.new) × LateShown result.told.number state.new }
    ensures as_replayed { AsReplayed net.now state.old result state.new log.new }
{
    let begun = calls::initial(net, state);
    if begun.number != 0 {
        return Built::from(begun);
    }
    build_from(net, state, log, budget)
}

// Builds the page from a state. The log is not run again: what a run of it tells is known from the page.
fn build_from(net: &[u8], state: &mut [u8], log: &mut [u8], budget: usize) -> Built
    ensures value { result ≡ built_from net.now state.old log.old budget }
    ensures state_after { state.new ≡ state_left net.now state.old log.old budget }
    ensures log_after { log.new ≡ log_left net.now state.old log.old budget }
    ensures log_in_bounds { (result.log ≤ length log.new) × LateShown result.told.number state.new }
    ensures as_run { AsRun net.now state.old result state.new log.new }
{
    let page = call::page(net, state, log, budget);
    if page.number != 0 {
        return Built::from(Verdict {
            number: page.number,
            index: page.index,
        });
    }
    Built {
        stop: page.stop,
        log: places::EVENTS_AT + 2 * page.events,
        told: Replayed {
            number: 0,
            index: page.events,
            done: page.events,
            ticks: page.ticks,
            standing: calls::owed(net, state).standing,
            short: Short::nothing(),
        },
    }
}
