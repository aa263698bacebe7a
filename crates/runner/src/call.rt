// The runner's call. It asks nothing of its caller: net, state and the log's buffer are examined first, in this order, and the first fault
// is told. A refused call writes nothing.
ghost use Rattle.std.specs.Prelude.{◌≡◌};
ghost use Rattle.engine.specs.Examined.{Finds};
ghost use Rattle.runner.specs.Call.{examine_page, page_of, no_page, page_told, state_left, log_left};
ghost use Rattle.runner.specs.Promised.{PagePromise};

use crate::build;
use crate::build::Tally;
use engine::examine;
use forms::checked::CheckedNet;
use forms::fault::Fault;
use forms::places;

// Numbers, as the C interface hands them on: document 01's number, and as index the transition for 4, 5, 6 and 9 and else 0; the number of the stop, the events done, and the ticks
// among them, all three 0 on a refusal.
#[derive(Clone, Copy)]
pub struct PageTold {
    pub number: u8,
    pub index: usize,
    pub stop: u8,
    pub events: usize,
    pub ticks: usize,
}

impl From<Tally> for PageTold {
    ghost from_gives = { λ tally told. told ≡ page_of tally };

    fn from(tally: Tally) -> PageTold {
        PageTold {
            number: 0,
            index: 0,
            stop: tally.stop.into(),
            events: tally.events,
            ticks: tally.ticks,
        }
    }
}

impl From<Fault> for PageTold {
    ghost from_gives = { λ fault told. told ≡ no_page fault };

    fn from(fault: Fault) -> PageTold {
        PageTold {
            number: fault.into(),
            index: fault.index(),
            stop: 0,
            events: 0,
            ticks: 0,
        }
    }
}

// A net, a state of it, and a buffer for a log: 1 to 6, 8, 9, and 10 for a buffer under 5 bytes.
#[tactic(auto, unfolding(crate::specs::Call::examine_page))]
fn examine_page<'a>(net: &'a [u8], state: &[u8], log: &[u8]) -> Result<CheckedNet<'a>, Fault>
    ensures { Finds net.entry (examine_page net.now state.now log.now) result }
{
    let net = examine::examine_state(net, state)?;
    if log.len() < places::EVENTS_AT {
        return Err(Fault::LogFrame);
    }
    Ok(net)
}

// Builds a page by the net from the state, with at most `budget` events, and writes its log at the front of the buffer.
pub fn page(net: &[u8], state: &mut [u8], log: &mut [u8], budget: usize) -> PageTold
    ensures value { result ≡ page_told net.now state.old log.old budget }
    ensures state_after { state.new ≡ state_left net.now state.old log.old budget }
    ensures log_after { log.new ≡ log_left net.now state.old log.old budget }
    ensures page_promise { PagePromise net.now state.old log.old budget result state.new log.new }
{
    match examine_page(net, state, log) {
        Ok(net) => build::build(net, state, log, budget).into(),
        Err(fault) => fault.into(),
    }
}
