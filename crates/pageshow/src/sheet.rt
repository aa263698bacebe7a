// The line of the page's stop, and behind it the lines that menurun prints of the net and the log.
ghost use Rattle.std.specs.Prelude.{[], ◌∷◌, ◌+◌, ◌≤◌, length};
ghost use Rattle.text.specs.Lines.{Line};
ghost use Rattle.replay.specs.Replayed.{longest_state};
ghost use Rattle.replay.specs.Lines.{least_buffer};
ghost use Rattle.pageshow.specs.Sheet.{stop_name, stop_most, longest_log, Shows, InBuffers, AsMenurun};

use crate::build;
use replay::sheet;
use replay::sheet::Sheet;
use text::line;

// What is to be written: the page's log, which has so many bytes, or the lines, of which the sheet is the first buffer.
#[derive(Clone, Copy)]
pub struct Output {
    pub log: usize,
    pub sheet: Sheet,
}

// The line of the stop, at the buffer's front.
fn stop_line(out: &mut [u8], stop: u8) -> usize
    requires { stop_most ≤ length out.old }
    ensures upper_bound { result ≤ stop_most }
    ensures line { Line out.old 0 stop_name (stop ∷ []) [] out.new result }
{
    line::put_line(out, 0, b"stop", &[stop as u64])
}

// Builds the page of the net in an input, and puts what is to be printed into the buffer. There is room for every state and for the longest
// log, so that neither 7 nor 10 is told for want of it, and a log is full with 24,000 events.
pub fn first(
    input: &[u8],
    budget: usize,
    state: &mut [u8],
    log: &mut [u8],
    out: &mut [u8],
) -> Output
    requires longest_state_in_bounds { longest_state ≤ length state.old }
    requires longest_log_in_bounds { longest_log ≤ length log.old }
    requires least_buffer_in_bounds { stop_most + least_buffer ≤ length out.old }
    ensures shows { Shows input.now budget state.old log.old out.old result state.new log.new out.new }
    ensures in_buffers { InBuffers result state.new log.new out.new }
    ensures as_menurun { AsMenurun input.now budget state.old log.old out.old result state.new log.new out.new }
{
    let n = build::net_length(input);
    let built = build::build(&input[..n], state, log, budget);
    let behind = stop_line(out, built.stop);
    let sheet = sheet::show(out, behind, built.told, state);
    Output {
        log: built.log,
        sheet,
    }
}
