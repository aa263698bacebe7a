// Reads a net and then a log from standard input, runs the log from the net's initial state, and prints how it ended. What is told, and
// every byte of the lines, is decided and proved in the crate replay. Here is only what reads and writes.
#![tactic(auto)]

ghost use Rattle.std.specs.Prelude.{◌≤◌, length};
ghost use Rattle.replay.specs.Replayed.{enough, longest_state};
ghost use Rattle.replay.specs.Lines.{least_buffer};

use forms::places;
use replay::sheet;
use std::io;
use std::io::{Read, Write};

// The longest net, the longest log and a byte more: what a program does not read behind them changes no answer (`CutOff` of replay).
const INPUT_MOST: usize = places::LONGEST_NET + places::LONGEST_LOG + 1;

// How long the buffer for the lines is.
const BUFFER: usize = 65536;

// Replays what arrives, and prints what came of it. The buffers are lent, since nothing allocates.
fn answer<R: Read, W: Write>(
    from: &mut R,
    to: &mut W,
    arrived: &mut [u8],
    state: &mut [u8],
    out: &mut [u8],
) -> io::Result<()>
    requires enough_in_bounds { enough ≤ length arrived.old }
    requires longest_state_in_bounds { longest_state ≤ length state.old }
    requires least_buffer_in_bounds { least_buffer ≤ length out.old }
{
    let n = streams::read_full(from, arrived)?;
    let first = sheet::first(&arrived[..n], state, out);
    sheet::print(to, out, state, first)
}

fn main(rt: HostRuntime) -> io::Result<()> {
    let mut arrived = [0u8; INPUT_MOST];
    let mut state = [0u8; places::LONGEST_STATE];
    let mut out = [0u8; BUFFER];
    let mut stdin = rt.stdin();
    let mut stdout = rt.stdout();
    answer(&mut stdin, &mut stdout, &mut arrived, &mut state, &mut out)
}
