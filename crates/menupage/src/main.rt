// Reads a net from standard input, builds its page, and prints how that ended; with `--log` it writes the page's log, and the lines to standard
// error. What the arguments ask for, what is told, and every byte of the log and the lines, is decided and proved in the crates pageshow, runner
// and replay. Here is only what reads and writes.
#![tactic(auto)]

ghost use Rattle.std.specs.Prelude.{◌+◌, ◌≤◌, length};
ghost use Rattle.replay.specs.Replayed.{longest_state};
ghost use Rattle.replay.specs.Lines.{least_buffer};
ghost use Rattle.pageshow.specs.Built.{enough};
ghost use Rattle.pageshow.specs.Sheet.{stop_most, longest_log};

use forms::places;
use pageshow::arguments::Wish;
use pageshow::{arguments, sheet};
use std::env::Env;
use std::io;
use std::io::{Read, Write};

// The longest net and a byte more: what a program does not read behind them changes no answer (`CutOff` of pageshow).
const INPUT_MOST: usize = places::LONGEST_NET + 1;

// Room for every word that is one of ours. A longer one arrives with no bytes, which is none of ours either.
const WORD_MOST: usize = 16;

// How long the buffer for the lines is.
const BUFFER: usize = 65536;

fn usage<W: Write>(to: &mut W) -> io::Result<()> {
    to.write_all(
        b"usage: menupage [--log] [BUDGET] <net, where BUDGET is a number of events from 0 to 4294967295\n",
    )
}

// Takes the words behind the program's own name.
fn take_arguments<E: Env>(env: &E) -> Option<Wish> {
    let mut first = [0u8; WORD_MOST];
    let mut second = [0u8; WORD_MOST];
    let m = env.arg(1, &mut first).unwrap_or(0);
    let n = env.arg(2, &mut second).unwrap_or(0);
    let count = streams::argument_count(env);
    arguments::read(count.saturating_sub(1), &first[..m], &second[..n])
}

// Builds the page of what arrives, and prints what came of it: the lines, or with `--log` the log, and the lines aside. The buffers are lent,
// since nothing allocates.
fn answer<R: Read, W: Write, A: Write>(
    wish: Wish,
    from: &mut R,
    to: &mut W,
    aside: &mut A,
    arrived: &mut [u8],
    state: &mut [u8],
    log: &mut [u8],
    out: &mut [u8],
) -> io::Result<()>
    requires enough_in_bounds { enough ≤ length arrived.old }
    requires longest_state_in_bounds { longest_state ≤ length state.old }
    requires longest_log_in_bounds { longest_log ≤ length log.old }
    requires least_buffer_in_bounds { stop_most + least_buffer ≤ length out.old }
{
    let n = streams::read_full(from, arrived)?;
    let page = sheet::first(&arrived[..n], wish.budget, state, log, out);
    let lines = page.sheet;
    if wish.log {
        let end = page.log;
        to.write_all(&log[..end])?;
        replay::sheet::print(aside, out, state, lines)
    } else {
        replay::sheet::print(to, out, state, lines)
    }
}

fn serve(rt: &HostRuntime, wish: Wish) -> io::Result<()> {
    let mut arrived = [0u8; INPUT_MOST];
    let mut state = [0u8; places::LONGEST_STATE];
    let mut log = [0u8; places::LONGEST_LOG];
    let mut out = [0u8; BUFFER];
    let mut stdin = rt.stdin();
    let mut stdout = rt.stdout();
    let mut stderr = rt.stderr();
    answer(
        wish,
        &mut stdin,
        &mut stdout,
        &mut stderr,
        &mut arrived,
        &mut state,
        &mut log,
        &mut out,
    )
}

fn main(rt: HostRuntime) -> io::Result<()> {
    match take_arguments(&rt) {
        Some(wish) => serve(&rt, wish),
        None => usage(&mut rt.stderr()),
    }
}
