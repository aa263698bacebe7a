// What a program writes: a buffer with the first line or two, and the lines of the counts as far as there is room; then the buffers with
// the others.
ghost use Rattle.std.specs.Prelude.{◌≡◌, ◌+◌, ◌≤◌, length, OnOk, OnErr};
ghost use Rattle.replay.specs.Replayed.{longest_state, replayed, replay_left};
ghost use Rattle.replay.specs.Lines.{least_buffer, run_most, cells_shown, LateShown, Reads, FirstSheet, Sheets, SheetsSoFar};

use crate::input::Replayed;
use crate::lines::Filled;
use crate::{input, lines};
use std::io;
use std::io::Write;

// The place behind the last line, the cell whose line is to come, if any, and how many cells are looked at; `print` goes on from there.
#[derive(Clone, Copy)]
pub struct Sheet {
    pub end: usize,
    pub next: Option<usize>,
    pub cells: usize,
}

// Puts what is to be printed of a replay into the buffer.
#[tactic(auto, using(crate::proofs::Shown::late_reads))]
pub fn show(out: &mut [u8], at: usize, told: Replayed, state: &[u8]) -> Sheet
    requires least_buffer_in_bounds { at + least_buffer ≤ length out.old }
    requires late_shown { LateShown told.number state.now }
    ensures first_sheet { FirstSheet out.old at told state.now out.new result.end result.next }
    ensures cells_value { result.cells ≡ cells_shown told.number state.now }
    ensures end_in_bounds { (result.end ≤ length out.new) × Reads state.now result.cells }
{
    let behind = lines::opening(out, at, told, state);
    let cells = lines::cells_shown(told.number, state);
    let Filled { end, next } = lines::runs(out, behind, state, cells, 0);
    Sheet { end, next, cells }
}

// Replays an input, and puts what is to be printed into the buffer. There is room for every state, so that 7 is not told for want of it.
#[tactic(auto, using(crate::proofs::Shown::late_shown))]
pub fn first(input: &[u8], state: &mut [u8], out: &mut [u8]) -> Sheet
    requires longest_state_in_bounds { longest_state ≤ length state.old }
    requires least_buffer_in_bounds { least_buffer ≤ length out.old }
    ensures first_sheet { FirstSheet out.old 0 (replayed input.now state.old) (replay_left input.now state.old) out.new result.end result.next }
    ensures cells_value { result.cells ≡ cells_shown (replayed input.now state.old).number (replay_left input.now state.old) }
    ensures state_after { state.new ≡ replay_left input.now state.old }
    ensures end_in_bounds { (result.end ≤ length out.new) × Reads state.new result.cells }
{
    let told = input::replay(input, state);
    show(out, 0, told, state)
}

// Writes a sheet, and then the lines of the counts that are still to come: a buffer at a time, since by the bound of a line they might be more
// than one has room for. Where a write fails, the buffer holds the sheet or the lines that were not written whole.
pub fn print<W: Write>(to: &mut W, out: &mut [u8], state: &[u8], sheet: Sheet) -> io::Result<()>
    requires end_in_bounds { (sheet.end ≤ length out.old) × (run_most ≤ length out.old) }
    requires reads { Reads state.now sheet.cells }
    ensures ok { OnOk result (Sheets state.now sheet.cells out.old sheet.next out.new) }
    ensures err { OnErr result (SheetsSoFar state.now sheet.cells out.old sheet.next out.new) }
{
    let Sheet {
        mut end,
        mut next,
        cells,
    } = sheet;
    while let Some(cell) = next {
        to.write_all(&out[..end])?;
        let filled = lines::runs(out, 0, state, cells, cell);
        end = filled.end;
        next = filled.next;
    }
    to.write_all(&out[..end])
}
