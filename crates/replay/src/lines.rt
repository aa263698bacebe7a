// The lines that menurun prints, each put into a lent buffer. A function that puts a line answers the place behind it. Which lines there
// are is answered here too, so that a program has only to write them.
ghost use Rattle.std.specs.Prelude.{◌≡◌, [], ◌+◌, ◌*◌, ◌<◌, ◌≤◌, length, IfSome};
ghost use Rattle.text.specs.Lines.{Line};
ghost use Rattle.replay.specs.Replayed.{Shown};
ghost use Rattle.replay.specs.Lines.{result_name, result_fields, marks_name, marks_fields, run_name, run_fields, cell_fields};
ghost use Rattle.replay.specs.Lines.{LateShown, Opens, shape_in, cells_in, count_of, cells_shown, next_running, RunLines, Reads};
ghost use Rattle.replay.specs.Lines.{result_most, marks_most, run_most, least_buffer};

use crate::input;
use crate::input::Replayed;
use forms::{places, words};
use model::age::Age;
use model::net::Net;
use text::line;

// The line of a count has at most so many bytes: its name, transition, age and count, and its end.
pub const RUN_MOST: usize = 3 + 3 * line::FIELD_MOST + 1;

// How far the lines of the counts have come: the place behind the last of them, and the cell whose line is to come, if any.
#[derive(Clone, Copy)]
pub struct Filled {
    pub end: usize,
    pub next: Option<usize>,
}

// The line of the result.
pub fn result(out: &mut [u8], at: usize, told: Replayed) -> usize
    requires { at + result_most ≤ length out.old }
    ensures upper_bound { result ≤ at + result_most }
    ensures line { Line out.old at result_name (result_fields told) [] out.new result }
{
    let short = told.short;
    let numbers = [
        told.number as u64,
        told.index as u64,
        told.done as u64,
        told.ticks as u64,
        told.standing as u64,
        short.place as u64,
        short.lacks as u64,
    ];
    line::put_line(out, at, b"result", &numbers)
}

// The line of the markings, place by place.
#[tactic(auto, unfolding(forms::specs::Places::state_length))]
pub fn marks(out: &mut [u8], at: usize, state: &[u8]) -> usize
    requires marks_most_in_bounds { at + marks_most ≤ length out.old }
    requires shown { Shown state.now }
    ensures upper_bound { result ≤ at + marks_most }
    ensures line { Line out.old at marks_name (marks_fields state.now) [] out.new result }
{
    let places = usize::from(state[places::PLACES_AT]);
    let mut end = line::put_bytes(out, at, b"marks");
    for p in 0..places {
        let tokens = words::read16(state, places::mark_at(p));
        end = line::put_field(out, end, tokens as u64);
    }
    line::put_byte(out, end, b'\n')
}

// The first line, and the second where the number is not early.
pub fn opening(out: &mut [u8], at: usize, told: Replayed, state: &[u8]) -> usize
    requires least_buffer_in_bounds { at + least_buffer ≤ length out.old }
    requires late_shown { LateShown told.number state.now }
    ensures upper_bound { result ≤ at + least_buffer }
    ensures opens { Opens out.old at told state.now out.new result }
{
    let end = result(out, at, told);
    if input::is_early(told.number) {
        end
    } else {
        marks(out, end, state)
    }
}

// The shape that the state's own head says.
fn shape_in(state: &[u8]) -> Net
    requires { 8 ≤ length state.now }
    ensures value { result ≡ shape_in state.now }
    ensures places_bound { (result.places < 256) × (result.transitions < 256) × (result.width < 256) }
{
    Net::new(
        usize::from(state[places::PLACES_AT]),
        usize::from(state[places::TRANSITIONS_AT]),
        usize::from(state[places::WIDTH_AT]),
    )
}

// How many counts are looked at: none where the number is early.
pub fn cells_shown(number: u8, state: &[u8]) -> usize
    requires { LateShown number state.now }
    ensures { result ≡ cells_shown number state.now }
{
    if input::is_early(number) {
        0
    } else {
        places::cells(shape_in(state))
    }
}

// The count of a cell.
#[tactic(auto, using(crate::proofs::Cells::cell_inside), unfolding(crate::specs::Lines::count_of))]
fn count(state: &[u8], cell: usize) -> usize
    requires shown { Shown state.now }
    requires cell_bound { cell < cells_in state.now }
    ensures { result ≡ count_of state.now cell }
{
    let shape = shape_in(state);
    let age = Age((cell % shape.width) as u8);
    words::read16(
        state,
        places::count_at(shape, cell / shape.width, age.column()),
    )
}

// The first of so many cells, from `from` on, whose count is above 0.
#[tactic(auto, unfolding(crate::specs::Lines::next_running))]
pub fn next_running(state: &[u8], cells: usize, from: usize) -> Option<usize>
    requires { Reads state.now cells }
    ensures value { result ≡ next_running state.now cells from }
    ensures lower_bound { IfSome result (λ cell. from ≤ cell) }
    ensures upper_bound { IfSome result (λ cell. cell < cells) }
{
    (from..cells).find(|cell| 0 < count(state, *cell))
}

// The line of a count.
pub fn run(out: &mut [u8], at: usize, t: usize, age: Age, count: usize) -> usize
    requires { at + run_most ≤ length out.old }
    ensures upper_bound { result ≤ at + run_most }
    ensures line { Line out.old at run_name (run_fields t age count) [] out.new result }
{
    let numbers = [t as u64, age.0 as u64, count as u64];
    line::put_line(out, at, b"run", &numbers)
}

// The line of a cell.
pub fn run_of(out: &mut [u8], at: usize, state: &[u8], cell: usize) -> usize
    requires run_most_in_bounds { at + run_most ≤ length out.old }
    requires shown { Shown state.now }
    requires cell_bound { cell < cells_in state.now }
    ensures upper_bound { result ≤ at + run_most }
    ensures line { Line out.old at run_name (cell_fields state.now cell) [] out.new result }
{
    let width = usize::from(state[places::WIDTH_AT]);
    let age = Age((cell % width) as u8);
    run(out, at, cell / width, age, count(state, cell))
}

// The lines of the counts above 0, from the cell `from` on, while there is room for the longest. A program goes on with the cell that is
// to come once it has written the buffer.
pub fn runs(out: &mut [u8], at: usize, state: &[u8], cells: usize, from: usize) -> Filled
    requires at_in_bounds { at ≤ length out.old }
    requires reads { Reads state.now cells }
    ensures end_in_bounds { result.end ≤ length out.new }
    ensures run_lines { RunLines state.now cells out.old at (next_running state.now cells from) out.new result.end result.next }
{
    let mut end = at;
    let mut next = next_running(state, cells, from);
    while let Some(cell) = next {
        if out.len() - end < RUN_MOST {
            break;
        }
        end = run_of(out, end, state, cell);
        next = next_running(state, cells, cell + 1);
    }
    Filled { end, next }
}
