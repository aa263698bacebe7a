// Words put into a lent buffer. Some capital letters among them stand for numbers that are given beside; each other byte stands for itself.
ghost use Rattle.std.specs.Prelude.{◌≡◌, ◌+◌, ◌*◌, ◌≤◌, length};
ghost use Rattle.phrases.specs.Names.{name_of, bytes_of};
ghost use Rattle.phrases.specs.Wording.{piece_most, Numbered, Piece, Worded};

use crate::names;
use crate::names::Kind;
use text::line;

// No words have more numbers in them: A, B, C and D.
pub const NUMBERS_MOST: usize = 4;

// What stands for one byte of the words has at most so many bytes: a number, a blank and a name.
pub const PIECE_MOST: usize = line::DIGITS_MOST + 1 + names::NAME_MOST;

// All of the words; the place behind them.
#[tactic(auto, using(crate::proofs::Phrased::worded_turn, crate::proofs::Phrased::worded_end))]
pub fn put(
    out: &mut [u8],
    at: usize,
    words: &[u8],
    numbers: [usize; NUMBERS_MOST],
    names: &[u8],
) -> usize
    requires { at + length words.now * piece_most ≤ length out.old }
    ensures upper_bound { result ≤ at + length words.now * piece_most }
    ensures worded { Worded numbers names.now out.old at words.now out.new result }
{
    let mut end = at;
    for byte in words {
        end = put_piece(out, end, *byte, numbers, names);
    }
    end
}

// What stands for one byte of the words.
#[tactic(auto, using(crate::proofs::Phrased::place_piece, crate::proofs::Phrased::transition_piece, crate::proofs::Phrased::number_piece, crate::proofs::Phrased::plain_piece))]
fn put_piece(
    out: &mut [u8],
    at: usize,
    byte: u8,
    numbers: [usize; NUMBERS_MOST],
    names: &[u8],
) -> usize
    requires { at + piece_most ≤ length out.old }
    ensures upper_bound { result ≤ at + piece_most }
    ensures piece { Piece numbers names.now out.old at byte out.new result }
{
    match byte {
        b'P' => put_named(out, at, numbers[0], Kind::Place, names),
        b'T' => put_named(out, at, numbers[0], Kind::Transition, names),
        b'A'..=b'D' => { line::put_decimal(out, at, numbers[(byte - b'A') as usize] as u64) }
        _ => line::put_byte(out, at, byte),
    }
}

// A number, and a blank and the name behind it, where there is one.
#[tactic(auto, using(crate::proofs::Phrased::number_alone, crate::proofs::Phrased::with_name))]
fn put_named(out: &mut [u8], at: usize, number: usize, kind: Kind, names: &[u8]) -> usize
    requires { at + piece_most ≤ length out.old }
    ensures upper_bound { result ≤ at + piece_most }
    ensures numbered { Numbered out.old at number (bytes_of names.now (name_of names.now kind number)) out.new result }
{
    let end = line::put_decimal(out, at, number as u64);
    let Some(name) = names::name_of(names, kind, number) else {
        return end;
    };
    let behind = line::put_byte(out, end, b' ');
    line::put_bytes(out, behind, &names[name.from..name.to])
}
