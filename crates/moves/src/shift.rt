// A block of words of two bytes moved by one place within its slice.
ghost use Rattle.std.specs.Prelude.{◌≡◌, ◌+◌, ◌*◌, ◌≤◌, length};
ghost use Rattle.forms.specs.Word.{put_words};
ghost use Rattle.moves.specs.Shift.{later, sooner};

use forms::words;

// Moves each word of the block to the next place, the last one first, and puts 0 in the first: what stood in the last is lost.
// The bytes are counted, which lets a compiler make one move of memory of the loop; of `copy_within` it makes none, which is slower.
pub fn shift_up(s: &mut [u8], base: usize, cells: usize)
    requires { (1 ≤ cells) × (base + 2 * cells ≤ length s.old) }
    ensures { s.new ≡ put_words base cells (later s.old base) s.old }
{
    for n in (0..2 * (cells - 1)).rev() {
        s[base + 2 + n] = s[base + n];
    }
    words::write16(s, base, 0);
}

// Moves each word of the block to the place before, the first one first, and puts 0 in the last: what stood in the first is lost.
pub fn shift_down(s: &mut [u8], base: usize, cells: usize)
    requires { (1 ≤ cells) × (base + 2 * cells ≤ length s.old) }
    ensures { s.new ≡ put_words base cells (sooner s.old base cells) s.old }
{
    let all = 2 * (cells - 1);
    for n in 0..all {
        s[base + n] = s[base + 2 + n];
    }
    words::write16(s, base + all, 0);
}
