// Lines, and what they are made of, put into a lent buffer from a place on: bytes, decimal numbers, and bytes in hex. Each function
// answers the place behind what it put. Nothing else in the buffer changes.
//
// The buffer and the place go as two arguments: of a struct that held the lent buffer each clause would speak as `w.new.out.now` and `w.new.at`,
// where it now says `out.new` and `result`, and most callers would make the struct for a single line, at 0.
ghost use Rattle.std.specs.Prelude.{◌≡◌, [], ◌+◌, ◌*◌, ◌<◌, ◌≤◌, length, set};
ghost use Rattle.std.proofs.Math.Seq.{paste};
ghost use Rattle.io.specs.Digits.{hex_digit_ascii};
ghost use Rattle.text.specs.Lines.{digits_most, field_most, buffer_most, line_most, space, Spelt, Fields};
ghost use Rattle.text.specs.Lines.{hexed, buffered, contents, behind_buffer, all_buffered, behind_buffers, buffers_most, Line};

// A number of 64 bits has at most so many digits in decimal.
pub const DIGITS_MOST: usize = 20;

// A field is a blank and a number.
pub const FIELD_MOST: usize = 1 + DIGITS_MOST;

// One byte.
pub fn put_byte(out: &mut [u8], at: usize, byte: u8) -> usize
    requires { at < length out.old }
    ensures value { result ≡ at + 1 }
    ensures out_after { out.new ≡ set out.old at byte }
{
    out[at] = byte;
    at + 1
}

// All of the bytes.
pub fn put_bytes(out: &mut [u8], at: usize, bytes: &[u8]) -> usize
    requires { at + length bytes.now ≤ length out.old }
    ensures value { result ≡ at + length bytes.now }
    ensures out_after { out.new ≡ paste out.old at bytes.now (length bytes.now) }
{
    let end = at + bytes.len();
    out[at..end].copy_from_slice(bytes);
    end
}

// A number in decimal.
pub fn put_decimal(out: &mut [u8], at: usize, n: u64) -> usize
    requires { at + digits_most ≤ length out.old }
    ensures upper_bound { result ≤ at + digits_most }
    ensures spelt { Spelt out.old at n out.new result }
{
    let mut digits = [0u8; DIGITS_MOST];
    let places = io::decimal(n, &mut digits);
    put_bytes(out, at, &digits[..places])
}

// A blank, and a number in decimal.
pub fn put_field(out: &mut [u8], at: usize, n: u64) -> usize
    requires { at + field_most ≤ length out.old }
    ensures upper_bound { result ≤ at + field_most }
    ensures spelt { Spelt (set out.old at space) (at + 1) n out.new result }
{
    let from = put_byte(out, at, b' ');
    put_decimal(out, from, n)
}

// The numbers, a blank before each.
#[tactic(auto, using(crate::proofs::Puts::fields))]
pub fn put_fields(out: &mut [u8], at: usize, numbers: &[u64]) -> usize
    requires { at + length numbers.now * field_most ≤ length out.old }
    ensures upper_bound { result ≤ at + length numbers.now * field_most }
    ensures fields { Fields out.old at numbers.now out.new result }
{
    let mut end = at;
    for n in numbers {
        end = put_field(out, end, *n);
    }
    end
}

// The bytes in hex, two digits each, in lower case.
#[tactic(auto, unfolding(crate::specs::Lines::hexed))]
pub fn put_hex(out: &mut [u8], at: usize, bytes: &[u8]) -> usize
    requires { at + 2 * length bytes.now ≤ length out.old }
    ensures value { result ≡ at + 2 * length bytes.now }
    ensures out_after { out.new ≡ hexed out.old at bytes.now (length bytes.now) }
{
    for (i, byte) in bytes.iter().enumerate() {
        out[at + 2 * i] = digit(*byte / 16);
        out[at + 2 * i + 1] = digit(*byte % 16);
    }
    at + 2 * bytes.len()
}

// The hex digit of a number below 16.
fn digit(n: u8) -> u8
    requires { n < 16 }
    ensures { result ≡ hex_digit_ascii n }
{
    if n < 10 { b'0' + n } else { b'a' - 10 + n }
}

// A blank, and the bytes in hex, or `-` where there is none.
#[tactic(auto, unfolding(crate::specs::Lines::buffered, crate::specs::Lines::behind_buffer))]
pub fn put_buffer(out: &mut [u8], at: usize, bytes: &[u8]) -> usize
    requires { at + buffer_most (length bytes.now) ≤ length out.old }
    ensures value { (result ≡ behind_buffer at bytes.now) × (result ≤ at + buffer_most (length bytes.now)) }
    ensures out_after { out.new ≡ buffered out.old at bytes.now }
{
    let from = put_byte(out, at, b' ');
    if bytes.is_empty() {
        put_byte(out, from, b'-')
    } else {
        put_hex(out, from, bytes)
    }
}

// The buffers as fields, one behind the other.
fn put_buffers(out: &mut [u8], at: usize, buffers: &[&[u8]]) -> usize
    requires { at + buffers_most (contents buffers.now) ≤ length out.old }
    ensures value { (result ≡ behind_buffers at (contents buffers.now)) × (result ≤ at + buffers_most (contents buffers.now)) }
    ensures out_after { out.new ≡ all_buffered out.old at (contents buffers.now) }
{
    let mut end = at;
    for bytes in buffers {
        end = put_buffer(out, end, bytes);
    }
    end
}

// A line: a name and numbers, and the buffers behind them.
pub fn put_line_with(
    out: &mut [u8],
    at: usize,
    name: &[u8],
    numbers: &[u64],
    buffers: &[&[u8]],
) -> usize
    requires { at + line_most (length name.now) (length numbers.now) + buffers_most (contents buffers.now) ≤ length out.old }
    ensures upper_bound { result ≤ at + line_most (length name.now) (length numbers.now) + buffers_most (contents buffers.now) }
    ensures line { Line out.old at name.now numbers.now (contents buffers.now) out.new result }
{
    let named = put_bytes(out, at, name);
    let last = put_fields(out, named, numbers);
    let end = put_buffers(out, last, buffers);
    put_byte(out, end, b'\n')
}

// A line with no buffer.
pub fn put_line(out: &mut [u8], at: usize, name: &[u8], numbers: &[u64]) -> usize
    requires { at + line_most (length name.now) (length numbers.now) ≤ length out.old }
    ensures upper_bound { result ≤ at + line_most (length name.now) (length numbers.now) }
    ensures line { Line out.old at name.now numbers.now [] out.new result }
{
    put_line_with(out, at, name, numbers, &[])
}
