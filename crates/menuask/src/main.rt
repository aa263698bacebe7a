// Answers requests for any call of the engine, one line for each (docs/ASK.md). Every byte of a line is promised by `answer`; what is read
// and written no contract can say, so here is only that.
#![tactic(auto)]

mod answer;
mod call;
mod request;

ghost use Rattle.std.specs.Prelude.{◌≡◌, length};
ghost use Rattle.menuask.specs.Requests.{slice_most, third_most};

use request::{RequestError, SLICE_MOST, Slices, THIRD_MOST};
use std::io;
use std::io::{Read, Write};

// The longest line shows a state's buffer and a log's in hex, behind a name and some numbers.
const LINE_MOST: usize = 256 + 2 * (SLICE_MOST + THIRD_MOST);

// Answers one request, and says whether to go on: not where the input has ended or the request was bad.
fn serve<R: Read, W: Write>(
    from: &mut R,
    to: &mut W,
    slices: &mut Slices,
    line: &mut [u8; LINE_MOST],
) -> io::Result<bool>
    requires { (length slices.old.net.now ≡ slice_most) × (length slices.old.state.now ≡ slice_most) × (length slices.old.third.now ≡ third_most) }
    ensures { (length slices.new.net.now ≡ slice_most) × (length slices.new.state.now ≡ slice_most) × (length slices.new.third.now ≡ third_most) }
{
    let mut code = [0u8; 1];
    if streams::read_full(from, &mut code)? == 0 {
        return Ok(false);
    }
    match request::read(from, code[0], slices) {
        Ok(request) => {
            let net = &mut slices.net[..request.net];
            let state = &mut slices.state[..request.state];
            let third = &mut slices.third[..request.third];
            let end = answer::answer(line, request.call, net, state, third);
            to.write_all(&line[..end])?;
            Ok(true)
        }
        Err(RequestError::Bad) => {
            to.write_all(b"bad request\n")?;
            Ok(false)
        }
        Err(RequestError::Failed(e)) => Err(e),
    }
}

// A proved loop has to end, and nothing says that the input does. So it has as many turns as no run uses up.
fn serve_all<R: Read, W: Write>(
    from: &mut R,
    to: &mut W,
    slices: &mut Slices,
    line: &mut [u8; LINE_MOST],
) -> io::Result<()>
    requires { (length slices.old.net.now ≡ slice_most) × (length slices.old.state.now ≡ slice_most) × (length slices.old.third.now ≡ third_most) }
{
    for _ in 0..u64::MAX {
        if !serve(from, to, slices, line)? {
            break;
        }
    }
    Ok(())
}

fn main(rt: HostRuntime) -> io::Result<()> {
    let mut net = [0; SLICE_MOST];
    let mut state = [0; SLICE_MOST];
    let mut third = [0; THIRD_MOST];
    let mut slices = Slices {
        net: &mut net,
        state: &mut state,
        third: &mut third,
    };
    let mut line = [0; LINE_MOST];
    serve_all(&mut rt.stdin(), &mut rt.stdout(), &mut slices, &mut line)
}
