// The line of each call: its name, the answer's fields, and for a call that may write, each buffer that it may write, whole. The calls are those
// of the C interface, so that the test vectors hold it too.
ghost use Rattle.std.specs.Prelude.{◌≡◌, ◌≤◌, length};
ghost use Rattle.menuask.specs.Replies.{reply_to, left_by, third_by, Replied, both_most};

use crate::call::Call;
use text::line;

// The line of a request, at the buffer's front.
pub fn answer(out: &mut [u8], call: Call, net: &[u8], state: &mut [u8], third: &mut [u8]) -> usize
    requires { both_most (length state.old) (length third.old) ≤ length out.old }
    ensures upper_bound { result ≤ length out.new }
    ensures replied { Replied (reply_to call net.now state.old third.old) out.old out.new result }
    ensures state_after { state.new ≡ left_by call net.now state.old third.old }
    ensures third_after { third.new ≡ third_by call net.now state.old third.old }
{
    match call {
        Call::CheckNet => {
            let mut told = [0; 2];
            menu::menu_check_net(net, &mut told);
            line::put_line(out, 0, b"check_net", &told)
        }
        Call::Initial => {
            let mut told = [0; 2];
            menu::menu_initial(net, state, &mut told);
            line::put_line_with(out, 0, b"initial", &told, &[state])
        }
        Call::CheckState => {
            let mut told = [0; 2];
            menu::menu_check_state(net, state, &mut told);
            line::put_line(out, 0, b"check_state", &told)
        }
        Call::Event {
            first,
            second,
            started,
        } => {
            let mut told = [0; 4];
            menu::menu_event(net, state, first, second, u64::from(started), &mut told);
            line::put_line_with(out, 0, b"event", &told, &[state])
        }
        Call::Back {
            first,
            second,
            started,
        } => {
            let mut told = [0; 2];
            menu::menu_back(net, state, first, second, u64::from(started), &mut told);
            line::put_line_with(out, 0, b"back", &told, &[state])
        }
        Call::Degree { transition } => {
            let mut told = [0; 3];
            menu::menu_degree(net, state, transition, &mut told);
            line::put_line(out, 0, b"degree", &told)
        }
        Call::Owed => {
            let mut told = [0; 9];
            menu::menu_owed(net, state, &mut told);
            line::put_line(out, 0, b"owed", &told)
        }
        Call::Run { started } => {
            let mut told = [0; 7];
            menu::menu_run(net, state, third, u64::from(started), &mut told);
            line::put_line_with(out, 0, b"run", &told, &[state])
        }
        Call::Walk { events, started } => {
            let mut told = [0; 4];
            menu::menu_walk(net, state, third, events, u64::from(started), &mut told);
            line::put_line_with(out, 0, b"walk", &told, &[state])
        }
        Call::Step { step } => {
            let mut told = [0; 4];
            menu::menu_step(third, step, &mut told);
            line::put_line(out, 0, b"step", &told)
        }
        Call::Page { budget } => {
            let mut told = [0; 5];
            menu::menu_page(net, state, third, budget, &mut told);
            line::put_line_with(out, 0, b"page", &told, &[state, third])
        }
        Call::Balance => {
            let mut told = [0; 3];
            menu::menu_balance(net, state, third, &mut told);
            line::put_line(out, 0, b"balance", &told)
        }
    }
}
