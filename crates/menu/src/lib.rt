// The calls of the engine, of the page runner and of the balance for programs in C and other languages. The crate menu_c is the static library
// of them, which include/menu.h declares; a slice is a pointer and a length there. Each function tells its answer in a lent array of numbers, in the
// order that it has there, so that one form serves every call and no struct's layout is agreed upon twice. None asks anything of the bytes that it
// is given, and the last clause of each contract is the call's promise, of these very numbers and bytes. `started` is 0 where no start has happened
// in the step, and any other number where one has.
#![tactic(auto)]

ghost use Rattle.std.specs.Prelude.{◌≡◌};
ghost use Rattle.engine.specs.Calls.{net_told, state_told, initial_told, initial_left, event_told, event_left, back_told, back_left};
ghost use Rattle.engine.specs.Calls.{degree_told, owed_told, run_told, run_left, walk_told, walk_left, step_told};
ghost use Rattle.engine.specs.Promised.{CheckNetPromise, CheckStatePromise, InitialPromise, EventPromise, BackPromise};
ghost use Rattle.engine.specs.Promised.{DegreePromise, OwedPromise, RunPromise, WalkPromise, StepPromise};
ghost use Rattle.runner.specs.Call.{page_told, state_left, log_left};
ghost use Rattle.runner.specs.Promised.{PagePromise};
ghost use Rattle.balance.specs.Told.{balance_told};
ghost use Rattle.balance.specs.Promised.{BalancePromise};
ghost use Rattle.menu.specs.Fields.{said_started, OfAnswer, verdict_fields, event_fields, degree_fields, owed_fields, run_fields, walk_fields, step_fields, page_fields};
ghost use Rattle.menu.specs.Fields.{balance_fields};

use balance::call as balance_call;
use engine::answers::Verdict;
use engine::calls;
use runner::call;

fn number_and_index(told: Verdict) -> [u64; 2]
    ensures { result ≡ verdict_fields told }
{
    [told.number as u64, told.index as u64]
}

// Checks a net: 1 to 6.
pub fn menu_check_net(net: &[u8], answer: &mut [u64; 2])
    ensures answer_after { answer.new ≡ verdict_fields (net_told net.now) }
    ensures of_answer { OfAnswer verdict_fields answer.new (λ r. CheckNetPromise net.now r) }
{
    *answer = number_and_index(calls::check_net(net));
}

// Writes the initial state of a net at the front of the buffer: 1 to 7.
pub fn menu_initial(net: &[u8], state: &mut [u8], answer: &mut [u64; 2])
    ensures answer_after { answer.new ≡ verdict_fields (initial_told net.now state.old) }
    ensures state_after { state.new ≡ initial_left net.now state.old }
    ensures of_answer { OfAnswer verdict_fields answer.new (λ r. InitialPromise net.now state.old r state.new) }
{
    *answer = number_and_index(calls::initial(net, state));
}

// Checks a state of a net: 1 to 6, 8, 9.
pub fn menu_check_state(net: &[u8], state: &[u8], answer: &mut [u64; 2])
    ensures answer_after { answer.new ≡ verdict_fields (state_told net.now state.now) }
    ensures of_answer { OfAnswer verdict_fields answer.new (λ r. CheckStatePromise net.now state.now r) }
{
    *answer = number_and_index(calls::check_state(net, state));
}

// Does one event, given by its two bytes. `started`: a start has happened before it, in the same step. It tells 1 to 6, 8, 9, 11 to 20, 28, 29.
pub fn menu_event(
    net: &[u8],
    state: &mut [u8],
    first: u8,
    second: u8,
    started: u64,
    answer: &mut [u64; 4],
)
    ensures answer_after { answer.new ≡ event_fields (event_told net.now state.old first second (said_started started)) }
    ensures state_after { state.new ≡ event_left net.now state.old first second (said_started started) }
    ensures of_answer { OfAnswer event_fields answer.new (λ r. EventPromise net.now state.old first second (said_started started) r state.new) }
{
    let told = calls::event(net, state, first, second, started != 0);
    *answer = [
        told.number as u64,
        told.index as u64,
        told.short.place as u64,
        told.short.lacks as u64,
    ];
}

// Takes one event back. `started`: a start had happened before it, in the same step. It tells 1 to 6, 8, 9, 11, 12, 15, 18, 20, 21, 24 to 29.
pub fn menu_back(
    net: &[u8],
    state: &mut [u8],
    first: u8,
    second: u8,
    started: u64,
    answer: &mut [u64; 2],
)
    ensures answer_after { answer.new ≡ verdict_fields (back_told net.now state.old first second (said_started started)) }
    ensures state_after { state.new ≡ back_left net.now state.old first second (said_started started) }
    ensures of_answer { OfAnswer verdict_fields answer.new (λ r. BackPromise net.now state.old first second (said_started started) r state.new) }
{
    *answer = number_and_index(calls::back(net, state, first, second, started != 0));
}

// How many times transition t is enabled: 1 to 6, 8, 9, 12.
pub fn menu_degree(net: &[u8], state: &[u8], t: usize, answer: &mut [u64; 3])
    ensures answer_after { answer.new ≡ degree_fields (degree_told net.now state.now t) }
    ensures of_answer { OfAnswer degree_fields answer.new (λ r. DegreePromise net.now state.now t r) }
{
    let told = calls::degree(net, state, t);
    *answer = [told.number as u64, told.index as u64, told.degree as u64];
}

// What a state owes, and how it stands: 1 to 6, 8, 9.
pub fn menu_owed(net: &[u8], state: &[u8], answer: &mut [u64; 9])
    ensures answer_after { answer.new ≡ owed_fields (owed_told net.now state.now) }
    ensures of_answer { OfAnswer owed_fields answer.new (λ r. OwedPromise net.now state.now r) }
{
    let told = calls::owed(net, state);
    *answer = [
        told.number as u64,
        told.index as u64,
        told.starts.word,
        told.ends.word,
        told.starts.count as u64,
        told.ends.count as u64,
        told.starts.lowest as u64,
        told.ends.lowest as u64,
        told.standing as u64,
    ];
}

// Runs a log. `started`: a start has happened before its first event, in the same step. It tells 1 to 6, 8 to 20, 28, 29.
pub fn menu_run(net: &[u8], state: &mut [u8], log: &[u8], started: u64, answer: &mut [u64; 7])
    ensures answer_after { answer.new ≡ run_fields (run_told net.now state.old log.now (said_started started)) }
    ensures state_after { state.new ≡ run_left net.now state.old log.now (said_started started) }
    ensures of_answer { OfAnswer run_fields answer.new (λ r. RunPromise net.now state.old log.now (said_started started) r state.new) }
{
    let told = calls::run(net, state, log, started != 0);
    *answer = [
        told.number as u64,
        told.index as u64,
        told.done as u64,
        told.ticks as u64,
        told.short.place as u64,
        told.short.lacks as u64,
        told.started as u64,
    ];
}

// Walks the last n events of a log back. `started`: a start had happened before the log's first event, in the same step. It tells 1 to 6, 8 to 12, 15, 18,
// 20 to 22, 24 to 29.
pub fn menu_walk(
    net: &[u8],
    state: &mut [u8],
    log: &[u8],
    n: usize,
    started: u64,
    answer: &mut [u64; 4],
)
    ensures answer_after { answer.new ≡ walk_fields (walk_told net.now state.old log.now n (said_started started)) }
    ensures state_after { state.new ≡ walk_left net.now state.old log.now n (said_started started) }
    ensures of_answer { OfAnswer walk_fields answer.new (λ r. WalkPromise net.now state.old log.now n (said_started started) r state.new) }
{
    let told = calls::walk(net, state, log, n, started != 0);
    *answer = [
        told.number as u64,
        told.index as u64,
        told.done as u64,
        told.ticks as u64,
    ];
}

// Where step k of a log stands in it: 10, 23. The caller has the log, so a start and a length say what the part itself would.
pub fn menu_step(log: &[u8], k: usize, answer: &mut [u64; 4])
    ensures answer_after { answer.new ≡ step_fields (step_told log.now k) }
    ensures of_answer { OfAnswer step_fields answer.new (λ r. StepPromise log.now k r) }
{
    let told = calls::step_told(log, k);
    *answer = [
        told.number as u64,
        told.index as u64,
        told.start as u64,
        told.length as u64,
    ];
}

// Builds a page by the net, and writes its log: 1 to 6, 8 to 10.
pub fn menu_page(net: &[u8], state: &mut [u8], log: &mut [u8], budget: usize, answer: &mut [u64; 5])
    ensures answer_after { answer.new ≡ page_fields (page_told net.now state.old log.old budget) }
    ensures state_after { state.new ≡ state_left net.now state.old log.old budget }
    ensures log_after { log.new ≡ log_left net.now state.old log.old budget }
    ensures of_answer { OfAnswer page_fields answer.new (λ r. PagePromise net.now state.old log.old budget r state.new log.new) }
{
    let told = call::page(net, state, log, budget);
    *answer = [
        told.number as u64,
        told.index as u64,
        told.stop as u64,
        told.events as u64,
        told.ticks as u64,
    ];
}

// Whether each transition puts out the weight it takes in, under weights of two bytes for each place, and what the state weighs: 1 to 6, 8, 9, 31, 30.
pub fn menu_balance(net: &[u8], state: &[u8], weights: &[u8], answer: &mut [u64; 3])
    ensures answer_after { answer.new ≡ balance_fields (balance_told net.now state.now weights.now) }
    ensures of_answer { OfAnswer balance_fields answer.new (λ r. BalancePromise net.now state.now weights.now r) }
{
    let told = balance_call::balance(net, state, weights);
    *answer = [told.number as u64, told.index as u64, told.total];
}
