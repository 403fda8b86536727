// The calls for programs in C and Rust. A slice is passed as its first word's address and its number of words.
#![tactic(auto)]

ghost use Rattle.std.specs.Prelude.{◌≡◌};
ghost use Rattle.rules.specs.Calls as calls;
ghost use Rattle.rules.specs.Refused.{answer_number};
ghost use Rattle.index.specs.Rows.{board_part};

use rules::refusal::Refusal;

// The number that a program reads for an answer.
fn number<T>(answer: &Result<T, Refusal>) -> u32
    ensures { result ≡ answer_number answer.now }
{
    match answer {
        Ok(_) => 0,
        Err(refusal) => u32::from(*refusal),
    }
}

#[unsafe(no_mangle)]
pub extern "C" fn shunebokai_start(p: u32, k: u32, b: u32, store: &mut [u32]) -> u32
    ensures { calls.start p k b store.old ≡ record { number = result; store = store.new } }
{
    number(&index::start(p, k, b, store))
}

// Two words of answers a step: its number and its count.
#[unsafe(no_mangle)]
pub extern "C" fn shunebokai_run(store: &mut [u32], steps: &[u32], answers: &mut [u32]) -> u32
    ensures { calls.run_call store.old steps.now answers.old ≡ record { number = result; store = store.new; answers = answers.new } }
{
    number(&index::run(store, steps, answers))
}

// The row count goes to `count`; refused, it is 0.
#[unsafe(no_mangle)]
pub extern "C" fn shunebokai_query(
    store: &[u32],
    x0: u32,
    y0: u32,
    x1: u32,
    y1: u32,
    rows: &mut [u32],
    count: &mut usize,
) -> u32
    ensures { calls.query_call store.now (record { x0 = x0; y0 = y0; x1 = x1; y1 = y1 }) rows.old ≡ record { number = result; count = count.new; rows = rows.new } }
{
    let listed = index::query(store, x0, y0, x1, y1, rows);
    *count = listed.unwrap_or(0);
    number(&listed)
}

#[unsafe(no_mangle)]
pub extern "C" fn shunebokai_board_test(store: &[u32], i: u32) -> u32
    ensures { result ≡ calls.board_test store.now i }
{
    number(&index::board_test(store, i))
}

// The number of the board's test; the rows stand in the store's words from `from` to before `to`, none where it is refused.
#[unsafe(no_mangle)]
pub extern "C" fn shunebokai_board_rows(
    store: &[u32],
    i: u32,
    from: &mut usize,
    to: &mut usize,
) -> u32
    ensures { board_part store.now i ≡ record { number = result; from = from.new; to = to.new } }
{
    let rows = index::board_part(store, i);
    let number = number(&rows);
    let part = rows.unwrap_or(index::Part { from: 0, to: 0 });
    *from = part.from;
    *to = part.to;
    number
}
