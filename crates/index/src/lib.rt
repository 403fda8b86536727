// The public calls. Each tests its own input, answers a refusal of the table where that fails, and asks nothing of its caller.
#![tactic(auto)]

ghost use Rattle.std.specs.Prelude.{◌≡◌, true, [], ◌∷◌, ◌*◌, ◌/◌, ◌≤◌, length};
ghost use Rattle.rules.specs.Sound.{sound_words};
ghost use Rattle.rules.specs.Calls as calls;
ghost use Rattle.rules.specs.Refused.{answer_number, answer_count};
ghost use Rattle.index.specs.Answers.{Answered};
ghost use Rattle.index.specs.Running.{RanAll};
ghost use Rattle.index.specs.Fresh as fresh;
ghost use Rattle.index.specs.Rows as spec_rows;

use rules::part::Part as _;
use rules::refusal::Refusal;
use rules::{Step, Window};

// ---- start

// A fresh store's words 0 to 18: the header, and page 0 as an empty leaf with mark 1. All later ones are zero.
fn first_words(p: u32, k: u32, b: u32) -> [u32; 19]
    requires { (p ≤ 192) × (k ≤ 1024) }
    ensures { result ≡ fresh.first_words p k b }
{
    let memo = 16 + 52 * p;
    let boards = 16 + 52 * p + 3 * k;
    [
        1, 1, 0, 1, 16, p, memo, k, boards, b, 0, 0, 0, 0, 0, 0, 1, 0, 1,
    ]
}

// A fresh store of p pages, k memo slots and b boards, whatever the slice held; its sizes are tried, then its length.
#[tactic(auto, using(std::proofs::lemmas::Bool::Decides::nat_tests), unfolding(rules::specs::Calls::start, rules::specs::Calls::start_number, rules::specs::Calls::started_by, rules::specs::Numbers::first_met, rules::specs::Sound::sizes_in_range, rules::specs::Lists::all_of, rules::specs::Store::store_length))]
pub fn start(p: u32, k: u32, b: u32, store: &mut [u32]) -> Result<(), Refusal>
    ensures { calls.start p k b store.old ≡ record { number = answer_number result; store = store.new } }
{
    if !judge::sizes_fit(p, k, b) {
        return Err(Refusal::SizesOutOfRange);
    }
    if store.len() != header::store_length(p as usize, k as usize, b as usize) {
        return Err(Refusal::NotLaidOut);
    }
    let (first, rest) = store.split_at_mut(19);
    first.copy_from_slice(&first_words(p, k, b));
    rest.fill(0);
    Ok(())
}

// ---- run

// A step's two words of answers: its number and its count.
fn two_words(answer: Result<u32, Refusal>) -> [u32; 2]
    ensures { result ≡ answer_number answer ∷ answer_count answer ∷ [] }
{
    match answer {
        Ok(count) => [0, count],
        Err(refusal) => [u32::from(refusal), 0],
    }
}

// The steps, one after the other, each answered by its two words. The entries held are counted once, before the first.
#[tactic(auto, using(steps::specs::Tests::sound_long))]
fn run_all(store: &mut [u32], steps: &[u32], answers: &mut [u32])
    requires sound { sound_words store.old ≡ true }
    requires answers_len { length answers.old ≡ 2 * (length steps.now / 6) }
    ensures { RanAll store.old steps.now store.new answers.new }
{
    let mut held = page::held_entries(store, header::pages(store));
    for (i, words) in steps.as_chunks::<6>().0.iter().enumerate() {
        let answer = steps::step(store, Step::read(words), &mut held);
        answers[2 * i..2 * i + 2].copy_from_slice(&two_words(answer));
    }
}

// Runs the steps, six words each, on the store, which is judged once; refused, every slice is untouched.
#[tactic(auto, using(std::proofs::lemmas::Bool::Decides::nat_tests, crate::proofs::Calls::run_passed, crate::proofs::Calls::judged_sound), unfolding(rules::specs::Numbers::first_met, rules::specs::Calls::ran_by))]
pub fn run(store: &mut [u32], steps: &[u32], answers: &mut [u32]) -> Result<(), Refusal>
    ensures { calls.run_call store.old steps.now answers.old ≡ record { number = answer_number result; store = store.new; answers = answers.new } }
{
    judge::judge(store)?;
    if steps.len() % 6 != 0 {
        return Err(Refusal::StepCut);
    }
    if answers.len() != 2 * (steps.len() / 6) {
        return Err(Refusal::AnswersLength);
    }
    run_all(store, steps, answers);
    Ok(())
}

// ---- query

// The rows of a window, from the row slice's start, and how many they are; refused, the slice is untouched.
pub fn query(
    store: &[u32],
    x0: u32,
    y0: u32,
    x1: u32,
    y1: u32,
    rows: &mut [u32],
) -> Result<usize, Refusal>
    ensures { Answered (calls.query_call store.now (record { x0 = x0; y0 = y0; x1 = x1; y1 = y1 }) rows.old) result rows.new }
{
    judge::judge(store)?;
    let window = Window { x0, y0, x1, y1 };
    if !boxes::proper_window(window) {
        return Err(Refusal::NotProper);
    }
    let mut keys = [0u64; 576];
    let mut work = [0u64; 576];
    let n = query::find(store, window, &mut keys, &mut work);
    if rows.len() < 5 * n {
        return Err(Refusal::RowsTooShort);
    }
    query::write_rows(store, &keys[..n], rows);
    Ok(n)
}

// ---- boards

// Whether the rows of board i can be read.
#[tactic(auto, using(std::proofs::lemmas::Bool::Decides::nat_tests, steps::specs::Tests::boards_there, steps::specs::Tests::sound_long, crate::proofs::Calls::judged_sound, crate::proofs::Calls::test_passed), unfolding(rules::specs::Numbers::first_met))]
pub fn board_test(store: &[u32], i: u32) -> Result<(), Refusal>
    ensures { answer_number result ≡ calls.board_test store.now i }
{
    judge::judge(store)?;
    if header::boards(store) <= i as usize {
        return Err(Refusal::NoSuchBoard);
    }
    if !parts::is_open(store, i as usize) {
        return Err(Refusal::OpenOrClosed);
    }
    Ok(())
}

// Where a board's rows stand in the store: from the first word of the first row to behind the last one's. A Range couldn't be copied.
#[derive(Clone, Copy, Debug, PartialEq, Eq)]
pub struct Part {
    pub from: usize,
    pub to: usize,
}

// The part of the store that holds board i's rows.
pub fn board_part(store: &[u32], i: u32) -> Result<Part, Refusal>
    ensures { spec_rows.board_part store.now i ≡ spec_rows.part_of_answer result }
{
    board_test(store, i)?;
    let i = i as usize;
    let from = parts::board_start(store, i) + 6;
    let to = from + 5 * parts::board_at(store, i).row_count();
    Ok(Part { from, to })
}

// Board i's rows as they stand in the store, or an empty part where the test refuses.
pub fn board_rows<'a>(store: &'a [u32], i: u32) -> &'a [u32]
    ensures { result.now ≡ calls.board_rows store.now i }
{
    let Part { from, to } = board_part(store, i).unwrap_or(Part { from: 0, to: 0 });
    &store[from..to]
}
