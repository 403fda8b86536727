// The program on lent bytes: an input performed, and what it prints laid out.
#![tactic(auto)]

ghost use Rattle.std.specs.Prelude.{◌≡◌, map, ◌+◌, ◌*◌, ◌/◌, ◌≤◌, ◌<◌, length};
ghost use Rattle.rules.specs.Lists.{cut};
ghost use Rattle.rules.specs.Store.{store_of, words, board_at};
ghost use Rattle.rules.specs.Steps.{step_of, run};
ghost use Rattle.text.specs.Reading.{lines, steps_in};
ghost use Rattle.text.specs.Printing.{step_lines};
ghost use Rattle.text.specs.Laid.{Laid};
ghost use Rattle.text.specs.Program as spec;
ghost use Rattle.program.specs.Parts.{Accepted, store_room, StepsRun};
ghost use Rattle.program.specs.Left.{started_left, left};

// The longest input that is looked at.
pub const MOST_BYTES: usize = 65_536;

// Room for the longest output: the start, 5,461 steps and 32 boards of 16 rows.
pub const OUTPUT_BYTES: usize = 209_446;

// Room for the largest store.
pub const STORE_WORDS: usize = 15_824;

// As many steps as an input may hold, with room for a bad one, and their answers.
const STEP_WORDS: usize = 32_774;

const ANSWER_WORDS: usize = 10_922;

// How long a store of these sizes is. Where they are out of range it is 0, the length that is lent to the start which refuses them: an Option would become that 0 at its one use.
#[tactic(auto, using(crate::proofs::Boards::no_room, crate::proofs::Boards::some_room, crate::proofs::Boards::room_most, crate::proofs::Boards::given_sizes))]
fn store_length(p: u32, k: u32, b: u32) -> usize
    ensures { (result ≡ store_room p k b) × (result ≤ 15824) }
{
    if judge::sizes_fit(p, k, b) {
        header::store_length(p as usize, k as usize, b as usize)
    } else {
        0
    }
}

// Board i, if it is open.
fn put_board(store: &[u32], i: u32, out: &mut [u8], at: usize) -> usize
    requires accepted { Accepted store.now × (i < length (store_of store.now).boards) }
    requires at_in_bounds { at + 913 ≤ length out.old }
    ensures laid { Laid out.old at (spec.open_lines i (board_at (store_of store.now) i)) out.new result }
    ensures upper_bound { result ≤ at + 913 }
{
    if index::board_test(store, i).is_err() {
        return at;
    }
    let rows = index::board_rows(store, i);
    text::put_board(i, rows, out, at)
}

// Each open board.
fn put_boards(store: &[u32], out: &mut [u8], at: usize) -> usize
    requires { Accepted store.now × (at + 29216 ≤ length out.old) }
    ensures { Laid out.old at (spec.boards_from 0 (store_of store.now).boards) out.new result }
{
    let mut to = at;
    for i in 0..header::boards(store) as u32 {
        to = put_board(store, i, out, to);
    }
    to
}

// Runs the steps, and lays out a line for each.
fn run_steps(
    steps: &[u32],
    store: &mut [u32],
    answers: &mut [u32],
    out: &mut [u8],
    at: usize,
) -> usize
    requires accepted { Accepted store.old }
    requires steps_len { (length steps.now ≡ 6 * (length steps.now / 6)) × (length answers.old ≡ 2 * (length steps.now / 6)) }
    requires out_len { at + 33 * (length steps.now / 6) ≤ length out.old }
    ensures steps_run { StepsRun (cut (length steps.now / 6) 6 steps.now) store.old store.new answers.new }
    ensures laid { Laid out.old at (step_lines (cut (length steps.now / 6) 6 steps.now) answers.new) out.new result }
    ensures upper_bound { result ≤ at + 33 * (length steps.now / 6) }
{
    index::run(store, steps, answers).unwrap();
    text::put_answers(steps, answers, out, at)
}

// The lines of steps that are left of an input, run on a store: their answers, then the bad line that ended them or the boards.
fn run_lines(rest: &[u8], store: &mut [u32], out: &mut [u8], at: usize) -> usize
    requires { (length rest.now ≤ 65536) × Accepted store.old × (at ≤ 17) × (209446 ≤ length out.old) }
    ensures laid { Laid out.old at (spec.steps_printed (store_of store.old) (lines rest.now)) out.new result }
    ensures store_after { store.new ≡ words (run (store_of store.old) (map step_of (steps_in (lines rest.now)))).store }
{
    let mut steps = [0; STEP_WORDS];
    let mut answers = [0; ANSWER_WORDS];
    let read = text::steps(rest, &mut steps);
    let n = read.unwrap_or_else(|bad| bad.after);
    let to = run_steps(&steps[..6 * n], store, &mut answers[..2 * n], out, at);
    match read {
        Ok(_) => put_boards(store, out, to),
        Err(bad) => text::put_bad_line((bad.after + 2) as u32, out, to),
    }
}

// A start in a store of the right length for these sizes; then the lines that are left of the input. The sizes stay three numbers, as
// a start takes them.
fn begin(p: u32, k: u32, b: u32, rest: &[u8], store: &mut [u32], out: &mut [u8]) -> usize
    requires { (length rest.now ≤ 65536) × (length store.old ≡ store_room p k b) × (209446 ≤ length out.old) }
    ensures laid { Laid out.old 0 (spec.start_printed p k b (lines rest.now)) out.new result }
    ensures store_after { store.new ≡ started_left p k b (lines rest.now) }
{
    match index::start(p, k, b, store) {
        Ok(()) => {
            let to = text::put_start(0, out, 0);
            run_lines(rest, store, out, to)
        }
        Err(refusal) => text::put_start(u32::from(refusal), out, 0),
    }
}

// What performing an input answers: how many bytes it prints, and how many words of the lent space are its store's; 0 where none was started.
// Two lengths and no Option: where none was started, 0 is the length of its part, an empty one, and one clause says what stands in any part.
#[derive(Clone, Copy, Debug, PartialEq, Eq)]
pub struct Performed {
    pub bytes: usize,
    pub words: usize,
}

// The same, with the store at the front of a lent space.
fn in_space(p: u32, k: u32, b: u32, rest: &[u8], space: &mut [u32], out: &mut [u8]) -> Performed
    requires { (length rest.now ≤ 65536) × (15824 ≤ length space.old) × (209446 ≤ length out.old) }
    ensures output_laid { Laid out.old 0 (spec.start_printed p k b (lines rest.now)) out.new result.bytes }
    ensures store_laid { Laid space.old 0 (started_left p k b (lines rest.now)) space.new result.words }
{
    let words = store_length(p, k, b);
    let bytes = begin(p, k, b, rest, &mut space[..words], out);
    Performed { bytes, words }
}

// What the program prints for an input, laid out from the slice's start, and the store that the input leaves, at the front of a lent space.
pub fn perform_in(input: &[u8], space: &mut [u32], out: &mut [u8]) -> Performed
    requires { (15824 ≤ length space.old) × (209446 ≤ length out.old) }
    ensures output_laid { Laid out.old 0 (spec.printed input.now) out.new result.bytes }
    ensures store_laid { Laid space.old 0 (left input.now) space.new result.words }
{
    if MOST_BYTES < input.len() {
        let bytes = text::put_too_long(out, 0);
        return Performed { bytes, words: 0 };
    }
    let e = text::until(input, 0, b'\n');
    let mut sizes = [0; 3];
    if !text::numbers(&input[..e], &mut sizes) {
        let bytes = text::put_bad_line(1, out, 0);
        return Performed { bytes, words: 0 };
    }
    let [p, k, b] = sizes;
    // No newline may stand behind the first line: then no byte is left.
    in_space(p, k, b, &input[(e + 1).min(input.len())..], space, out)
}

// The same, with a space of its own.
pub fn perform(input: &[u8], out: &mut [u8]) -> usize
    requires { 209446 ≤ length out.old }
    ensures { Laid out.old 0 (spec.printed input.now) out.new result }
{
    let mut space = [0; STORE_WORDS];
    perform_in(input, &mut space, out).bytes
}
