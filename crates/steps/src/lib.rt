// The steps: what each is refused with, what it does to the store, and the count that it answers.
#![tactic(auto)]

ghost use Rattle.std.specs.Prelude.{◌≡◌, true};
ghost use Rattle.rules.specs.Store.{store_of};
ghost use Rattle.rules.specs.Sound.{sound_words};
ghost use Rattle.rules.specs.Numbers.{first_met};
ghost use Rattle.rules.specs.Refused.{answer_number, answer_count};
ghost use Rattle.rules.specs.Steps as rules;
ghost use Rattle.theorems.specs.Accepted.{TakesStamp, AcceptedReport};
ghost use Rattle.steps.specs.Orders.{report_step, withdraw_step, clean_step, inspect_step, open_step, close_step};
ghost use Rattle.steps.specs.Refusals.{report_tests, withdraw_tests, opening_tests, close_tests};
ghost use Rattle.steps.specs.Stepping.{Given, Effected, Stepped, KeepsHeld, StampTaken};

pub mod order;

use order::Order;
use rules::refusal::Refusal;
use rules::{Box, Entry, Row, Stamp, Step, Train, Window};

// The stamp that no step takes.
const LAST: Stamp = Stamp(u32::MAX);

// ---- what a step is refused with, the lowest number first

// How many entries are held is given, so that no pass over the pages counts them.
#[tactic(auto, using(std::proofs::lemmas::Bool::Decides::nat_tests, crate::specs::Tests::next_there, crate::specs::Tests::pages_there, crate::specs::Tests::given_long), unfolding(rules::specs::Numbers::first_met))]
fn report_allowed(store: &[u32], train: Train, bounds: Box, held: usize) -> Result<(), Refusal>
    requires { Given store.now held }
    ensures { answer_number result ≡ first_met (report_tests (store_of store.now) (report_step train bounds)) }
{
    if train == Train(0) {
        return Err(Refusal::NoTrain);
    }
    if !boxes::proper_box(bounds) {
        return Err(Refusal::NotProper);
    }
    if header::next_stamp(store) == LAST {
        return Err(Refusal::NoStampLeft);
    }
    if 3 * header::pages(store) <= held {
        return Err(Refusal::TooManyEntries);
    }
    if parts::no_slot_left(store, train) {
        return Err(Refusal::NoSlotLeft);
    }
    if parts::any_overfull(store, Row { train, bounds }) {
        return Err(Refusal::TooManyRows);
    }
    Ok(())
}

#[tactic(auto, using(std::proofs::lemmas::Bool::Decides::nat_tests, crate::specs::Tests::next_there, crate::specs::Tests::sound_long), unfolding(rules::specs::Numbers::first_met))]
fn withdraw_allowed(store: &[u32], train: Train) -> Result<(), Refusal>
    requires { sound_words store.now ≡ true }
    ensures { answer_number result ≡ first_met (withdraw_tests (store_of store.now) (withdraw_step train)) }
{
    if train == Train(0) {
        return Err(Refusal::NoTrain);
    }
    if header::next_stamp(store) == LAST {
        return Err(Refusal::NoStampLeft);
    }
    if parts::no_slot_left(store, train) {
        return Err(Refusal::NoSlotLeft);
    }
    Ok(())
}

// Too many rows are known only once those of the window are found, and are left to the opening itself.
#[tactic(auto, using(std::proofs::lemmas::Bool::Decides::nat_tests, crate::specs::Tests::boards_there, crate::specs::Tests::sound_long), unfolding(rules::specs::Numbers::first_met))]
fn open_allowed(store: &[u32], board: u32, window: Window) -> Result<(), Refusal>
    requires { sound_words store.now ≡ true }
    ensures { answer_number result ≡ first_met (opening_tests (store_of store.now) (open_step board window)) }
{
    if !boxes::proper_window(window) {
        return Err(Refusal::NotProper);
    }
    if header::boards(store) <= board as usize {
        return Err(Refusal::NoSuchBoard);
    }
    if parts::is_open(store, board as usize) {
        return Err(Refusal::OpenOrClosed);
    }
    Ok(())
}

#[tactic(auto, using(std::proofs::lemmas::Bool::Decides::nat_tests, crate::specs::Tests::boards_there, crate::specs::Tests::sound_long), unfolding(rules::specs::Numbers::first_met))]
fn close_allowed(store: &[u32], board: u32) -> Result<(), Refusal>
    requires { sound_words store.now ≡ true }
    ensures { answer_number result ≡ first_met (close_tests (store_of store.now) (close_step board)) }
{
    if header::boards(store) <= board as usize {
        return Err(Refusal::NoSuchBoard);
    }
    if !parts::is_open(store, board as usize) {
        return Err(Refusal::OpenOrClosed);
    }
    Ok(())
}

// ---- what an accepted step does

// Takes the next stamp and notes it as the train's latest.
#[tactic(auto, using(crate::specs::Tests::sound_long))]
fn take_stamp(store: &mut [u32], train: Train) -> Stamp
    requires sound { sound_words store.old ≡ true }
    requires takes_stamp { TakesStamp (store_of store.old) train }
    ensures { StampTaken (store_of store.old) train store.new result }
{
    let stamp = header::next_stamp(store);
    parts::note(store, train, stamp);
    header::set_next(store, Stamp(stamp.0 + 1));
    stamp
}

// Takes a stamp, puts the entry with it into a leaf and tells the boards; answers how many open ones list the train before or after.
fn put_report(store: &mut [u32], train: Train, bounds: Box) -> u32
    requires sound { sound_words store.old ≡ true }
    requires accepted_report { AcceptedReport (store_of store.old) (report_step train bounds) }
    ensures { Effected (rules.report (store_of store.old) (report_step train bounds)) store.new result }
{
    let stamp = take_stamp(store, train);
    let entry = Entry {
        bounds,
        key: train.0,
        stamp,
    };
    tree::put_at(store, 1, entry);
    parts::tell_all(store, Row { train, bounds }) as u32
}

// Takes the obsolete entries out of the leaf with the smallest mark, which becomes the next stamp, and says how many they were.
#[tactic(auto, using(crate::specs::Tests::sound_long))]
fn clean_leaf(store: &mut [u32]) -> u32
    requires { sound_words store.old ≡ true }
    ensures { Effected (rules.clean (store_of store.old)) store.new result }
{
    let leaf = page::leaf_to_clean(store, header::pages(store));
    let gone = trim::obsolete_in(store, leaf);
    let next = header::next_stamp(store);
    trim::clean_tree(store, leaf, next);
    parts::lower_all(store, gone);
    gone.count
}

// ---- the steps

fn report(store: &mut [u32], train: Train, bounds: Box, held: &mut usize) -> Result<u32, Refusal>
    requires { Given store.old held.old }
    ensures { Stepped (rules.step (store_of store.old) (report_step train bounds)) store.new (answer_number result) (answer_count result) held.new }
{
    report_allowed(store, train, bounds, *held)?;
    let touched = put_report(store, train, bounds);
    *held += 1;
    Ok(touched)
}

fn withdraw(store: &mut [u32], train: Train) -> Result<u32, Refusal>
    requires { sound_words store.old ≡ true }
    ensures { KeepsHeld store.old (withdraw_step train) store.new (answer_number result) (answer_count result) }
{
    withdraw_allowed(store, train)?;
    take_stamp(store, train);
    Ok(parts::untell_all(store, train) as u32)
}

fn clean(store: &mut [u32], held: &mut usize) -> u32
    requires { Given store.old held.old }
    ensures { Stepped (rules.step (store_of store.old) clean_step) store.new 0 result held.new }
{
    let removed = clean_leaf(store);
    *held -= removed as usize;
    removed
}

// Frees each slot whose stamp is below the smallest mark of a leaf.
fn inspect(store: &mut [u32]) -> u32
    requires { sound_words store.old ≡ true }
    ensures { KeepsHeld store.old inspect_step store.new 0 result }
{
    parts::inspect(store) as u32
}

// Opens a board with the rows of its window.
fn open(store: &mut [u32], board: u32, window: Window) -> Result<u32, Refusal>
    requires { sound_words store.old ≡ true }
    ensures { KeepsHeld store.old (open_step board window) store.new (answer_number result) (answer_count result) }
{
    open_allowed(store, board, window)?;
    let mut keys = [0u64; 576];
    let mut work = [0u64; 576];
    let n = query::find(store, window, &mut keys, &mut work);
    if 16 < n {
        return Err(Refusal::TooManyRows);
    }
    parts::open_board(store, board as usize, window, &keys[..n]);
    Ok(n as u32)
}

fn close(store: &mut [u32], board: u32) -> Result<u32, Refusal>
    requires { sound_words store.old ≡ true }
    ensures { KeepsHeld store.old (close_step board) store.new (answer_number result) (answer_count result) }
{
    close_allowed(store, board)?;
    parts::close_board(store, board as usize);
    Ok(0)
}

// One step, of whatever kind, which answers the count that it writes. How many entries are held goes on with it.
// A refused step changes no word of the store.
pub fn step(store: &mut [u32], x: Step, held: &mut usize) -> Result<u32, Refusal>
    requires { Given store.old held.old }
    ensures { Stepped (rules.step (store_of store.old) x) store.new (answer_number result) (answer_count result) held.new }
{
    match Order::try_from(x)? {
        Order::Report { train, bounds } => report(store, train, bounds, held),
        Order::Withdraw(train) => withdraw(store, train),
        Order::Clean => Ok(clean(store, held)),
        Order::Inspect => Ok(inspect(store)),
        Order::Open { board, window } => open(store, board, window),
        Order::Close(board) => close(store, board),
    }
}
