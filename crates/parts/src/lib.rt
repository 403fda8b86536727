// The store's memo and boards, written part by part: each part's words, in the store's middle, are lent on to be read or written.
#![tactic(auto)]

ghost use Rattle.std.specs.Prelude.{◌≡◌, ◌+◌, false, ◌∷◌, ◌++◌, map, ◌≤◌, ◌<◌, length, set};
ghost use Rattle.rules.specs.declared.Train.{Train};
ghost use Rattle.rules.specs.Lists.{some_one};
ghost use Rattle.rules.specs.Store.{Board, limit, row_limit, closed, window_words, board_of, board_at, store_of};
ghost use Rattle.rules.specs.Memo.{noted, lowered, lowered_all};
ghost use Rattle.rules.specs.Cleaning.{smallest_mark};
ghost use Rattle.rules.specs.Boards as rules;
ghost use Rattle.rules.specs.laws.All.{All};
ghost use Rattle.rules.specs.laws.Rows.{RowsAscend};
ghost use Rattle.rules.specs.laws.Parts.{with_memo, with_boards};
ghost use Rattle.rules.specs.laws.Placed.{Placed};
ghost use Rattle.page.specs.Struct.{contents};
ghost use Rattle.board.specs.Rows.{BoardWords};
ghost use Rattle.query.specs.Keys.{row_of_key, Searchable};
ghost use Rattle.parts.specs.InOrder.{BoardInOrder, Lent, Became};
ghost use Rattle.parts.specs.BoardAt.{BoardAt};
ghost use Rattle.parts.specs.MemoAt.{MemoAt};
ghost use Rattle.parts.specs.Promises.{Freed, touch, Told, ToldAll};
ghost use Rattle.parts.specs.Promises as promises;

use board::Board;
use memo::view::Memo;
use page::Page;
use rules::{LookUp, Row, Stamp, Train, Window};
use std::ops::Range;

// The store is lent as a slice: nearly all of these write it, and a type over `&mut` would ask for a clause more at each of them.

// ---- the memo

// Where the memo stands among the store's words.
#[tactic(auto, using(crate::specs::Laws::lent_placed, crate::specs::MemoAt::memo_placed, rules::specs::laws::Placed::header_long, rules::specs::laws::Placed::pages_most, rules::specs::laws::Placed::slots_most))]
fn memo_range(store: &[u32]) -> Range<usize>
    requires { Lent store.now }
    ensures { MemoAt store.now result.start result.end }
{
    let p = header::pages(store);
    header::memo_start(p)..header::boards_start(p, header::slots(store))
}

// Whether a new stamp of the train could not be noted: it has no slot, and every slot is used.
#[tactic(auto, using(crate::proofs::Memo::memo_held, crate::proofs::Memo::some_room, crate::proofs::Memo::absent_full, crate::proofs::Memo::found_left))]
pub fn no_slot_left(store: &[u32], t: Train) -> bool
    requires { Lent store.now }
    ensures { result ≡ promises.no_slot_left (store_of store.now) t }
{
    let memo = Memo::of(store);
    memo.look_up(t) == LookUp::Absent && memo.is_full()
}

// Notes that this stamp of the train is the latest.
#[tactic(auto, using(crate::proofs::Memo::room_to_note, crate::proofs::Memo::counts_to_note))]
pub fn note(store: &mut [u32], t: Train, stamp: Stamp)
    requires lent { Lent store.old × (1 ≤ t.0) × (promises.no_slot_left (store_of store.old) t ≡ false) }
    requires counts_below_limit { All (λ m. m.old < limit) (store_of store.old).memo }
    ensures { Became (with_memo (store_of store.old) (noted t stamp (store_of store.old).memo)) store.new }
{
    let range = memo_range(store);
    memo::note(&mut store[range], t, stamp);
}

// Lowers the train's old count by one.
fn lower(store: &mut [u32], t: Train)
    requires { Lent store.old }
    ensures { Became (with_memo (store_of store.old) (lowered t (store_of store.old).memo)) store.new }
{
    let range = memo_range(store);
    memo::lower(&mut store[range], t);
}

// Lowers the old count of each entry of a page that is taken out, one after the other.
pub fn lower_all(store: &mut [u32], gone: Page)
    requires { Lent store.old × (gone.count ≤ 8) }
    ensures { Became (with_memo (store_of store.old) (lowered_all (contents gone).places (store_of store.old).memo)) store.new }
{
    for place in gone.used() {
        lower(store, Train(place.key));
    }
}

// Frees each slot whose stamp is below the smallest mark of a leaf, and says how many.
#[tactic(auto, using(crate::specs::Laws::lent_placed, rules::specs::laws::Placed::header_long, rules::specs::laws::Placed::pages_most, rules::specs::laws::Placed::pages_room))]
pub fn inspect(store: &mut [u32]) -> usize
    requires { Lent store.old }
    ensures { Freed (smallest_mark (store_of store.old).pages) (store_of store.old) store.new result }
{
    let mark = page::smallest_mark(store, header::pages(store));
    let range = memo_range(store);
    memo::inspect(&mut store[range], mark)
}

// ---- boards

// Where the words of board i start in the store.
#[tactic(auto, using(rules::specs::laws::Placed::header_long, rules::specs::laws::Placed::pages_most, rules::specs::laws::Placed::slots_most, rules::specs::laws::Placed::board_low))]
pub fn board_start(store: &[u32], i: usize) -> usize
    requires placed { Placed store.now }
    requires i_in_bounds { i < length (store_of store.now).boards }
    ensures { BoardAt store.now i result }
{
    header::boards_start(header::pages(store), header::slots(store)) + 86 * i
}

// Where board i stands among the store's words.
fn board_range(store: &[u32], i: usize) -> Range<usize>
    requires placed { Placed store.now }
    requires i_in_bounds { i < length (store_of store.now).boards }
    ensures from { BoardAt store.now i result.start }
    ensures to { result.end ≡ result.start + 86 }
{
    let start = board_start(store, i);
    start..start + 86
}

// Board i, lent to be read.
pub fn board_at(store: &[u32], i: usize) -> Board<'_>
    requires placed { Placed store.now }
    requires i_in_bounds { i < length (store_of store.now).boards }
    ensures { board_of result.words.now ≡ board_at (store_of store.now) i }
{
    Board {
        words: &store[board_range(store, i)],
    }
}

pub fn is_open(store: &[u32], i: usize) -> bool
    requires placed { Placed store.now }
    requires i_in_bounds { i < length (store_of store.now).boards }
    ensures { result ≡ rules.is_open (board_at (store_of store.now) i) }
{
    board_at(store, i).is_open()
}

// Whether a report of this row would need a seventeenth row on some board.
#[tactic(auto, using(crate::specs::Laws::lent_placed, rules::specs::laws::Placed::header_long, crate::proofs::Boards::looked_more, crate::proofs::Boards::looked_none))]
pub fn any_overfull(store: &[u32], r: Row) -> bool
    requires { Lent store.now }
    ensures { result ≡ some_one (rules.overfull r) (store_of store.now).boards }
{
    for i in 0..header::boards(store) {
        if board_at(store, i).is_overfull(r) {
            return true;
        }
    }
    false
}

// 1 if a report of this row touches the board: it is open, and lists the train before, or after where the new box meets its window.
#[tactic(auto, using(crate::proofs::Boards::touch_told))]
fn touches(board: &Board<'_>, r: Row) -> usize
    requires { RowsAscend (board_of board.now.words.now).rows }
    ensures { result ≡ touch r.train (board_of board.now.words.now) (rules.told r (board_of board.now.words.now)) }
{
    usize::from(board.is_open() && (board.lists(r.train) || boxes::meets(r.bounds, board.window())))
}

// What every board is told of: a report, by its row, or a withdrawal, by its train.
trait News: Copy {
    ghost train: { Self → Train };

    // The board after it.
    ghost tell: { Self → Board → Board };

    // Tells one board, and answers 1 if that touches it.
    fn tell(self, b: &mut [u32]) -> usize
        requires { BoardWords b.old × RowsAscend (board_of b.old).rows × (length (tell self (board_of b.old)).rows ≤ row_limit) }
        ensures { Told (train self) (board_of b.old) (tell self (board_of b.old)) b.new result };
}

impl News for Row {
    ghost train = { λ r. r.train };

    ghost tell = { rules.told };

    // Whether the report touches the board is tried before its rows change.
    fn tell(self, b: &mut [u32]) -> usize {
        let touched = touches(&Board { words: b }, self);
        board::tell(b, self);
        touched
    }
}

impl News for Train {
    ghost train = { λ t. t };

    ghost tell = { rules.untold };

    // The board lists the train no more, so what it listed before decides.
    fn tell(self, b: &mut [u32]) -> usize {
        let board = Board { words: b };
        if board.is_open() && board.lists(self) {
            board::untell(b, self);
            1
        } else {
            0
        }
    }
}

// Tells every board, and counts those that are touched.
#[tactic(auto, using(crate::specs::Laws::lent_placed, rules::specs::laws::Placed::header_long))]
fn tell_boards<N: News>(store: &mut [u32], news: N) -> usize
    requires lent { Lent store.old }
    requires keeps { All (λ b. BoardInOrder (N.tell news b)) (store_of store.old).boards }
    ensures { ToldAll (N.tell news) (N.train news) (store_of store.old) store.new result }
{
    let mut touched = 0;
    for i in 0..header::boards(store) {
        let range = board_range(store, i);
        touched += news.tell(&mut store[range]);
    }
    touched
}

// Tells every board of a report; the answer is how many open ones list the train before or after.
pub fn tell_all(store: &mut [u32], r: Row) -> usize
    requires { Lent store.old × (some_one (rules.overfull r) (store_of store.old).boards ≡ false) }
    ensures { ToldAll (rules.told r) r.train (store_of store.old) store.new result }
{
    tell_boards(store, r)
}

// The same of a withdrawal.
pub fn untell_all(store: &mut [u32], t: Train) -> usize
    requires { Lent store.old }
    ensures { ToldAll (rules.untold t) t (store_of store.old) store.new result }
{
    tell_boards(store, t)
}

#[tactic(auto, using(crate::specs::Laws::lent_placed))]
pub fn close_board(store: &mut [u32], i: usize)
    requires { Lent store.old × (i < length (store_of store.old).boards) }
    ensures { Became (with_boards (store_of store.old) (set (store_of store.old).boards i closed)) store.new }
{
    let range = board_range(store, i);
    board::clear(&mut store[range]);
}

// Writes an open board with this window, a count of n and these words of sixteen rows. The n is no length: the words are all 80, zero
// behind the n rows, as a board has them.
#[tactic(auto, using(crate::proofs::Opening::rows_written))]
fn write_board(b: &mut [u32], w: Window, n: usize, rows: &[u32])
    requires { (length b.old ≡ 86) × (n ≤ row_limit) × (length rows.now ≡ 80) }
    ensures { b.new ≡ window_words w ++ (1 ∷ n ∷ rows.now) }
{
    board::open(b, w);
    b[5] = n as u32;
    b[6..].copy_from_slice(rows);
}

// Opens board i with this window and the rows that the keys name; the rows are read before the board is written.
#[tactic(auto, using(crate::specs::Laws::lent_placed))]
pub fn open_board(store: &mut [u32], i: usize, w: Window, keys: &[u64])
    requires lent { Lent store.old × Searchable store.old × (i < length (store_of store.old).boards) }
    requires keys_len { (length keys.now ≤ row_limit) × RowsAscend (map (row_of_key (store_of store.old).pages) keys.now) }
    ensures { Became (with_boards (store_of store.old) (set (store_of store.old).boards i (rules.opened w (map (row_of_key (store_of store.old).pages) keys.now)))) store.new }
{
    let mut rows = [0u32; 80];
    query::write_rows(store, keys, &mut rows);
    let range = board_range(store, i);
    write_board(&mut store[range], w, keys.len(), &rows);
}
