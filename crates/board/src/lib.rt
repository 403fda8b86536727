// Boards: one board's own part of the store, 86 words: its window, whether it is open, how many rows it has, and sixteen rows.
#![tactic(auto)]

ghost use Rattle.std.specs.Prelude.{◌≡◌, ◌+◌, ◌*◌, ◌≤◌, ◌<◌, [], length, set};
ghost use Rattle.rules.specs.Lists.{without};
ghost use Rattle.rules.specs.Store.{closed, row_limit, board_words, board_of};
ghost use Rattle.rules.specs.Live.{row_inserted, row_removed};
ghost use Rattle.rules.specs.Boards as rules;
ghost use Rattle.rules.specs.laws.Rows.{RowsAscend};
ghost use Rattle.board.specs.Rows as spec;

mod view;

use rules::part::Part;
use rules::{Row, Train, Window};
pub use view::Board;

// What writes a board takes its words and its `requires`: a struct over `&mut` would need a clause for each field at every method in its place.

// ---- rows written

// The word with which row i starts; with the count for i, where they end.
fn row_start(i: usize) -> usize
    requires { i ≤ row_limit }
    ensures { result ≡ 6 + 5 * i }
{
    6 + 5 * i
}

// Another row in place i.
fn put_row(b: &mut [u32], i: usize, r: Row)
    requires { spec.BoardWords b.old × (i < length (board_of b.old).rows) }
    ensures { spec.Became b.old (set (board_of b.old).rows i r) b.new }
{
    let a = row_start(i);
    r.write(&mut b[a..a + 5]);
}

// One row more, at place i: the later ones move up by one.
fn insert_at(b: &mut [u32], i: usize, r: Row)
    requires { spec.BoardWords b.old × (i ≤ length (board_of b.old).rows) × (length (board_of b.old).rows < row_limit) }
    ensures { spec.Became b.old (spec.put (board_of b.old).rows i r) b.new }
{
    let n = Board { words: b }.row_count();
    let a = row_start(i);
    b.copy_within(a..row_start(n), a + 5);
    r.write(&mut b[a..a + 5]);
    b[5] = (n + 1) as u32;
}

// Without the row at place i: the later ones move down by one, and the last is zero.
fn remove_at(b: &mut [u32], i: usize)
    requires { spec.BoardWords b.old × (i < length (board_of b.old).rows) }
    ensures { spec.Became b.old (without (board_of b.old).rows i) b.new }
{
    let n = Board { words: b }.row_count() - 1;
    let a = row_start(i);
    let last = row_start(n);
    b.copy_within(a + 5..last + 5, a);
    b[last..last + 5].fill(0);
    b[5] = n as u32;
}

// The row at its ascending place, in place of a row of the same train.
#[tactic(auto, using(crate::proofs::Upkeep::listed_here, crate::proofs::Upkeep::unlisted_here, crate::proofs::Upkeep::unlisted_room, crate::proofs::Upkeep::listed_inserted, crate::proofs::Upkeep::unlisted_inserted))]
pub fn insert(b: &mut [u32], r: Row)
    requires { spec.BoardWords b.old × (length (row_inserted r (board_of b.old).rows) ≤ row_limit) }
    ensures { b.new ≡ board_words (rules.with_rows (row_inserted r (board_of b.old).rows) (board_of b.old)) }
{
    let board = Board { words: b };
    match board.place_of(r.train) {
        Ok(i) => put_row(b, i, r),
        Err(i) => insert_at(b, i, r),
    }
}

// Without the train's row; rows ascend, so there is at most one.
#[tactic(auto, using(crate::proofs::Upkeep::listed_here, crate::proofs::Upkeep::listed_removed, crate::proofs::Upkeep::unlisted_removed))]
pub fn remove(b: &mut [u32], t: Train)
    requires { spec.BoardWords b.old × RowsAscend (board_of b.old).rows }
    ensures { b.new ≡ board_words (rules.with_rows (row_removed t (board_of b.old).rows) (board_of b.old)) }
{
    let board = Board { words: b };
    if let Ok(i) = board.place_of(t) {
        remove_at(b, i);
    }
}

// ---- opening and closing

// A closed board: zero throughout, whatever was there.
#[tactic(auto, using(crate::proofs::Words::cleared))]
pub fn clear(b: &mut [u32])
    requires { length b.old ≡ 86 }
    ensures { b.new ≡ board_words closed }
{
    b.fill(0);
}

// An open board with this window and no rows yet.
#[tactic(auto, using(crate::proofs::Words::opened_words))]
pub fn open(b: &mut [u32], w: Window)
    requires { length b.old ≡ 86 }
    ensures { b.new ≡ board_words (rules.opened w []) }
{
    clear(b);
    w.write(&mut b[0..4]);
    b[4] = 1;
}

// ---- upkeep

// After a report: on an open board the train's row is there, with the new box, exactly where that box meets the window.
pub fn tell(b: &mut [u32], r: Row)
    requires { spec.BoardWords b.old × RowsAscend (board_of b.old).rows × (length (rules.told r (board_of b.old)).rows ≤ row_limit) }
    ensures { b.new ≡ board_words (rules.told r (board_of b.old)) }
{
    let board = Board { words: b };
    if !board.is_open() {
        return;
    }
    if boxes::meets(r.bounds, board.window()) {
        insert(b, r);
    } else {
        remove(b, r.train);
    }
}

// After a withdrawal: on an open board the train has no row.
#[tactic(auto, using(crate::proofs::Upkeep::open_untold, crate::proofs::Upkeep::closed_untold))]
pub fn untell(b: &mut [u32], t: Train)
    requires { spec.BoardWords b.old × RowsAscend (board_of b.old).rows }
    ensures { b.new ≡ board_words (rules.untold t (board_of b.old)) }
{
    let board = Board { words: b };
    if board.is_open() {
        remove(b, t);
    }
}
