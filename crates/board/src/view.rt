// One board's words, lent to be read.
#![tactic(auto)]

ghost use Rattle.std.specs.Prelude.{◌≡◌, ◌≤◌, ◌<◌, length, get_or};
ghost use Rattle.rules.specs.Store.{row_limit, board_words, board_of};
ghost use Rattle.rules.specs.Boards as rules;
ghost use Rattle.rules.specs.laws.Rows.{RowsAscend};
ghost use Rattle.rules.specs.laws.Parts.{no_row};
ghost use Rattle.board.specs.Rows as spec;

use crate::row_start;
use rules::part::Part;
use rules::{Row, Train, Window};
use std::cmp::Ordering;

// Its fields say what spec.BoardWords says, so whoever names a Board has shown that once.
#[derive(Clone, Copy, Debug, PartialEq, Eq)]
pub struct Board<'a> {
    pub words: &'a [u32],
    ghost long: { length words.now ≡ 86 },
    ghost few: { length (board_of words.now).rows ≤ row_limit },
    ghost same: { board_words (board_of words.now) ≡ words.now },
}

impl<'a> Board<'a> {
    #[tactic(auto, unfolding(rules::specs::Store::board_of))]
    pub fn window(&self) -> Window
        ensures { result ≡ (board_of self.now.words.now).window }
    {
        Window::read(self.words)
    }

    #[tactic(auto, unfolding(rules::specs::Store::board_of))]
    pub fn is_open(&self) -> bool
        ensures { result ≡ rules.is_open (board_of self.now.words.now) }
    {
        self.words[4] == 1
    }

    #[tactic(auto, using(crate::proofs::Words::count_read))]
    pub fn row_count(&self) -> usize
        ensures { (result ≡ length (board_of self.now.words.now).rows) × (result ≤ row_limit) }
    {
        self.words[5] as usize
    }

    #[tactic(auto, using(crate::proofs::Words::row_read))]
    pub fn row_at(&self, i: usize) -> Row
        requires { i < length (board_of self.now.words.now).rows }
        ensures { result ≡ get_or (board_of self.now.words.now).rows i no_row }
    {
        Row::read(&self.words[row_start(i)..])
    }

    // Where the train's row stands, or, where it has none, where it would come in ascending order.
    // The place is looked for from the first row on: sixteen rows are too few for a search by halves to pay.
    pub fn place_of(&self, t: Train) -> Result<usize, usize>
        ensures { result ≡ spec.row_place t (board_of self.now.words.now).rows }
    {
        let n = self.row_count();
        for i in 0..n {
            match t.cmp(&self.row_at(i).train) {
                Ordering::Less => return Err(i),
                Ordering::Equal => return Ok(i),
                Ordering::Greater => {}
            }
        }
        Err(n)
    }

    // Whether the train has a row; where rows ascend, that shows at its place.
    #[tactic(auto, using(crate::proofs::Upkeep::listed_true, crate::proofs::Upkeep::unlisted_false))]
    pub fn lists(&self, t: Train) -> bool
        requires { RowsAscend (board_of self.now.words.now).rows }
        ensures { result ≡ rules.lists t (board_of self.now.words.now) }
    {
        self.place_of(t).is_ok()
    }

    // A report would need a seventeenth row: sixteen are there, none is the train's, and its box meets the open board's window.
    #[tactic(auto, using(crate::proofs::Upkeep::few_rows, crate::proofs::Upkeep::closed_full, crate::proofs::Upkeep::missed_full, crate::proofs::Upkeep::listed_full, crate::proofs::Upkeep::unlisted_full))]
    pub fn is_overfull(&self, r: Row) -> bool
        ensures { result ≡ rules.overfull r (board_of self.now.words.now) }
    {
        self.row_count() == 16
            && self.is_open()
            && boxes::meets(r.bounds, self.window())
            && self.place_of(r.train).is_err()
    }
}
