// Whether a store's words are tidy: what is unused is zero throughout, and every field is in range but those of held entries.
#![tactic(auto)]

ghost use Rattle.std.specs.Prelude.{◌≡◌, ◌*◌, ◌/◌, ◌≤◌, length, get_or};
ghost use Rattle.rules.specs.Lists.{cut, every, same_words};
ghost use Rattle.rules.specs.Store.{place_of, page_words, page_of, board_words, board_of, store_of};
ghost use Rattle.tidy.specs.Tidy as spec;
ghost use Rattle.rules.specs.Sound as sound;

use rules::kind::Kind;
use rules::part::Part;
use rules::{Entry, Stamp};

fn is_zero(words: &[u32]) -> bool
    ensures { result ≡ every spec.is_zero words.now }
{
    words.iter().all(|&word| word == 0)
}

// ---- a page's 52 words; a board's, below, has the same four tests, but each asks something else, so that nothing is said twice

// Word 3 and the places behind the used ones are zero, and a used count fits.
fn page_padded(page: &[u32]) -> bool
    requires { length page.now ≡ 52 }
    ensures { result ≡ same_words (page_words (page_of page.now)) page.now }
{
    page[1] <= 8 && page[3] == 0 && is_zero(&page[4 + 6 * page[1] as usize..])
}

// A place has one of the p pages as its child, and zero.
fn inner_place(place: &[u32], p: usize) -> bool
    requires { 6 ≤ length place.now }
    ensures { result ≡ spec.inner_place p (place_of place.now) }
{
    let child = Entry::read(place);
    (child.key as usize) < p && child.stamp == Stamp(0)
}

fn inner_places(page: &[u32], p: usize) -> bool
    requires { spec.FewPlaces page.now }
    ensures { result ≡ every (spec.inner_place p) (page_of page.now).places }
{
    let (places, _) = page[4..].as_chunks::<6>();
    places[..page[1] as usize]
        .iter()
        .all(|place| inner_place(place, p))
}

// A padded page is free, leaf or inner; a free one is zero throughout.
#[tactic(auto, using(crate::proofs::Parts::page_range_so, std::proofs::lemmas::Bool::Decides::nat_tests))]
fn page_in_range(page: &[u32], p: usize) -> bool
    requires { spec.FewPlaces page.now }
    ensures { result ≡ sound.page_in_range p (page_of page.now) }
{
    match Kind::try_from(page[0]) {
        Ok(Kind::Free) => page[1] == 0 && page[2] == 0,
        Ok(Kind::Leaf) => true,
        Ok(Kind::Inner) => inner_places(page, p),
        Err(_) => false,
    }
}

#[tactic(auto, using(crate::proofs::Parts::page_few, std::proofs::lemmas::Bool::Decides::nat_tests), unfolding(crate::specs::Tidy::page_tidy))]
fn is_page(page: &[u32], p: usize) -> bool
    requires { length page.now ≡ 52 }
    ensures { result ≡ spec.page_tidy p page.now }
{
    page_padded(page) && page_in_range(page, p)
}

fn are_pages(pages: &[u32], p: usize) -> bool
    requires { length pages.now ≡ 52 * p }
    ensures { result ≡ every (spec.page_tidy p) (cut p 52 pages.now) }
{
    let (pages, _) = pages.as_chunks::<52>();
    pages.iter().all(|page| is_page(page, p))
}

// ---- the memo's words

// Used slots come first and ascend; from the first unused one on all is zero.
#[tactic(auto, using(crate::proofs::Parts::memo_at_first, crate::proofs::Parts::slots_more, crate::proofs::Parts::slots_none, std::proofs::lemmas::Bool::Decides::nat_tests))]
fn is_memo(memo: &[u32], k: usize) -> bool
    requires { length memo.now ≡ 3 * k }
    ensures { result ≡ spec.memo_tidy k memo.now }
{
    let mut last = 0;
    for i in 0..k {
        let train = memo[3 * i];
        if train == 0 {
            return is_zero(&memo[3 * i..]);
        }
        if train <= last {
            return false;
        }
        last = train;
    }
    true
}

// ---- a board's 86 words

// The rows behind the used ones are zero, and a used count fits.
#[tactic(auto, using(crate::proofs::Parts::board_padded_so, std::proofs::lemmas::Bool::Decides::nat_tests))]
fn board_padded(board: &[u32]) -> bool
    requires { length board.now ≡ 86 }
    ensures { result ≡ same_words (board_words (board_of board.now)) board.now }
{
    board[5] <= 16 && is_zero(&board[6 + 5 * board[5] as usize..])
}

// A padded board is open, or closed and zero throughout.
#[tactic(auto, using(crate::proofs::Parts::board_range_so, std::proofs::lemmas::Bool::Decides::nat_tests))]
fn board_in_range(board: &[u32]) -> bool
    requires long { length board.now ≡ 86 }
    requires few { get_or board.now 5 0 ≤ 16 }
    ensures { result ≡ sound.board_in_range (board_of board.now) }
{
    board[4] == 1 || (board[4] == 0 && board[5] == 0 && is_zero(&board[..4]))
}

#[tactic(auto, using(crate::proofs::Parts::board_few, std::proofs::lemmas::Bool::Decides::nat_tests), unfolding(crate::specs::Tidy::board_tidy))]
fn is_board(board: &[u32]) -> bool
    requires { length board.now ≡ 86 }
    ensures { result ≡ spec.board_tidy board.now }
{
    board_padded(board) && board_in_range(board)
}

fn are_boards(boards: &[u32]) -> bool
    ensures { result ≡ every spec.board_tidy (cut (length boards.now / 86) 86 boards.now) }
{
    let (boards, _) = boards.as_chunks::<86>();
    boards.iter().all(|board| is_board(board))
}

// ---- the whole

// Words 1, 2 and 3: every next stamp but 0 is in range.
#[tactic(auto, using(crate::proofs::Parts::header_so, std::proofs::lemmas::Bool::Decides::nat_tests))]
fn header_in_range(store: &[u32]) -> bool
    requires { 16 ≤ length store.now }
    ensures { result ≡ sound.header_in_range (store_of store.now) }
{
    store[1] != 0 && store[2] < store[5] && store[3] != 0 && store[3] <= 5
}

// The pages, the memo and the boards: each part of the store's middle is lent on to be tested by itself.
#[tactic(auto, using(crate::proofs::Parts::pages_lent), unfolding(crate::specs::Tidy::pages_tidy, rules::specs::Store::memo_start))]
fn pages_tidy(store: &[u32]) -> bool
    requires { spec.Laid store.now }
    ensures { result ≡ spec.pages_tidy store.now }
{
    let p = header::pages(store);
    are_pages(&store[16..header::memo_start(p)], p)
}

#[tactic(auto, unfolding(crate::specs::Tidy::memo_part_tidy, rules::specs::Store::memo_start, rules::specs::Store::boards_start))]
fn memo_tidy(store: &[u32]) -> bool
    requires { spec.Laid store.now }
    ensures { result ≡ spec.memo_part_tidy store.now }
{
    let p = header::pages(store);
    let k = header::slots(store);
    is_memo(&store[header::memo_start(p)..header::boards_start(p, k)], k)
}

#[tactic(auto, using(std::proofs::lemmas::List::take_rest, crate::proofs::Parts::boards_many), unfolding(crate::specs::Tidy::boards_tidy, rules::specs::Store::boards_start))]
fn boards_tidy(store: &[u32]) -> bool
    requires { spec.Laid store.now }
    ensures { result ≡ spec.boards_tidy store.now }
{
    let start = header::boards_start(header::pages(store), header::slots(store));
    are_boards(&store[start..])
}

#[tactic(auto, using(crate::proofs::Parts::tidy_so))]
pub fn is_tidy(store: &[u32]) -> bool
    requires { spec.Laid store.now }
    ensures { result ≡ spec.tidy store.now }
{
    header_in_range(store) && pages_tidy(store) && memo_tidy(store) && boards_tidy(store)
}
