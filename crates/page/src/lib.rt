// Pages: a page of the store as a struct, its places, and searches over all pages.
#![tactic(auto)]

ghost use Rattle.std.specs.Prelude.{◌≡◌, ◌+◌, ◌*◌, ◌≤◌, ◌<◌, length, drop, get_or, eqb};
ghost use Rattle.rules.specs.Boxes.{cover_of};
ghost use Rattle.rules.specs.Tree.{its_box};
ghost use Rattle.rules.specs.Lists.{cut};
ghost use Rattle.rules.specs.Live.{held_count};
ghost use Rattle.rules.specs.Store as rules;
ghost use Rattle.page.specs.Struct as spec;
ghost use Rattle.rules.specs.Cleaning as cleaning;
ghost use Rattle.rules.specs.Tree as tree;

use rules::kind::Kind;
use rules::part::Part;
use rules::{Box, Entry, PageNo, Stamp};

mod part;

// A page: one header with its eight places, of which the first `count` are used. The kind is a word, since page_at answers for any
// words, also such as name no Kind.
#[derive(Clone, Copy, Debug, PartialEq, Eq)]
pub struct Page {
    pub kind: u32,
    pub count: u32,
    pub mark: Stamp,
    pub places: [Entry; 8],
}

// A free page: zero throughout.
#[tactic(auto, unfolding(crate::specs::Struct::laid_page, crate::specs::Struct::eight))]
pub fn empty_page() -> Page
    ensures { result ≡ spec.laid_page rules.free_page }
{
    Page {
        kind: Kind::Free as u32,
        count: 0,
        mark: Stamp(0),
        places: [Entry::default(); 8],
    }
}

// ---- pages in the store

// The store's p pages, each as its words.
#[tactic(auto, using(crate::proofs::Words::pages_there))]
fn pages(store: &[u32], p: usize) -> &[[u32; 52]]
    requires { 16 + 52 * p ≤ length store.now }
    ensures cut_so { result.now ≡ cut p 52 (drop 16 store.now) }
    ensures count { length result.now ≡ p }
{
    &store[16..].as_chunks::<52>().0[..p]
}

// Page `at` of the store's p pages; past the last there is an empty one.
#[tactic(auto, using(crate::proofs::Words::read_inside, crate::proofs::Words::read_past))]
pub fn page_at(store: &[u32], p: usize, at: PageNo) -> Page
    requires { 16 + 52 * p ≤ length store.now }
    ensures { result ≡ spec.struct_at store.now p at }
{
    match pages(store, p).get(at.0 as usize) {
        Some(page) => Page::read(page),
        None => empty_page(),
    }
}

// Page `at` becomes g; past the last page nothing changes.
#[tactic(auto, using(std::proofs::lemmas::Bool::Decides::nat_tests), unfolding(crate::specs::Struct::with_struct))]
pub fn put_page(store: &mut [u32], p: usize, at: PageNo, g: Page)
    requires { 16 + 52 * p ≤ length store.old }
    ensures { store.new ≡ spec.with_struct store.old p at g }
{
    let i = at.0 as usize;
    if i < p {
        g.write(&mut store[16 + 52 * i..68 + 52 * i]);
    }
}

// ---- the places of a page

impl Page {
    // The used places; where a damaged page's count says more than there are, all eight.
    #[tactic(auto, unfolding(crate::specs::Struct::contents))]
    pub fn used(&self) -> &[Entry]
        ensures { result.now ≡ (spec.contents self.now).places }
    {
        &self.places[..(self.count as usize).min(8)]
    }
}

// Place i; past the eighth there is none.
pub fn place_at(g: Page, i: usize) -> Entry
    ensures { result ≡ get_or g.places i rules.no_place }
{
    g.places.get(i).copied().unwrap_or_default()
}

// Another entry in place i; past the eighth nothing changes.
#[tactic(auto, using(crate::specs::Laws::length_mapped), unfolding(crate::specs::Struct::with_place))]
pub fn set_place(mut g: Page, i: usize, e: Entry) -> Page
    ensures { result ≡ spec.with_place g i e }
{
    if i < 8 {
        g.places[i] = e;
    }
    g
}

// One place more, behind the used ones; a full page stays as it is.
#[tactic(auto, using(std::proofs::lemmas::Bool::Decides::nat_tests), unfolding(crate::specs::Struct::added))]
pub fn add_place(mut g: Page, e: Entry) -> Page
    ensures { result ≡ spec.added g e }
{
    if g.count < 8 {
        g.places[g.count as usize] = e;
        g.count += 1;
    }
    g
}

// Without the used place i: the later ones move down by one, and the last is zero.
#[tactic(auto, using(rules::specs::laws::Places::gap_closed, crate::specs::Laws::length_mapped), unfolding(crate::specs::Struct::removed))]
pub fn remove_place(mut g: Page, i: usize) -> Page
    requires { (i < g.count) × (g.count ≤ 8) }
    ensures { result ≡ spec.removed g i }
{
    g.places.copy_within(i + 1.., i);
    g.places[7] = Entry::default();
    g.count -= 1;
    g
}

// The smallest box that covers the used places; of none, all zero.
pub fn cover_page(g: Page) -> Box
    ensures { result ≡ cover_of its_box (spec.contents g).places }
{
    let Some((first, others)) = g.used().split_first() else {
        return Box::default();
    };
    others
        .iter()
        .fold(first.bounds, |all, e| boxes::cover(all, e.bounds))
}

// ---- searches over all pages, which read no more than each page's first words

fn is_leaf(page: &[u32; 52]) -> bool
    ensures { result ≡ eqb (get_or page.now 0 0) 1 }
{
    page[0] == Kind::Leaf as u32
}

// The lowest free page; where there is none the answer is p, as the definition has it.
pub fn lowest_free(store: &[u32], p: usize) -> PageNo
    requires { (p ≤ 192) × (16 + 52 * p ≤ length store.now) }
    ensures { result ≡ tree.lowest_free (rules.pages_of p (drop 16 store.now)) }
{
    let free = pages(store, p)
        .iter()
        .position(|page| page[0] == Kind::Free as u32);
    PageNo(free.unwrap_or(p) as u32)
}

// The smallest mark of a leaf.
pub fn smallest_mark(store: &[u32], p: usize) -> Stamp
    requires { (p ≤ 192) × (16 + 52 * p ≤ length store.now) }
    ensures { result ≡ cleaning.smallest_mark (rules.pages_of p (drop 16 store.now)) }
{
    let leaves = pages(store, p).iter().filter(|page| is_leaf(page));
    Stamp(leaves.map(|page| page[2]).fold(u32::MAX, u32::min))
}

// The leaf with the smallest mark, the lowest page number on a tie; p where there is no leaf, as the definition has it.
pub fn leaf_to_clean(store: &[u32], p: usize) -> PageNo
    requires { (p ≤ 192) × (16 + 52 * p ≤ length store.now) }
    ensures { result ≡ cleaning.leaf_to_clean (rules.pages_of p (drop 16 store.now)) }
{
    let mark = smallest_mark(store, p);
    let leaf = pages(store, p)
        .iter()
        .position(|page| is_leaf(page) && Stamp(page[2]) == mark);
    PageNo(leaf.unwrap_or(p) as u32)
}

// How many entries the leaves hold.
pub fn held_entries(store: &[u32], p: usize) -> usize
    requires { (p ≤ 192) × (16 + 52 * p ≤ length store.now) }
    ensures { result ≡ held_count (rules.pages_of p (drop 16 store.now)) }
{
    let leaves = pages(store, p).iter().filter(|page| is_leaf(page));
    leaves.map(|page| (page[1] as usize).min(8)).sum()
}
