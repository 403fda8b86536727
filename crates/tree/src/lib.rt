// Putting an entry or a child page into the tree at its level, and splitting the pages that overflow on the way.
#![tactic(auto)]

ghost use Rattle.std.specs.Prelude.{◌≡◌, [], ◌∷◌, ◌++◌, map, ◌+◌, ◌≤◌, ◌<◌, length, take, drop, Some};
ghost use Rattle.rules.specs.Store as rules;
ghost use Rattle.rules.specs.Tree as tree;
ghost use Rattle.rules.specs.Views.{ProperBox};
ghost use Rattle.page.specs.Struct.{contents, laid_page, struct_at, with_struct};
ghost use Rattle.split.specs.Split.{Proper};
ghost use Rattle.tree.specs.Putting.{Ready, page_count, IsReady, Laid, InTwo, Put, settled_in, page_with, picked, renewed_in, over_root, NewRoot, raised, Grown};

use page::Page;
use parent::Parent;
use rules::kind::Kind;
use rules::part::Part;
use rules::{Box, Entry, PageNo, Stamp};

mod parent;

// ---- the store's pages, as many as its header says

// Page `at`; past the last there is an empty one.
#[tactic(auto, using(crate::specs::Laws::header_room, crate::specs::Laws::room, crate::specs::Laws::ready_count, crate::specs::Laws::count_read))]
pub fn page_of(store: &[u32], at: PageNo) -> Page
    requires { IsReady store.now }
    ensures { result ≡ struct_at store.now (page_count store.now) at }
{
    page::page_at(store, header::pages(store), at)
}

// Page `at` becomes g; past the last page nothing changes.
#[tactic(auto, using(crate::specs::Laws::header_room, crate::specs::Laws::room, crate::specs::Laws::ready_count, crate::specs::Laws::count_read))]
pub fn put_page(store: &mut [u32], at: PageNo, g: Page)
    requires { IsReady store.old }
    ensures { store.new ≡ with_struct store.old (page_count store.old) at g }
{
    page::put_page(store, header::pages(store), at, g);
}

// The lowest free page.
#[tactic(auto, using(crate::specs::Laws::header_room, crate::specs::Laws::room, crate::specs::Laws::ready_count, crate::specs::Laws::free_read))]
fn lowest_free(store: &[u32]) -> PageNo
    requires { IsReady store.now }
    ensures { result ≡ tree.lowest_free (rules.store_of store.now).pages }
{
    page::lowest_free(store, header::pages(store))
}

// ---- places as rows of six words, as splitting takes them

// The eight places of a full page and the new one last.
#[tactic(auto, using(crate::proofs::Rows::nine_turn))]
fn nine(g: Page, e: Entry) -> [[u32; 6]; 9]
    ensures { result ≡ map rules.place_words (g.places ++ (e ∷ [])) }
{
    let mut rows = [[0; 6]; 9];
    for (i, place) in g.places.iter().enumerate() {
        place.write(&mut rows[i]);
    }
    e.write(&mut rows[8]);
    rows
}

// The page whose places are these rows, added one by one to an empty page; kind and mark, which no other function takes, are its own.
#[tactic(auto, using(crate::proofs::Rows::part_start, crate::proofs::Rows::part_turn))]
fn part(rows: &[[u32; 6]], kind: u32, mark: Stamp) -> Page
    requires { length rows.now ≤ 8 }
    ensures { result ≡ laid_page (page_with kind mark rows.now) }
{
    let mut g = Page {
        kind,
        mark,
        ..page::empty_page()
    };
    for row in rows {
        g = page::add_place(g, Entry::read(row));
    }
    g
}

// ---- one page

// The first n rows stay in page `at`, read as g; the others go to the lowest free page, of the same kind and with the same mark.
fn put_parts(store: &mut [u32], at: PageNo, g: Page, rows: [[u32; 6]; 9], n: usize) -> PageNo
    requires { IsReady store.old × Proper rows × (1 ≤ n) × (n ≤ 8) }
    ensures { InTwo (page_count store.old) store.old at (page_with g.kind g.mark (take n rows)) (page_with g.kind g.mark (drop n rows)) store.new result }
{
    let q = lowest_free(store);
    put_page(store, at, part(&rows[..n], g.kind, g.mark));
    put_page(store, q, part(&rows[n..], g.kind, g.mark));
    q
}

// Splits page `at`, which is read as g and full, by one place more.
#[tactic(auto, using(crate::proofs::OnePage::nine_proper, crate::proofs::OnePage::parts_proper))]
fn split_page(store: &mut [u32], at: PageNo, g: Page, e: Entry) -> PageNo
    requires { IsReady store.old × Laid g × ProperBox e.bounds × (8 ≤ g.count) }
    ensures { Put (page_count store.old) store.old (settled_in store.old at g e) store.new (Some result) }
{
    let rows = nine(g, e);
    let cut = split::winner(rows);
    let parts = split::ordered(rows, cut);
    put_parts(store, at, g, parts, cut.first)
}

// Page `at`, read as g, gets one place more, behind the used ones; where there is no room it is split, and the answer is the page with
// the second part.
fn settle(store: &mut [u32], at: PageNo, g: Page, e: Entry) -> Option<PageNo>
    requires { IsReady store.old × Laid g × ProperBox e.bounds }
    ensures { Put (page_count store.old) store.old (settled_in store.old at g e) store.new result }
{
    if g.count < 8 {
        put_page(store, at, page::add_place(g, e));
        None
    } else {
        Some(split_page(store, at, g, e))
    }
}

// ---- from page to child

// The place of page `at` in its parent, with the box that covers the page's places as they are now.
#[tactic(auto, using(crate::proofs::Below::child_made))]
pub fn child_place(store: &[u32], at: PageNo) -> Entry
    requires { Ready (length (rules.store_of store.now).pages) store.now }
    ensures { result ≡ tree.child_place (rules.store_of store.now).pages at }
{
    Entry {
        bounds: page::cover_page(page_of(store, at)),
        key: at.0,
        stamp: Stamp(0),
    }
}

// The place of g that takes the new box best; a page with no places has none.
#[tactic(auto, using(crate::specs::Laws::laid_most, crate::proofs::Below::pick_none, crate::proofs::Below::pick_one))]
fn pick(g: Page, new: Box) -> Option<usize>
    requires { Laid g }
    ensures { result ≡ picked new (contents g).places }
{
    if g.count == 0 {
        None
    } else {
        Some(split::choose(g.places, g.count as usize, new))
    }
}

// The parent, once its child has been written: the box made anew, and a second part added last.
fn renew(store: &mut [u32], parent: Parent, below: Option<PageNo>) -> Option<PageNo>
    requires { IsReady store.old }
    ensures { Put (page_count store.old) store.old (renewed_in store.old parent.at parent.page parent.place below) store.new result }
{
    let h = parent.with_child(child_place(store, parent.child()));
    match below {
        Some(q) => settle(store, parent.at, h, child_place(store, q)),
        None => {
            put_page(store, parent.at, h);
            None
        }
    }
}

// Puts e into a page `depth` levels below page `at`: it calls itself for the child whose box takes e best.
#[tactic(auto, using(crate::specs::Laws::ready_own))]
fn put_below(store: &mut [u32], depth: u32, at: PageNo, e: Entry) -> Option<PageNo>
    requires { IsReady store.old × ProperBox e.bounds }
    ensures { Put (page_count store.old) store.old (tree.put_below depth (rules.store_of store.old).pages at e) store.new result }
{
    let g = page_of(store, at);
    if depth == 0 {
        return settle(store, at, g, e);
    }
    let place = pick(g, e.bounds);
    let parent = Parent { at, page: g, place };
    let below = put_below(store, depth - 1, parent.child(), e);
    renew(store, parent, below)
}

// ---- the whole tree

// The root over a page that was split: the old root first, the page with the second part second.
fn root_over(store: &[u32], root: PageNo, q: PageNo) -> Page
    requires { IsReady store.now }
    ensures { result ≡ laid_page (over_root (rules.store_of store.now).pages root q) }
{
    let empty = Page {
        kind: Kind::Inner as u32,
        ..page::empty_page()
    };
    let one = page::add_place(empty, child_place(store, root));
    page::add_place(one, child_place(store, q))
}

// Writes that page over the store's root, whose second part stands in page q, into the lowest free page left.
#[tactic(auto, using(crate::specs::Laws::header_room))]
fn new_root(store: &mut [u32], q: PageNo) -> PageNo
    requires { IsReady store.old }
    ensures { NewRoot (page_count store.old) store.old q store.new result }
{
    let root = header::root(store);
    let r = lowest_free(store);
    put_page(store, r, root_over(store, root, q));
    r
}

// The tree gets a new root, and so one level more.
#[tactic(auto, using(crate::specs::Laws::header_room, crate::proofs::Root::levels_fit, crate::proofs::Root::raise_room, crate::proofs::Root::raise_room_2))]
fn raise(store: &mut [u32], q: PageNo)
    requires { IsReady store.old × ((rules.store_of store.old).levels < rules.limit) }
    ensures { Grown (page_count store.old) store.old (raised (rules.store_of store.old) q) store.new }
{
    let levels = header::levels(store);
    let r = new_root(store, q);
    header::set_root(store, r);
    header::set_levels(store, levels + 1);
}

// Puts e, an entry or a child page's place, into a page at this level; leaves stand at level 1.
#[tactic(auto, using(crate::specs::Laws::header_room, crate::specs::Laws::ready_own, crate::proofs::Root::levels_kept))]
pub fn put_at(store: &mut [u32], level: u32, e: Entry)
    requires ready { Ready (length (rules.store_of store.old).pages) store.old × ProperBox e.bounds }
    requires level_bound { (level ≤ (rules.store_of store.old).levels) × ((rules.store_of store.old).levels < rules.limit) }
    ensures { Grown (length (rules.store_of store.old).pages) store.old (tree.put_at level e (tree.tree_of (rules.store_of store.old))) store.new }
{
    let root = header::root(store);
    let depth = header::levels(store) - level;
    if let Some(q) = put_below(store, depth, root, e) {
        raise(store, q);
    }
}
