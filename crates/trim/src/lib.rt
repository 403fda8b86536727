// The tree's part of a clean: a leaf loses its obsolete entries, pages left thin are freed, what they held is put back, and a root
// with one child gives way to it.
#![tactic(auto)]

ghost use Rattle.std.specs.Prelude.{◌≡◌, ◌+◌, ◌-◌, ◌≤◌, ◌<◌, ◌++◌, Bool, map, length};
ghost use Rattle.rules.specs.Lists.{keep};
ghost use Rattle.rules.specs.Memo as rules;
ghost use Rattle.rules.specs.Store.{page_at, store_of};
ghost use Rattle.rules.specs.Tree.{with_places, tree_of};
ghost use Rattle.rules.specs.Cleaning.{put_back, given_way, cleaned};
ghost use Rattle.page.specs.Struct.{contents, laid_page};
ghost use Rattle.memo.specs.Slots.{HoldsMemo};
ghost use Rattle.tree.specs.Putting.{page_count, IsReady, Wrote, Grown};
ghost use Rattle.trim.specs.Trimming.{Readable, IsReadable, page_kept, leads_to, way, at_level, Waits, trimmed_in, child_freed, child_renewed, trimmed_place, so_far, TrimmedTo, LeafBelow, held_by, root_lowered, Cleanable};

use arrayvec::ArrayVec;
use memo::view::Memo;
use page::Page;
use parent::Parent;
use rules::kind::Kind;
use rules::{Entry, PageNo, Stamp};

mod parent;

// A place that waits to be put back, and the level of the page that it goes into.
#[derive(Clone, Copy, Debug, Default, PartialEq, Eq)]
struct Orphan {
    level: u32,
    place: Entry,
}

// Those that wait: fewer than four places of one page on each of four levels.
type Orphans = ArrayVec<Orphan, 12>;

// ---- what a leaf keeps

// Page `at` with only those of its places that pass the test, in their order.
fn kept_in<F: Fn(Entry) -> bool>(store: &[u32], at: PageNo, passes: F) -> Page
    requires readable { IsReadable store.now }
    requires callable { F.IsAlwaysCallable passes }
    ensures { (test : Entry → Bool) → ((e : Entry) (b : Bool) → F.post passes e b → b ≡ test e) → result ≡ laid_page (page_kept test (store_of store.now) at) }
{
    let g = tree::page_of(store, at);
    let mut r = Page {
        kind: g.kind,
        mark: g.mark,
        ..page::empty_page()
    };
    for &e in g.used() {
        if passes(e) {
            r = page::add_place(r, e);
        }
    }
    r
}

// Page `at` with only those of its places that are latest.
pub fn latest_in(store: &[u32], at: PageNo) -> Page
    requires { Readable (length (store_of store.now).pages) store.now }
    ensures { result ≡ laid_page (with_places (page_at (store_of store.now).pages at) (keep (rules.is_latest (store_of store.now).memo) (page_at (store_of store.now).pages at).places)) }
{
    let memo = Memo::of(store);
    kept_in(store, at, |e| memo.is_latest(e))
}

// Page `at` with only those that are obsolete.
pub fn obsolete_in(store: &[u32], at: PageNo) -> Page
    requires { Readable (length (store_of store.now).pages) store.now }
    ensures { result ≡ laid_page (with_places (page_at (store_of store.now).pages at) (keep (rules.is_obsolete (store_of store.now).memo) (page_at (store_of store.now).pages at).places)) }
{
    let memo = Memo::of(store);
    kept_in(store, at, |e| !memo.is_latest(e))
}

// ---- the way to the leaf

// Whether q is among the pages under page `at`, itself one of them, which stands at this level; no leaf is read.
#[cycle(reaches_way_to)]
fn reaches(store: &[u32], level: u32, at: PageNo, q: PageNo) -> bool
    requires { IsReady store.now × (1 ≤ level) }
    ensures { result ≡ leads_to (store_of store.now).pages level q at }
{
    at == q || (level > 1 && way_to(store, level - 1, tree::page_of(store, at), q).is_some())
}

// The first place of g whose child, which stands at this level, leads to q.
#[cycle(reaches_way_to)]
fn way_to(store: &[u32], level: u32, g: Page, q: PageNo) -> Option<usize>
    requires { IsReady store.now × (1 ≤ level) }
    ensures { result ≡ way (store_of store.now).pages level q (contents g).places }
{
    for (i, e) in g.used().iter().enumerate() {
        if reaches(store, level, PageNo(e.key), q) {
            return Some(i);
        }
    }
    None
}

// ---- taking out what is thin

// The places of a page at this level that is freed wait behind the others.
fn add_orphans(waiting: &mut Orphans, level: u32, places: &[Entry])
    requires { length waiting.old.items + length places.now ≤ 12 }
    ensures { waiting.new.items ≡ waiting.old.items ++ map (at_level level) places.now }
{
    for &place in places {
        waiting.push(Orphan { level, place });
    }
}

// The leaf keeps its latest entries and gets the mark.
fn trim_leaf(store: &mut [u32], at: PageNo, mark: Stamp)
    requires { IsReadable store.old }
    ensures { Wrote (page_count store.old) store.old (trimmed_in store.old mark 0 at at).pages store.new }
{
    let g = Page {
        kind: Kind::Leaf as u32,
        mark,
        ..latest_in(store, at)
    };
    tree::put_page(store, at, g);
}

// Frees the parent's child: its place there goes too.
fn free_child(store: &mut [u32], parent: Parent)
    requires { IsReady store.old }
    ensures { Wrote (page_count store.old) store.old (child_freed (store_of store.old).pages parent) store.new }
{
    tree::put_page(store, parent.child(), page::empty_page());
    let page = page::remove_place(parent.page, parent.place);
    tree::put_page(store, parent.at, page);
}

// Makes the box of the parent's child anew.
fn renew_child(store: &mut [u32], parent: Parent)
    requires { IsReady store.old }
    ensures { Wrote (page_count store.old) store.old (child_renewed (store_of store.old).pages parent) store.new }
{
    let place = tree::child_place(store, parent.child());
    let page = page::set_place(parent.page, parent.place, place);
    tree::put_page(store, parent.at, page);
}

// The parent, once its child at this level has been trimmed: a thin child is freed and its places wait.
fn trim_place(store: &mut [u32], level: u32, parent: Parent, waiting: &mut Orphans)
    requires { IsReady store.old × (1 ≤ level) × (level ≤ 4) × Waits (level - 1) waiting.old.items }
    ensures { TrimmedTo (page_count store.old) store.old level (trimmed_place level parent (so_far store.old waiting.old.items)) store.new waiting.new.items }
{
    let left = tree::page_of(store, parent.child());
    let is_thin = left.count < 4;
    if is_thin {
        free_child(store, parent);
        add_orphans(waiting, level, left.used());
    } else {
        renew_child(store, parent);
    }
}

// Trims the leaf q, which stands `depth` levels below page `at`: it calls itself for the child that leads there.
fn trim_below(store: &mut [u32], depth: u32, at: PageNo, q: PageNo, mark: Stamp) -> Orphans
    requires { IsReadable store.old × (depth ≤ 4) × LeafBelow store.old depth at q }
    ensures { TrimmedTo (page_count store.old) store.old depth (trimmed_in store.old mark depth at q) store.new result.items }
{
    if depth == 0 {
        trim_leaf(store, at, mark);
        return ArrayVec::new();
    }
    let g = tree::page_of(store, at);
    let place = way_to(store, depth, g, q).unwrap();
    let parent = Parent { at, page: g, place };
    let mut waiting = trim_below(store, depth - 1, parent.child(), q, mark);
    trim_place(store, depth, parent, &mut waiting);
    waiting
}

// ---- the whole tree

// Puts back what waits, in turn, each place into a page at its level.
fn put_back(store: &mut [u32], waiting: &[Orphan])
    requires ready { IsReady store.old }
    requires waits { ((store_of store.old).levels ≤ 5) × Waits ((store_of store.old).levels - 1) waiting.now }
    ensures { Grown (page_count store.old) store.old (put_back (held_by waiting.now) (tree_of (store_of store.old))) store.new }
{
    for o in waiting {
        tree::put_at(store, o.level, o.place);
    }
}

// Frees the root page; its child c is the root, one level lower.
#[tactic(auto, using(tree::specs::Laws::header_room, crate::proofs::Whole::freed_header, crate::proofs::Whole::levels_some, crate::proofs::Whole::lowered_header))]
fn lower_root(store: &mut [u32], c: PageNo)
    requires { IsReady store.old × (1 ≤ (store_of store.old).levels) }
    ensures { Grown (page_count store.old) store.old (root_lowered (tree_of (store_of store.old)) c) store.new }
{
    let levels = header::levels(store);
    let root = header::root(store);
    tree::put_page(store, root, page::empty_page());
    header::set_root(store, c);
    header::set_levels(store, levels - 1);
}

// An inner root with one child gives way to it.
#[tactic(auto, using(tree::specs::Laws::header_room))]
fn give_way(store: &mut [u32])
    requires { IsReady store.old × (1 ≤ (store_of store.old).levels) }
    ensures { Grown (page_count store.old) store.old (given_way (tree_of (store_of store.old))) store.new }
{
    let g = tree::page_of(store, header::root(store));
    if g.kind == Kind::Inner as u32 && g.count == 1 {
        lower_root(store, PageNo(g.places[0].key));
    }
}

// Cleans the leaf q, which gets the mark.
pub fn clean_tree(store: &mut [u32], q: PageNo, mark: Stamp)
    requires { Cleanable q store.old }
    ensures { Grown (length (store_of store.old).pages) store.old (cleaned (keep (rules.is_latest (store_of store.old).memo)) mark q (tree_of (store_of store.old))) store.new }
{
    let root = header::root(store);
    let depth = header::levels(store) - 1;
    let waiting = trim_below(store, depth, root, q, mark);
    put_back(store, waiting.as_slice());
    give_way(store);
}
