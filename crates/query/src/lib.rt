// The rows of a window: a descent from the root writes a key for each, and the keys, sorted, give the rows by ascending train.
#![tactic(auto)]

ghost use Rattle.std.specs.Prelude.{◌≡◌, ◌+◌, ◌*◌, ◌<◌, ◌≤◌, length, set, drop};
ghost use mathlib.Core.List.{[], ◌++◌, map, flat_map};
ghost use Rattle.rules.specs.Lists.{put_if};
ghost use Rattle.rules.specs.Store.{page_at, row_words, store_of};
ghost use Rattle.page.specs.Struct.{laid_page};
ghost use Rattle.query.specs.Keys.{key_of, row_of_key, hit, keys_at, Searchable, Written, Found};

use memo::view::Memo;
use page::Page;
use rules::part::Part;
use rules::{Entry, PageNo, Row, Train, Window};

// ---- keys

// The key of an entry, which stands in place i of page `at`.
#[tactic(auto, unfolding(crate::specs::Keys::key_of))]
fn key_for(at: PageNo, i: usize, e: Entry) -> u64
    requires { (at.0 < 192) × (i < 8) }
    ensures { result ≡ key_of at i e }
{
    u64::from(e.key) * 4294967296 + (8 * u64::from(at.0) + i as u64)
}

// Writes a key at place n, where there is room.
fn put_key(keys: &mut [u64], n: usize, key: u64)
    ensures { keys.new ≡ set keys.old n key }
{
    // `get_mut` promises nothing of the slice afterwards.
    if n < keys.len() {
        keys[n] = key;
    }
}

// ---- what a store holds

// Page `at`, whose words are lent on to be read; past the last there is an empty one. walk and tree have a function of the same one
// line, each for what it knows of the store.
#[tactic(auto, using(crate::proofs::Lent::header_room, crate::proofs::Lent::page_room, crate::proofs::Lent::page_laid))]
fn page_of(store: &[u32], at: PageNo) -> Page
    requires { Searchable store.now }
    ensures { result ≡ laid_page (page_at (store_of store.now).pages at) }
{
    page::page_at(store, header::pages(store), at)
}

// Whether a query lists the entry; its box is tried first, since the memo takes longer.
#[tactic(auto, using(crate::proofs::Lent::memo_held, crate::proofs::Lent::hit_latest, crate::proofs::Lent::no_hit))]
fn is_hit(store: &[u32], e: Entry, w: Window) -> bool
    requires { Searchable store.now }
    ensures { result ≡ hit (store_of store.now).memo w e }
{
    boxes::meets(e.bounds, w) && Memo::of(store).is_latest(e)
}

// ---- the descent

// Writes the key of the entry in place i of page `at`, if the query lists it, at n, if there is room; says where the next would go.
fn add_hit(
    store: &[u32],
    at: PageNo,
    i: usize,
    e: Entry,
    w: Window,
    keys: &mut [u64],
    n: usize,
) -> usize
    requires searchable { Searchable store.now }
    requires at_bound { (at.0 < 192) × (i < 8) × (n ≤ 576) }
    ensures { Written keys.old n (put_if (hit (store_of store.now).memo w e) (key_of at i e) []) result keys.new }
{
    if !is_hit(store, e, w) {
        return n;
    }
    put_key(keys, n, key_for(at, i, e));
    n + 1
}

// The same for all leaves under page `at`, which stands at this level, from n on: above the leaves it calls itself for each child whose
// box meets the window.
fn collect(store: &[u32], level: u32, at: PageNo, w: Window, keys: &mut [u64], n: usize) -> usize
    requires searchable { Searchable store.now × (1 ≤ level) }
    requires at_bound { n + length (keys_at store.now w level at) ≤ 576 }
    ensures { Written keys.old n (keys_at store.now w level at) result keys.new }
{
    let g = page_of(store, at);
    let mut m = n;
    for (i, &e) in g.used().iter().enumerate() {
        if level == 1 {
            m = add_hit(store, at, i, e, w, keys, m);
        } else if boxes::meets(e.bounds, w) {
            m = collect(store, level - 1, PageNo(e.key), w, keys, m);
        }
    }
    m
}

// The keys of the query's rows, in order, at the front of `keys`, and how many there are; 3 entries for each of 192 pages are the most.
#[tactic(auto, using(crate::proofs::Lent::header_room, crate::proofs::Finding::level_least, crate::proofs::Finding::root_room, crate::proofs::Finding::found_inside, crate::proofs::Finding::found_within))]
pub fn find(store: &[u32], w: Window, keys: &mut [u64], work: &mut [u64]) -> usize
    requires searchable { Searchable store.now }
    requires keys_len { (length keys.old ≡ 576) × (length work.old ≡ 576) }
    ensures { Found (store_of store.now) w keys.old work.old result keys.new work.new }
{
    // The slices and the count beside them stay: the contract of `find` names them.
    let r = collect(
        store,
        header::levels(store),
        header::root(store),
        w,
        keys,
        0,
    );
    sort::sort(&mut keys[..r], &mut work[..r]);
    r
}

// ---- rows

// The row of the entry that a key names.
pub fn row_for(store: &[u32], key: u64) -> Row
    requires { Searchable store.now }
    ensures { result ≡ row_of_key (store_of store.now).pages key }
{
    let at = PageNo((key / 8 % 536870912) as u32);
    let e = page::place_at(page_of(store, at), (key % 8) as usize);
    Row {
        train: Train(e.key),
        bounds: e.bounds,
    }
}

// Writes the rows of the keys to the front of `out`, each row's part lent on to be written.
#[tactic(auto, using(crate::proofs::Writing::no_rows, crate::proofs::Writing::written_more))]
pub fn write_rows(store: &[u32], keys: &[u64], out: &mut [u32])
    requires searchable { Searchable store.now }
    requires out_len { 5 * length keys.now ≤ length out.old }
    ensures { out.new ≡ flat_map row_words (map (row_of_key (store_of store.now).pages) keys.now) ++ drop (5 * length keys.now) out.old }
{
    for (i, &key) in keys.iter().enumerate() {
        row_for(store, key).write(&mut out[5 * i..5 * i + 5]);
    }
}
