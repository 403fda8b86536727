// The judge's look at held entries, memo and marks: rules 4 to 7 of a store whose tree is sound.
#![tactic(auto)]

ghost use Rattle.std.specs.Prelude.{◌≡◌, ◌+◌, ◌≤◌, ◌<◌, length, take};
ghost use Rattle.rules.specs.Lists.{every, distinct};
ghost use Rattle.rules.specs.Store.{store_of};
ghost use Rattle.theorems.specs.Leaves.{marked, with_mark};
ghost use Rattle.memo.specs.Slots.{slots_in};
ghost use Rattle.page.specs.Struct.{contents};
ghost use Rattle.entries.specs.Given.{Trusted};
ghost use Rattle.entries.specs.Apart.{apart, Flagged, Says};
ghost use Rattle.entries.specs.Passes as spec;
ghost use Rattle.entries.specs.State as state;
ghost use Rattle.entries.specs.Apart as spec_apart;

use arrayvec::ArrayVec;
use memo::view::Memo;
use page::Page;
use rules::kind::Kind;
use rules::{Entry, LookUp, PageNo, Slot, Stamp, Train};

// How many entries the largest store may hold.
const MOST: usize = 576;

// How many counters there are, one for each slot that a memo can have.
const COUNTERS: usize = 1024;

// What is noted of the entries passed so far: the stamp and the key of each, and for each slot how many obsolete ones there are.
#[derive(Debug, Drop, PartialEq, Eq)]
struct Noted {
    stamps: ArrayVec<u64, MOST>,
    keys: ArrayVec<u64, MOST>,
    counts: [u32; COUNTERS],
}

// ---- marks

// A leaf's mark is 1 to the next stamp, an inner page's is 0.
#[tactic(auto, using(std::proofs::lemmas::Bool::Decides::nat_tests), unfolding(crate::specs::Passes::mark_fine, page::specs::Struct::contents, rules::specs::Lists::all_of))]
fn mark_fine(g: Page, next: Stamp) -> bool
    ensures { result ≡ spec.mark_fine next (contents g) }
{
    match Kind::try_from(g.kind) {
        Ok(Kind::Leaf) => 1 <= g.mark.0 && g.mark <= next,
        Ok(Kind::Inner) => g.mark.0 == 0,
        _ => true,
    }
}

// Every page's mark is as rule 7 says.
#[tactic(auto, using(crate::proofs::Pages::mark_broken, crate::proofs::Pages::mark_passed, crate::proofs::Pages::marks_passed))]
fn marks_fine(store: &[u32], p: usize, next: Stamp) -> bool
    requires { state.Known store.now p next }
    ensures { result ≡ every (spec.mark_fine next) (store_of store.now).pages }
{
    for i in 0..p {
        if !mark_fine(page::page_at(store, p, PageNo(i as u32)), next) {
            return false;
        }
    }
    true
}

// ---- one entry

// A proper box, a train, and a stamp that has been given out.
#[tactic(auto, using(std::proofs::lemmas::Bool::Decides::nat_tests), unfolding(crate::specs::Passes::held_fine, rules::specs::Lists::all_of))]
fn held_fine(next: Stamp, e: Entry) -> bool
    ensures { result ≡ spec.held_fine next e }
{
    boxes::proper_box(e.bounds) && 1 <= e.key && 1 <= e.stamp.0 && e.stamp < next
}

// The stamp is not above the slot's, and for an obsolete entry its leaf's mark is not either.
#[tactic(auto, using(std::proofs::lemmas::Bool::Decides::nat_tests), unfolding(crate::specs::Passes::noted_fine, rules::specs::Sound::not_above, rules::specs::Memo::latest_by))]
fn noted_fine(l: LookUp, stamp: Stamp, mark: Stamp) -> bool
    ensures { result ≡ spec.noted_fine l stamp mark }
{
    match l {
        LookUp::Absent => true,
        LookUp::Found { latest, .. } => stamp <= latest && (stamp == latest || mark <= latest),
    }
}

// The counter of an obsolete entry is at its slot's place; a latest one has none.
#[tactic(auto, using(std::proofs::lemmas::Bool::Decides::nat_tests), unfolding(crate::specs::Passes::old_place))]
fn old_place(l: LookUp, stamp: Stamp) -> Option<usize>
    ensures { result ≡ spec.old_place l stamp }
{
    match l {
        LookUp::Found { place, latest, .. } if stamp != latest => Some(place),
        _ => None,
    }
}

// Even by the train of a latest entry, odd by the stamp of an obsolete one, so that only two latest ones can share a key.
#[tactic(auto, unfolding(crate::specs::Passes::key_by))]
fn key_by(at: Option<usize>, e: Entry) -> u64
    ensures { result ≡ spec.key_by at e }
{
    match at {
        Some(_) => 2 * u64::from(e.stamp.0) + 1,
        None => 2 * u64::from(e.key),
    }
}

// One more at a counter, where there is one.
fn count_one(counts: &mut [u32], at: Option<usize>)
    requires { state.Counts counts.old at }
    ensures { counts.new ≡ state.one_up counts.old at }
{
    if let Some(i) = at {
        counts[i] += 1;
    }
}

// The entry's stamp and key behind those so far, and its counter one up; whether the entry is sound.
#[tactic(auto, using(crate::proofs::Gather::counter_there), unfolding(crate::specs::Passes::entry_fine, crate::specs::Passes::key_of, crate::specs::Passes::counter_of))]
fn note_entry(memo: Memo, next: Stamp, mark: Stamp, e: Entry, noted: &mut Noted) -> bool
    requires slots_few { length (slots_in memo.words.now) ≤ spec.counters }
    requires room { state.Room noted.old }
    ensures { state.OneMore next (slots_in memo.entry.words.now) (with_mark mark e) noted.old result noted.new }
{
    let l = memo.look_up(Train(e.key));
    let at = old_place(l, e.stamp);
    noted.stamps.push(u64::from(e.stamp.0));
    noted.keys.push(key_by(at, e));
    count_one(&mut noted.counts, at);
    held_fine(next, e) && noted_fine(l, e.stamp, mark)
}

// The entries of page i, each noted in turn up to one that is not sound; a page that is no leaf holds none.
#[tactic(auto, using(crate::proofs::Whole::trusted_long, crate::proofs::Whole::pages_inside))]
fn note_page(store: &[u32], memo: Memo, i: usize, noted: &mut Noted) -> bool
    requires passing { state.Passing store.now memo.words.now × (i < length (store_of store.now).pages) }
    requires before { state.Before store.now i noted.old }
    ensures { state.Tried (store_of store.now) (marked (take (i + 1) (store_of store.now).pages)) result noted.new }
{
    let g = page::page_at(store, header::pages(store), PageNo(i as u32));
    if g.kind != Kind::Leaf as u32 {
        return true;
    }
    let next = header::next_stamp(store);
    for &e in g.used() {
        if !note_entry(memo, next, g.mark, e, noted) {
            return false;
        }
    }
    true
}

// The entries of all pages, up to one that is not sound.
#[tactic(auto, using(crate::proofs::Whole::trusted_long, crate::proofs::Pages::pages_read))]
fn note_pages(store: &[u32], memo: Memo, noted: &mut Noted) -> bool
    requires passing { state.Passing store.now memo.words.now }
    requires fresh { state.Fresh noted.old }
    ensures { state.Tried (store_of store.now) (marked (store_of store.now).pages) result noted.new }
{
    for i in 0..header::pages(store) {
        if !note_page(store, memo, i, noted) {
            return false;
        }
    }
    true
}

// ---- keys

// The flag of a key, one of 16,384: a product's middle bits, so that neither neighbours nor multiples often share one.
#[tactic(auto, unfolding(crate::specs::Apart::flag_of))]
fn flag_of(key: u64) -> usize
    ensures { (result ≡ spec_apart.flag_of key) × (result < 16384) }
{
    (key % 4294967296 * 3266489917 / 262144 % 16384) as usize
}

// Whether the key differs from the later ones, whose flags are set: most often the key's own is not, and no key need be looked at.
fn is_new(flags: &[bool], later: &[u64], key: u64) -> bool
    requires flags_len { length flags.now ≡ 16384 }
    requires flagged { Flagged flags.now later.now }
    ensures { result ≡ apart key later.now }
{
    let unset = !flags[flag_of(key)];
    unset || !later.contains(&key)
}

// What flags tell of keys: that all differ, that two are equal, or nothing, where too many share a flag for the rest to pay.
#[derive(Clone, Copy, Debug, PartialEq, Eq)]
enum Told {
    Apart,
    Equal,
    Crowded,
}

// From the last key to the first each is tried against those behind it, and its flag set. Flags that were set before only cost time.
#[tactic(auto, using(crate::proofs::Apart::all_apart, crate::proofs::Apart::says_nothing))]
fn all_new(keys: &[u64], flags: &mut [bool]) -> Told
    requires { length flags.old ≡ 16384 }
    ensures { Says result (distinct keys.now) }
{
    let mut shared = 0;
    for i in (0..keys.len()).rev() {
        let key = keys[i];
        let at = flag_of(key);
        shared += usize::from(flags[at]);
        if 64 < shared {
            return Told::Crowded;
        }
        if !is_new(flags, &keys[i + 1..], key) {
            return Told::Equal;
        }
        flags[at] = true;
    }
    Told::Apart
}

// Whether the keys are distinct, found by sorting them.
fn sorted_distinct(keys: &mut [u64]) -> bool
    ensures { result ≡ distinct keys.old }
{
    keys.sort_unstable();
    keys.is_sorted_by(|a, b| a < b)
}

// The same, found by flags where they tell: few of some hundred keys share one, and keys made to share many are sorted.
#[tactic(auto, using(crate::proofs::Apart::so_apart, crate::proofs::Apart::so_equal))]
fn are_distinct(keys: &mut [u64]) -> bool
    ensures { result ≡ distinct keys.old }
{
    let mut flags = [false; 16384];
    match all_new(keys, &mut flags) {
        Told::Apart => true,
        Told::Equal => false,
        Told::Crowded => sorted_distinct(keys),
    }
}

// ---- the memo

// Of the slot's train n obsolete entries are held.
#[tactic(auto, using(std::proofs::lemmas::Bool::Decides::nat_tests), unfolding(crate::specs::Passes::slot_fine, rules::specs::Lists::all_of))]
fn slot_fine(s: Slot, n: u32, next: Stamp) -> bool
    ensures { result ≡ spec.slot_fine next n s }
{
    1 <= s.latest.0 && s.latest < next && 1 <= s.old && s.old <= s.latest.0 && n <= s.old
}

// Every used slot with its counter.
#[tactic(auto, using(memo::specs::Kept::its_words, crate::proofs::Slots::slots_past, crate::proofs::Slots::slots_unused, crate::proofs::Slots::slot_broken, crate::proofs::Slots::slot_passed))]
fn slots_fine(memo: Memo, counts: &[u32], next: Stamp) -> bool
    requires memo_in_bounds { length (slots_in memo.words.now) ≤ length counts.now }
    ensures { result ≡ spec.slots_fine next counts.now (slots_in memo.entry.words.now) }
{
    for (i, &n) in counts.iter().enumerate() {
        let s = memo.slot_at(i);
        if s.train == Train(0) {
            return true;
        }
        if !slot_fine(s, n, next) {
            return false;
        }
    }
    true
}

// ---- all together

// Each entry and each slot is sound, and neither two stamps nor two keys are equal.
#[tactic(auto, using(crate::proofs::Whole::trusted_long))]
fn noted_sound(store: &[u32], memo: Memo) -> bool
    requires { state.Passing store.now memo.words.now }
    ensures { result ≡ spec.noted_test (store_of store.now) }
{
    let mut noted = Noted {
        stamps: ArrayVec::new(),
        keys: ArrayVec::new(),
        counts: [0; COUNTERS],
    };
    note_pages(store, memo, &mut noted)
        && are_distinct(noted.stamps.as_mut_slice())
        && are_distinct(noted.keys.as_mut_slice())
        && slots_fine(memo, &noted.counts, header::next_stamp(store))
}

// Whether held entries are in range and rules 4 to 7 hold; they are counted before any is written to a buffer.
#[tactic(auto, using(crate::proofs::Whole::trusted_long, crate::proofs::Whole::memo_held, crate::proofs::Whole::pages_few, crate::proofs::Whole::pages_inside, crate::proofs::Whole::so_known))]
pub fn entries_sound(store: &[u32]) -> bool
    requires { Trusted store.now }
    ensures { result ≡ spec.entries_rules (store_of store.now) }
{
    let p = header::pages(store);
    let next = header::next_stamp(store);
    marks_fine(store, p, next)
        && page::held_entries(store, p) <= 3 * p
        && noted_sound(store, Memo::of(store))
}
