// The judge of a lent store: its sizes, how it is laid out, and whether it is sound. Any words may be lent.
#![tactic(auto, using(std::proofs::lemmas::Bool::Decides::nat_tests), unfolding(rules::specs::Lists::all_of, rules::specs::Sound::sizes_in_range, rules::specs::Numbers::first_met, rules::specs::Calls::sizes_read, rules::specs::Calls::laid_out, rules::specs::Calls::store_tests))]

ghost use Rattle.std.specs.Prelude.{◌≡◌, true, [], ◌∷◌, ◌≤◌, eqb, length, take, drop, get_or};
ghost use Rattle.rules.specs.Lists.{all_of, every};
ghost use Rattle.rules.specs.Store.{memo_start, boards_start};
ghost use Rattle.rules.specs.Sound.{sizes_in_range, sound_words};
ghost use Rattle.rules.specs.Numbers.{first_met};
ghost use Rattle.rules.specs.Refused.{answer_number};
ghost use Rattle.rules.specs.Calls as calls;

use rules::refusal::Refusal;

// P is 1 to 192, K 1 to 1,024 and B at most 32.
pub fn sizes_fit(p: u32, k: u32, b: u32) -> bool
    ensures { result ≡ sizes_in_range p k b }
{
    (1..=192).contains(&p) && (1..=1024).contains(&k) && b <= 32
}

fn sizes_read(store: &[u32]) -> bool
    requires { 16 ≤ length store.now }
    ensures { result ≡ calls.sizes_read store.now }
{
    sizes_fit(store[5], store[7], store[9])
}

// Words 0, 4, 6 and 8: the form, and where the parts start.
fn starts_right(store: &[u32], p: usize, k: usize) -> bool
    requires in_bounds { 16 ≤ length store.now }
    requires sizes_bound { (p ≤ 192) × (k ≤ 1024) }
    ensures { result ≡ all_of (eqb (get_or store.now 0 0) 1 ∷ eqb (get_or store.now 4 0) 16 ∷ eqb (get_or store.now 6 0) (memo_start p) ∷ eqb (get_or store.now 8 0) (boards_start p k) ∷ []) }
{
    store[0] == 1
        && store[4] == 16
        && store[6] as usize == header::memo_start(p)
        && store[8] as usize == header::boards_start(p, k)
}

// Words 10 to 15.
fn rest_zero(store: &[u32]) -> bool
    requires { 16 ≤ length store.now }
    ensures { result ≡ every (λ n. eqb n 0) (take 6 (drop 10 store.now)) }
{
    store[10..16].iter().all(|&word| word == 0)
}

// The right length, and words 0, 4, 6, 8 and 10 to 15.
fn laid_out(store: &[u32]) -> bool
    requires in_bounds { 16 ≤ length store.now }
    requires sizes_read { calls.sizes_read store.now ≡ true }
    ensures { result ≡ calls.laid_out store.now }
{
    let p = header::pages(store);
    let k = header::slots(store);
    store.len() == header::store_length(p, k, header::boards(store))
        && starts_right(store, p, k)
        && rest_zero(store)
}

// Whether the store is sound: each part of the test relies on those before it.
#[tactic(auto, using(crate::specs::Combined::sound_parts))]
fn is_sound(store: &[u32]) -> bool
    requires sizes_read { calls.sizes_read store.now ≡ true }
    requires laid_out { calls.laid_out store.now ≡ true }
    ensures { result ≡ sound_words store.now }
{
    tidy::is_tidy(store)
        && walk::is_tree(store)
        && entries::entries_sound(store)
        && watch::boards_sound(store)
}

// The first refusal of the table that a lent store meets; under 16 words its sizes can't be read, and it is not laid out.
pub fn judge(store: &[u32]) -> Result<(), Refusal>
    ensures { answer_number result ≡ first_met (calls.store_tests store.now) }
{
    if store.len() < 16 {
        return Err(Refusal::NotLaidOut);
    }
    if !sizes_read(store) {
        return Err(Refusal::SizesOutOfRange);
    }
    if !laid_out(store) {
        return Err(Refusal::NotLaidOut);
    }
    if !is_sound(store) {
        return Err(Refusal::NotSound);
    }
    Ok(())
}
