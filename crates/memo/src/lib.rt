// The memo's part of the store, a slice of three words for each slot: which stamp of a train is the latest, and how many old
// entries of it may be held.
#![tactic(auto)]

ghost use Rattle.std.specs.Prelude.{◌<◌, length, ◌≡◌};
ghost use Rattle.rules.specs.declared.LookUp.TheVariants.{Absent};
ghost use Rattle.rules.specs.laws.All.{All};
ghost use Rattle.rules.specs.Lists.{without};
ghost use Rattle.rules.specs.Memo.{look_up, lowered, noted, slot_inserted};
ghost use Rattle.rules.specs.Store.{limit, memo_words};
ghost use Rattle.memo.specs.Slots.{Inspected, MemoWords, Whole, room, slot_at, slots_in, with_slot};

use rules::part::Part;
use rules::{LookUp, Slot, Stamp, Train};
pub use view::Memo;

pub mod view;

// The slot at a place, used or not, of words that need be no memo's yet; past the end there are unused ones.
#[tactic(auto, using(crate::proofs::Words::slot_read, crate::proofs::Words::slot_past))]
pub fn slot_at(memo: &[u32], i: usize) -> Slot
    requires { Whole memo.now }
    ensures { result ≡ slot_at memo.now i }
{
    match memo.as_chunks::<3>().0.get(i) {
        Some(slot) => Slot::read(slot),
        None => Slot::default(),
    }
}

// ---- writing
// These stay functions: a struct that borrows the words to change them would need a clause for each of its fields at every method, in
// place of one `requires`.

// Writes the three words of one slot.
#[tactic(auto, using(crate::proofs::Words::slot_written))]
fn put_slot(memo: &mut [u32], i: usize, s: Slot)
    requires { Whole memo.old × (i < room memo.old) }
    ensures { memo.new ≡ with_slot memo.old i s }
{
    s.write(&mut memo[3 * i..3 * i + 3]);
}

// Puts a new train's slot in at its place: those from there on move up by one, and the last, an unused one, goes.
#[tactic(auto, using(crate::specs::Laws::range_kept))]
fn insert(memo: &mut [u32], new: Slot)
    requires memo_words { MemoWords memo.old }
    requires absent_with_room { (look_up new.train (slots_in memo.old) ≡ Absent) × (length (slots_in memo.old) < room memo.old) }
    ensures { memo.new ≡ memo_words (room memo.old) (slot_inserted new (slots_in memo.old)) }
{
    let at = Memo { words: memo }.place_for(new.train);
    memo.copy_within(3 * at..memo.len() - 3, 3 * at + 3);
    put_slot(memo, at, new);
}

// Takes the slot at a place away: those behind it move down by one, and an unused one comes last.
fn remove(memo: &mut [u32], at: usize)
    requires { MemoWords memo.old × (at < length (slots_in memo.old)) }
    ensures { memo.new ≡ memo_words (room memo.old) (without (slots_in memo.old) at) }
{
    memo.copy_within(3 * at + 3.., 3 * at);
    put_slot(memo, memo.len() / 3 - 1, Slot::default());
}

// Notes that this stamp of the train is the latest, which makes one more entry of it an old one.
#[tactic(auto, using(crate::specs::Laws::range_kept, crate::proofs::Answers::so_absent, crate::proofs::Answers::so_room, crate::proofs::Answers::noted_new, crate::proofs::Answers::rise_fits, crate::proofs::Answers::so_inside))]
pub fn note(memo: &mut [u32], t: Train, stamp: Stamp)
    requires memo_words { MemoWords memo.old }
    requires room_if_absent { look_up t (slots_in memo.old) ≡ Absent → length (slots_in memo.old) < room memo.old }
    requires counts_below_limit { All (λ m. m.old < limit) (slots_in memo.old) }
    ensures { memo.new ≡ memo_words (room memo.old) (noted t stamp (slots_in memo.old)) }
{
    let LookUp::Found { place, old, .. } = Memo { words: memo }.look_up(t) else {
        let made = Slot {
            train: t,
            latest: stamp,
            old: 1,
        };
        insert(memo, made);
        return;
    };
    let risen = Slot {
        train: t,
        latest: stamp,
        old: old + 1,
    };
    put_slot(memo, place, risen);
}

// Lowers the train's old count by one, and frees its slot at 0.
#[tactic(auto, using(crate::specs::Laws::range_kept, crate::proofs::Answers::so_used, crate::proofs::Answers::so_inside, crate::proofs::Answers::lowered_none))]
pub fn lower(memo: &mut [u32], t: Train)
    requires { MemoWords memo.old }
    ensures { memo.new ≡ memo_words (room memo.old) (lowered t (slots_in memo.old)) }
{
    let LookUp::Found { place, latest, old } = Memo { words: memo }.look_up(t) else {
        return;
    };
    let is_last = old <= 1;
    if is_last {
        remove(memo, place);
        return;
    }
    let left = Slot {
        train: t,
        latest,
        old: old - 1,
    };
    put_slot(memo, place, left);
}

// Frees each slot whose stamp is below the mark, and says how many: each is taken out, and put back behind those that stay.
pub fn inspect(memo: &mut [u32], mark: Stamp) -> usize
    requires { MemoWords memo.old }
    ensures { Inspected memo.old mark result memo.new }
{
    let slots = memo.len() / 3;
    let mut kept = 0;
    for i in 0..slots {
        let s = slot_at(memo, i);
        if s.train == Train(0) {
            return i - kept;
        }
        put_slot(memo, i, Slot::default());
        let stays = mark <= s.latest;
        if stays {
            put_slot(memo, kept, s);
            kept += 1;
        }
    }
    slots - kept
}
