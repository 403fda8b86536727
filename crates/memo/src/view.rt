// The memo's words, lent to be read: what they are is a fact that the view keeps, so none of its methods asks for it.
ghost use Rattle.std.specs.Prelude.{◌≤◌, ◌≡◌, leb, length, true};
ghost use Rattle.rules.specs.Memo.{look_up};
ghost use Rattle.rules.specs.Sound.{memo_in_range};
ghost use Rattle.rules.specs.Store.{memo_words, store_of};
ghost use Rattle.memo.specs.Slots.{HoldsMemo, Whole, room, slot_at, slots_in};
ghost use Rattle.memo.specs.Slots as slots;
ghost use Rattle.rules.specs.Memo as spec_memo;

use rules::{Entry, LookUp, Slot, Train};

// The words are exactly those of a memo that is in range.
#[derive(Clone, Copy, Debug, PartialEq, Eq)]
pub struct Memo<'a> {
    pub words: &'a [u32],
    ghost whole: { Whole words.now },
    ghost written: { memo_words (room words.now) (slots_in words.now) ≡ words.now },
    ghost in_range: { memo_in_range (room words.now) (slots_in words.now) ≡ true },
}

impl<'a> Memo<'a> {
    // The memo's part of a store.
    #[tactic(auto, using(crate::proofs::Lent::header_long, crate::proofs::Lent::pages_few, crate::proofs::Lent::slots_few, crate::proofs::Lent::part_fits, crate::proofs::Lent::part_ordered, crate::proofs::Lent::part_inside, crate::proofs::Lent::part_is_memo, crate::specs::Laws::memo_given, crate::specs::Laws::range_kept))]
    pub fn of(store: &[u32]) -> Memo<'_>
        requires { HoldsMemo store.now }
        ensures { result.words.now ≡ memo_words (store_of store.now).slots (store_of store.now).memo }
    {
        let p = header::pages(store);
        let k = header::slots(store);
        Memo {
            words: &store[header::memo_start(p)..header::boards_start(p, k)],
        }
    }

    // The slot at a place, used or not; past the end there are unused ones.
    pub fn slot_at(&self, i: usize) -> Slot
        ensures { result ≡ slot_at self.now.words.now i }
    {
        crate::slot_at(self.words, i)
    }

    // Where the train's slot is, or would be: an unused slot counts as above every train.
    pub(crate) fn place_for(&self, t: Train) -> usize
        ensures place { result ≡ slots.place_for t (slots_in self.now.words.now) }
        ensures within { result ≤ length (slots_in self.now.words.now) }
    {
        let (slots, _) = self.words.as_chunks::<3>();
        slots.partition_point(|slot| 0 < slot[0] && slot[0] < t.0)
    }

    // Whether the train has a slot, and which.
    pub fn look_up(&self, t: Train) -> LookUp
        ensures { result ≡ look_up t (slots_in self.now.words.now) }
    {
        let place = self.place_for(t);
        let s = self.slot_at(place);
        if s.train == Train(0) || s.train != t {
            return LookUp::Absent;
        }
        LookUp::Found {
            place,
            latest: s.latest,
            old: s.old,
        }
    }

    // Whether no later report or withdrawal of its train makes the entry an old one.
    #[tactic(auto, using(crate::proofs::Answers::absent_latest))]
    pub fn is_latest(&self, e: Entry) -> bool
        ensures { result ≡ spec_memo.is_latest (slots_in self.now.words.now) e }
    {
        let LookUp::Found { latest, .. } = self.look_up(Train(e.key)) else {
            return true;
        };
        e.stamp == latest
    }

    // Whether every slot is used: those that are come first, so the last one tells.
    pub fn is_full(&self) -> bool
        requires { 1 ≤ room self.now.words.now }
        ensures { result ≡ leb (room self.now.words.now) (length (slots_in self.now.words.now)) }
    {
        self.slot_at(self.words.len() / 3 - 1).train != Train(0)
    }
}
