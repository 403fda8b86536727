// A page as its 52 words.
ghost use Rattle.page.specs.Struct.{struct_of, struct_words};

use crate::Page;
use rules::part::Part;
use rules::{Entry, Stamp};
use std::array;

impl Part for Page {
    ghost WORDS = { 52 };

    ghost of_words = { struct_of };

    ghost as_words = { struct_words };

    #[tactic(auto, unfolding(crate::specs::Struct::struct_of))]
    fn read(words: &[u32]) -> Page {
        Page {
            kind: words[0],
            count: words[1],
            mark: Stamp(words[2]),
            places: array::from_fn(|i| Entry::read(&words[4 + 6 * i..10 + 6 * i])),
        }
    }

    #[tactic(auto, using(crate::proofs::Words::place_written, crate::specs::Laws::length_mapped), unfolding(crate::specs::Struct::struct_words))]
    fn write(self, words: &mut [u32]) {
        words[..4].copy_from_slice(&[self.kind, self.count, self.mark.0, 0]);
        for (i, &place) in self.places.iter().enumerate() {
            place.write(&mut words[4 + 6 * i..10 + 6 * i]);
        }
    }
}
