// What stands in a store, a step or a row slice as a fixed number of words, read and written by one trait.
ghost use Rattle.std.specs.Prelude.{◌≡◌, ◌≤◌, ℕ, List, length};
ghost use Rattle.rules.specs.Store.{box_of, box_words, window_of, window_words, place_of, place_words, slot_of, slot_words, row_of, row_words};
ghost use Rattle.rules.specs.Steps.{step_of, step_words};

use crate::{Box, Entry, Row, Slot, Stamp, Step, Train, Window};

pub trait Part {
    // How many words it takes.
    ghost WORDS: { ℕ };

    // The words as they are read, and the part as it is written.
    ghost of_words: { List ℕ → Self };

    ghost as_words: { Self → List ℕ };

    // Reads the first words of a slice.
    fn read(words: &[u32]) -> Self
        requires { WORDS ≤ length words.now }
        ensures { result ≡ of_words words.now };

    fn write(self, words: &mut [u32])
        requires { length words.old ≡ WORDS }
        ensures { words.new ≡ as_words self };
}

impl Part for Box {
    ghost WORDS = { 4 };

    ghost of_words = { box_of };

    ghost as_words = { box_words };

    #[tactic(auto, unfolding(crate::specs::Store::box_of))]
    fn read(words: &[u32]) -> Box {
        Box {
            x0: words[0],
            y0: words[1],
            x1: words[2],
            y1: words[3],
        }
    }

    #[tactic(auto, unfolding(crate::specs::Store::box_words))]
    fn write(self, words: &mut [u32]) {
        let Box { x0, y0, x1, y1 } = self;
        words.copy_from_slice(&[x0, y0, x1, y1]);
    }
}

impl Part for Window {
    ghost WORDS = { 4 };

    ghost of_words = { window_of };

    ghost as_words = { window_words };

    #[tactic(auto, unfolding(crate::specs::Store::window_of))]
    fn read(words: &[u32]) -> Window {
        Window {
            x0: words[0],
            y0: words[1],
            x1: words[2],
            y1: words[3],
        }
    }

    #[tactic(auto, unfolding(crate::specs::Store::window_words))]
    fn write(self, words: &mut [u32]) {
        let Window { x0, y0, x1, y1 } = self;
        words.copy_from_slice(&[x0, y0, x1, y1]);
    }
}

impl Part for Entry {
    ghost WORDS = { 6 };

    ghost of_words = { place_of };

    ghost as_words = { place_words };

    #[tactic(auto, unfolding(crate::specs::Store::place_of))]
    fn read(words: &[u32]) -> Entry {
        Entry {
            bounds: Box::read(words),
            key: words[4],
            stamp: Stamp(words[5]),
        }
    }

    #[tactic(auto, unfolding(crate::specs::Store::place_words, crate::specs::Store::box_words))]
    fn write(self, words: &mut [u32]) {
        let Box { x0, y0, x1, y1 } = self.bounds;
        words.copy_from_slice(&[x0, y0, x1, y1, self.key, self.stamp.0]);
    }
}

impl Part for Slot {
    ghost WORDS = { 3 };

    ghost of_words = { slot_of };

    ghost as_words = { slot_words };

    #[tactic(auto, unfolding(crate::specs::Store::slot_of))]
    fn read(words: &[u32]) -> Slot {
        Slot {
            train: Train(words[0]),
            latest: Stamp(words[1]),
            old: words[2],
        }
    }

    #[tactic(auto, unfolding(crate::specs::Store::slot_words))]
    fn write(self, words: &mut [u32]) {
        words.copy_from_slice(&[self.train.0, self.latest.0, self.old]);
    }
}

impl Part for Row {
    ghost WORDS = { 5 };

    ghost of_words = { row_of };

    ghost as_words = { row_words };

    #[tactic(auto, unfolding(crate::specs::Store::row_of))]
    fn read(words: &[u32]) -> Row {
        Row {
            train: Train(words[0]),
            bounds: Box::read(&words[1..]),
        }
    }

    #[tactic(auto, unfolding(crate::specs::Store::row_words, crate::specs::Store::box_words))]
    fn write(self, words: &mut [u32]) {
        let Box { x0, y0, x1, y1 } = self.bounds;
        words.copy_from_slice(&[self.train.0, x0, y0, x1, y1]);
    }
}

impl Part for Step {
    ghost WORDS = { 6 };

    ghost of_words = { step_of };

    ghost as_words = { step_words };

    #[tactic(auto, unfolding(crate::specs::Steps::step_of))]
    fn read(words: &[u32]) -> Step {
        Step {
            kind: words[0],
            a: words[1],
            x0: words[2],
            y0: words[3],
            x1: words[4],
            y1: words[5],
        }
    }

    #[tactic(auto, unfolding(crate::specs::Steps::step_words))]
    fn write(self, words: &mut [u32]) {
        words.copy_from_slice(&[self.kind, self.a, self.x0, self.y0, self.x1, self.y1]);
    }
}
