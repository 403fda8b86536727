// The types that all crates share. What they mean is defined in specs/.
#![tactic(auto)]

pub mod kind;
pub mod part;
pub mod refusal;

// A train's number; 0 means no train.
#[derive(Clone, Copy, Debug, Default, PartialEq, Eq, PartialOrd, Ord)]
pub struct Train(pub u32);

// What each report and each withdrawal takes one of, in turn.
#[derive(Clone, Copy, Debug, Default, PartialEq, Eq, PartialOrd, Ord)]
pub struct Stamp(pub u32);

// A page's number among the store's pages.
#[derive(Clone, Copy, Debug, PartialEq, Eq)]
pub struct PageNo(pub u32);

// Where a train is, in whole metres of the map grid.
#[derive(Clone, Copy, Debug, Default, PartialEq, Eq)]
pub struct Box {
    pub x0: u32,
    pub y0: u32,
    pub x1: u32,
    pub y1: u32,
}

// What a query asks about and a board watches. A type of its own beside Box: the two have one rule today and may part later.
#[derive(Clone, Copy, Debug, PartialEq, Eq)]
pub struct Window {
    pub x0: u32,
    pub y0: u32,
    pub x1: u32,
    pub y1: u32,
}

// A place of a page: in a leaf a box with its train and stamp, in an inner page a box with its child page and zero.
#[derive(Clone, Copy, Debug, Default, PartialEq, Eq)]
pub struct Entry {
    pub bounds: Box,
    pub key: u32,
    pub stamp: Stamp,
}

// What the memo notes of a train: its latest stamp, and how many old entries of it may be held.
#[derive(Clone, Copy, Debug, Default, PartialEq, Eq)]
pub struct Slot {
    pub train: Train,
    pub latest: Stamp,
    pub old: u32,
}

// A line of a query's answer or of a board.
#[derive(Clone, Copy, Debug, Default, PartialEq, Eq)]
pub struct Row {
    pub train: Train,
    pub bounds: Box,
}

// What a memo look-up answers.
#[derive(Clone, Copy, Debug, PartialEq, Eq)]
pub enum LookUp {
    Absent,
    Found {
        place: usize,
        latest: Stamp,
        old: u32,
    },
}

// A step: its kind, a train or a board, and a box or a window; words that its kind does not name are 0.
#[derive(Clone, Copy, Debug, PartialEq, Eq)]
pub struct Step {
    pub kind: u32,
    pub a: u32,
    pub x0: u32,
    pub y0: u32,
    pub x1: u32,
    pub y1: u32,
}
