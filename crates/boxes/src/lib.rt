// Boxes and windows: the tests and measures of rules/specs/Boxes.antt, for any numbers.
#![tactic(auto, using(std::proofs::lemmas::Bool::Decides::nat_tests), unfolding(rules::specs::Boxes::proper_box, rules::specs::Boxes::proper_window, rules::specs::Boxes::meets, rules::specs::Boxes::cover, rules::specs::Boxes::area, rules::specs::Boxes::growth, rules::specs::Lists::all_of))]

ghost use Rattle.std.specs.Prelude.{◌≡◌, ◌-◌};
ghost use Rattle.rules.specs.Boxes as spec;

use rules::{Box, Window};

// The last metre of the grid.
const EDGE: u32 = 1048575;

pub fn proper_box(b: Box) -> bool
    ensures { result ≡ spec.proper_box b }
{
    b.x0 <= b.x1 && b.y0 <= b.y1 && b.x1 <= EDGE && b.y1 <= EDGE
}

// The same rule as a box's, said of its own type: the two may part later.
pub fn proper_window(w: Window) -> bool
    ensures { result ≡ spec.proper_window w }
{
    w.x0 <= w.x1 && w.y0 <= w.y1 && w.x1 <= EDGE && w.y1 <= EDGE
}

// They share at least one point, edges and corners included.
pub fn meets(b: Box, w: Window) -> bool
    ensures { result ≡ spec.meets b w }
{
    b.x0 <= w.x1 && w.x0 <= b.x1 && b.y0 <= w.y1 && w.y0 <= b.y1
}

// The smallest box that covers both.
pub fn cover(a: Box, b: Box) -> Box
    ensures { result ≡ spec.cover a b }
{
    Box {
        x0: a.x0.min(b.x0),
        y0: a.y0.min(b.y0),
        x1: a.x1.max(b.x1),
        y1: a.y1.max(b.y1),
    }
}

// Width times height; two numbers of 32 bits multiply within 64.
pub fn area(b: Box) -> u64
    ensures { result ≡ spec.area b }
{
    u64::from(b.x1.saturating_sub(b.x0)) * u64::from(b.y1.saturating_sub(b.y0))
}

// By how much the area of `old` grows when it is to cover `new` too.
pub fn growth(new: Box, old: Box) -> u64
    ensures { result ≡ spec.growth new old }
{
    area(cover(old, new)).saturating_sub(area(old))
}
