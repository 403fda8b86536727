// Whether the pages are a tree as rules 1 to 3 want it, by a walk from the root with one flag a page.
#![tactic(auto)]

ghost use Rattle.std.specs.Prelude.{◌≡◌, true, false, not, ◌<◌, length, get_or, set};
ghost use Rattle.rules.specs.Store as rules;
ghost use Rattle.tidy.specs.Tidy.{TidyWords};
ghost use Rattle.walk.specs.Walk as spec;

use rules::PageNo;
use tidy_store::Tidy;

mod tidy_store;

// Flags the page, and says whether it was not flagged before.
fn visit(flags: &mut [bool], at: PageNo) -> bool
    requires { at.0 < length flags.old }
    ensures value { result ≡ not (get_or flags.old at.0 false) }
    ensures flags_after { flags.new ≡ set flags.old at.0 true }
{
    !std::mem::replace(&mut flags[at.0 as usize], true)
}

// Rules 1 to 3: the walk from the root visits no page twice, and then every page is looked at once.
#[tactic(auto, using(crate::proofs::Kept::sizes_shown, crate::proofs::Kept::tidy_shown, crate::proofs::Pages::root_to_walk, crate::proofs::Pages::tree_not))]
pub fn is_tree(store: &[u32]) -> bool
    requires { TidyWords store.now }
    ensures { result ≡ spec.tree_rules (rules.store_of store.now) }
{
    let tidy = Tidy { words: store };
    let mut flags = [false; 192];
    tidy.walk(header::root(store), header::levels(store), &mut flags) && tidy.pages_hold(&flags)
}
