// A page whose child is trimmed, and the place in it that names the child.
#![tactic(auto)]

ghost use Rattle.std.specs.Prelude.{◌≡◌, ◌<◌};
ghost use Rattle.tree.specs.Putting.{LaidByTest};

use page::Page;
use rules::PageNo;

// Page `at`, as it was read, and one of its used places.
#[derive(Clone, Copy, Debug, PartialEq, Eq)]
pub(crate) struct Parent {
    pub(crate) at: PageNo,
    pub(crate) page: Page,
    pub(crate) place: usize,
    ghost laid: { LaidByTest page },
    ghost inside: { place < page.count },
}

impl Parent {
    ghost use Rattle.trim.specs.Trimming.{child_at};

    // The child page.
    pub(crate) fn child(&self) -> PageNo
        ensures { result ≡ child_at self.now }
    {
        PageNo(page::place_at(self.page, self.place).key)
    }
}
