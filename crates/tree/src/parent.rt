// A page on the way down, and the place in it that names the child page.
#![tactic(auto)]

ghost use Rattle.std.specs.Prelude.{ℕ, ◌≡◌, ◌<◌, Some, length};
ghost use Rattle.rules.specs.Tree.{with_places};
ghost use Rattle.page.specs.Struct.{contents, laid_page};
ghost use Rattle.tree.specs.Putting.{LaidByTest, child_in, with_entry};

use page::Page;
use rules::{Entry, PageNo};

// Page `at`, as it was read, and one of its places; a page with no places has none.
#[derive(Clone, Copy, Debug, PartialEq, Eq)]
pub(crate) struct Parent {
    pub(crate) at: PageNo,
    pub(crate) page: Page,
    pub(crate) place: Option<usize>,
    ghost laid: { LaidByTest page },
    ghost inside: { (i : ℕ) → place ≡ Some i → i < length (contents page).places },
}

impl Parent {
    // The child page; where there is no place page 0, as the rules read it.
    #[tactic(auto, using(crate::proofs::Below::one_child, crate::proofs::Below::none_child))]
    pub(crate) fn child(&self) -> PageNo
        ensures { result ≡ child_in (contents self.now.page).places self.now.place }
    {
        match self.place {
            Some(i) => PageNo(page::place_at(self.page, i).key),
            None => PageNo(0),
        }
    }

    // The page with this entry in that place; where there is none, the page as it is.
    #[tactic(auto, using(crate::proofs::Below::one_set, crate::proofs::Below::none_set))]
    pub(crate) fn with_child(&self, e: Entry) -> Page
        ensures { result ≡ laid_page (with_places (contents self.now.page) (with_entry (contents self.now.page).places self.now.place e)) }
    {
        match self.place {
            Some(i) => page::set_place(self.page, i, e),
            None => self.page,
        }
    }
}
