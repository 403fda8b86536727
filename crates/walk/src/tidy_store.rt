// The words of a tidy store, lent to be read: that they are tidy is a fact that the view keeps, so none of its methods asks for it.
#![tactic(auto)]

ghost use Rattle.std.specs.Prelude.{◌≡◌, length, true};
ghost use Rattle.rules.specs.Calls.{laid_out, sizes_read};
ghost use Rattle.rules.specs.Lists.{every};
ghost use Rattle.rules.specs.Sound.{filled};
ghost use Rattle.rules.specs.Store as rules;
ghost use Rattle.page.specs.Struct.{laid_page};
ghost use Rattle.tidy.specs.Tidy as tidy_spec;
ghost use Rattle.walk.specs.Walk as spec;

use crate::visit;
use page::Page;
use rules::kind::Kind;
use rules::{Entry, PageNo};

// Its fields are the tests of what TidyWords says.
#[derive(Clone, Copy, Debug, PartialEq, Eq)]
pub(crate) struct Tidy<'a> {
    pub(crate) words: &'a [u32],
    ghost sizes: { sizes_read words.now ≡ true },
    ghost laid: { laid_out words.now ≡ true },
    ghost tidy: { tidy_spec.tidy words.now ≡ true },
}

impl<'a> Tidy<'a> {
    // A tidy page as it stands in the store. query and tree have a function of the same one line, each for what it knows of the store.
    #[tactic(auto, using(crate::proofs::Pages::page_as_laid, crate::proofs::Kept::its_words, crate::proofs::Kept::header_there))]
    fn page_there(&self, at: PageNo) -> Page
        ensures { result ≡ laid_page (rules.page_at (rules.store_of self.now.words.now).pages at) }
    {
        page::page_at(self.words, header::pages(self.words), at)
    }

    // The pages under page `at`, inner down to the leaves at level 1, none of them flagged before. A flagged page ends the walk, so
    // that it is short on a damaged store too.
    pub(crate) fn walk(&self, at: PageNo, level: u32, flags: &mut [bool]) -> bool
        requires { spec.ToWalk self.now.words.now level at flags.old }
        ensures { spec.Walked (rules.store_of self.now.words.now).pages level at flags.old result flags.new }
    {
        if !visit(flags, at) {
            return false;
        }
        let g = self.page_there(at);
        if level == 1 {
            return g.kind == Kind::Leaf as u32;
        }
        if g.kind != Kind::Inner as u32 {
            return false;
        }
        for place in g.used() {
            if !self.walk(PageNo(place.key), level - 1, flags) {
                return false;
            }
        }
        true
    }

    // ---- every page, once the walk is done

    // The place's box is the smallest that covers its child's places.
    #[tactic(auto, using(crate::proofs::Pages::covered_so, crate::proofs::Kept::its_words, std::proofs::lemmas::Bool::Decides::nat_tests), unfolding(rules::specs::Sound::same_box, rules::specs::Store::box_words, rules::specs::Lists::same_words))]
    fn covers_child(&self, e: Entry) -> bool
        ensures { result ≡ spec.covered (rules.store_of self.now.words.now).pages e }
    {
        e.bounds == page::cover_page(self.page_there(PageNo(e.key)))
    }

    // Each used place covers its child.
    fn covers(&self, at: PageNo) -> bool
        ensures { result ≡ every (spec.covered (rules.store_of self.now.words.now).pages) (rules.page_at (rules.store_of self.now.words.now).pages at).places }
    {
        self.page_there(at)
            .used()
            .iter()
            .all(|&place| self.covers_child(place))
    }

    // Rule 2: the root may have fewer places than the others.
    #[tactic(auto, using(crate::proofs::Pages::filled_so, crate::proofs::Kept::its_words, crate::proofs::Kept::header_there, std::proofs::lemmas::Bool::Decides::nat_tests), unfolding(page::specs::Struct::laid_page))]
    fn is_filled(&self, at: PageNo) -> bool
        ensures { result ≡ filled (rules.store_of self.now.words.now) at }
    {
        let g = self.page_there(at);
        4 <= g.count
            || (at == header::root(self.words) && (g.kind == Kind::Leaf as u32 || 2 <= g.count))
    }

    #[tactic(auto, using(std::proofs::lemmas::Bool::Decides::nat_tests), unfolding(page::specs::Struct::laid_page, crate::specs::Walk::page_holds, rules::specs::Lists::all_of))]
    fn page_holds(&self, reached: bool, at: PageNo) -> bool
        ensures { result ≡ spec.page_holds (rules.store_of self.now.words.now) reached at }
    {
        let g = self.page_there(at);
        if g.kind == Kind::Free as u32 {
            return !reached;
        }
        reached && self.is_filled(at) && (g.kind != Kind::Inner as u32 || self.covers(at))
    }

    #[tactic(auto, using(crate::proofs::Pages::hold_first, crate::proofs::Pages::hold_more, crate::proofs::Pages::hold_none, crate::proofs::Kept::its_words, crate::proofs::Kept::header_there, tidy::specs::Laws::pages_many, std::proofs::lemmas::Bool::Decides::nat_tests))]
    pub(crate) fn pages_hold(&self, flags: &[bool]) -> bool
        requires { length flags.now ≡ 192 }
        ensures { result ≡ spec.pages_hold (rules.store_of self.now.words.now) flags.now }
    {
        for i in 0..header::pages(self.words) {
            if !self.page_holds(flags[i], PageNo(i as u32)) {
                return false;
            }
        }
        true
    }
}
