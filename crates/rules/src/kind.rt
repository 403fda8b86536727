ghost use Rattle.rules.specs.Kinds.{IsKind};

// What a page is. A leaf's places hold entries, an inner page's its child pages.
#[derive(Clone, Copy, Debug, PartialEq, Eq)]
pub enum Kind {
    Free = 0,
    Leaf = 1,
    Inner = 2,
}

// A word that names no kind of page.
#[derive(Clone, Copy, Debug, PartialEq, Eq)]
pub struct UnknownKind(pub u32);

impl TryFrom<u32> for Kind {
    type Error = UnknownKind;

    ghost try_from_gives = { IsKind };

    fn try_from(word: u32) -> Result<Kind, UnknownKind> {
        match word {
            0 => Ok(Kind::Free),
            1 => Ok(Kind::Leaf),
            2 => Ok(Kind::Inner),
            _ => Err(UnknownKind(word)),
        }
    }
}
