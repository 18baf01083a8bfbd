// Pages and spreads are counted apart: each count has a type of its own, so that no page number can stand for a spread's.
ghost use Rattle.std.specs.Prelude.{◌≡◌, ◌+◌, ◌≤◌};
ghost use Rattle.model.specs.Leaf.{leaf, ends, sides_of};

// A page, counted from the galley's own first page, which is 1, whatever its folio.
#[derive(Clone, Copy, PartialEq, Eq, PartialOrd, Ord, Debug)]
pub struct Page(pub u32);

// What lies open at a time: a spread in double-sided work, where `sides` is 2; in single-sided work each page by itself.
#[derive(Clone, Copy, PartialEq, Eq, PartialOrd, Ord, Debug)]
pub struct Spread(pub u32);

// The spread of a page, by its folio: `folio` is that of the first page.
#[tactic(auto, unfolding(crate::specs::Leaf::leaf, crate::specs::Leaf::sides_of))]
pub fn spread_of(sides: u32, folio: u32, page: Page) -> Spread
    requires { (1 ≤ folio) × (folio + page.0 ≤ 4294967295) }
    ensures { result.0 ≡ leaf (sides_of sides folio) page.0 }
{
    if sides == 2 {
        Spread((folio - 1 + page.0) / 2 + 1)
    } else {
        Spread(page.0)
    }
}

// Whether a page on this side of the sheet ends its spread: side 1 has the pages of odd number, which are right-hand pages where
// the first folio is odd; where it is even, those of even number are. A side is no page, so it is a plain number and no `Page`.
#[tactic(auto, using(crate::proofs::laws::Leaf::ends_folio), unfolding(crate::specs::Leaf::ends, crate::specs::Leaf::sides_of))]
pub fn side_ends(sides: u32, folio: u32, side: usize) -> bool
    requires { 1 ≤ folio }
    ensures { result ≡ ends (sides_of sides folio) side }
{
    if sides == 2 {
        side % 2 == (folio % 2) as usize
    } else {
        true
    }
}

#[tactic(auto, using(crate::proofs::laws::Leaf::ends_parity))]
pub fn ends_spread(sides: u32, folio: u32, page: Page) -> bool
    requires { 1 ≤ folio }
    ensures { result ≡ ends (sides_of sides folio) page.0 }
{
    side_ends(sides, folio, (page.0 % 2) as usize)
}
