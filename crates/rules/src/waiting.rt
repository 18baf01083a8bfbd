// The floats of a stream that wait at a place: cited by a line that is placed, and not placed themselves.
ghost use Rattle.std.specs.Prelude.{◌≡◌, ◌≤◌};
ghost use Rattle.galley.specs.Model.{floats_of};
ghost use Rattle.rules.specs.Waiting.{waits, waiting_of, Walked, Walking, WalkingOn, waiting_at};

use blocks::Counts;
use galley::{Galley, Stream};
use model::page::Page;

// How many floats wait with i lines and j floats placed: from float j + 1 on, up to the first that a line after i cites. The first
// `known` of them were found for an earlier line, and the walk goes on after them.
pub fn waiting_floats(s: &[u8], floats: Stream, i: usize, j: usize, known: usize) -> usize
    requires { Walked s.now floats i j known }
    ensures { result ≡ waits (floats_of s.now floats) i j }
{
    let left = floats.count - j;
    for found in known..left {
        if i < blocks::field(s, floats, j + found + 1, galley::CITE) as usize {
            return found;
        }
    }
    left
}

// The floats of each stream that wait.
#[derive(Clone, Copy, PartialEq, Eq, Default, Debug)]
pub struct Waiting {
    pub figures: usize,
    pub tables: usize,
}

// How many of each stream wait at a place, each walk going on from what is known.
pub fn waiting_after(s: &[u8], g: Galley, at: Counts, known: Waiting) -> Waiting
    requires { Walking s.now g at known }
    ensures { result ≡ waiting_of s.now g at }
{
    Waiting {
        figures: waiting_floats(s, g.figures, at.lines, at.figures, known.figures),
        tables: waiting_floats(s, g.tables, at.lines, at.tables, known.tables),
    }
}

// The same after a page from u to v, where so many wait at u: those of them that the page does not place need no walk.
pub fn waiting_on(s: &[u8], g: Galley, u: Counts, v: Counts, known: Waiting) -> Waiting
    requires { WalkingOn s.now g u v known }
    ensures { result ≡ waiting_of s.now g v }
{
    let still = Waiting {
        figures: known.figures.saturating_sub(v.figures - u.figures),
        tables: known.tables.saturating_sub(v.tables - u.tables),
    };
    waiting_after(s, g, v, still)
}

// What a page adds to X with so many floats waiting at its end: all of them where it ends its leaf, else 0.
pub fn waiting_at(g: Galley, page: Page, waiting: usize) -> u32
    requires { (1 ≤ g.folio) × (waiting ≤ 250) }
    ensures { result ≡ waiting_at g page.0 waiting }
{
    if model::page::ends_spread(g.spec.sides, g.folio, page) {
        waiting as u32
    } else {
        0
    }
}
