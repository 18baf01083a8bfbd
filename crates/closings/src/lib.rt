// One chapter of a book: its table from the folio on which it opens, and what the table tells of the lists that close on each side.
// Document 02, S-9.
#![tactic(auto)]

ghost use Rattle.std.specs.Prelude.{◌≡◌, ◌+◌, ◌≤◌};
ghost use Rattle.theorems.specs.pages.Graph.{side};
ghost use Rattle.galley.specs.Model.{sides_in, model_of};
ghost use Rattle.candidates.specs.Read.{table_in};
ghost use Rattle.filling.specs.Fill.{filled};
ghost use Rattle.walk.specs.Trace.{entry_of};
ghost use Rattle.walk.specs.Traceable.{WorkArea, Visits};
ghost use Rattle.closings.specs.Chapter.{on_folio, nothing_yet, closing_stop, ChapterRoom, Counted, BothWalk, later_starts};

use galley::Galley;
use places::{BOUNDLESS, Entry, Origin, Place};
use walk::Stop;

// The galley opened on another folio.
pub fn on_folio(g: Galley, folio: u32) -> Galley
    ensures { result ≡ on_folio folio g }
{
    Galley { folio, ..g }
}

// Where a chapter begins: nothing is placed, and every list is looked for.
pub const NOTHING_YET: Origin = Origin {
    place: Place { line: 0, column: 0 },
    pages: 0,
    cost: 0,
    limit: BOUNDLESS,
};

// The chapter's table, from the beginning on, whatever the work area held before.
pub fn fill_chapter(s: &[u8], g: Galley, work: &mut [u32])
    requires { ChapterRoom s.now g work.old }
    ensures { work.new ≡ filled (model_of s.now g) nothing_yet work.old }
{
    filling::fill::fill(s, g, NOTHING_YET, work);
}

// The side on which a list closes that leads from one folio to another.
pub fn closing_side(g: Galley, folio: u32, next: u32) -> usize
    requires { (folio ≤ 2) × (next ≤ 2) }
    ensures { result ≡ side (sides_in g) (folio + next) }
{
    candidates::read::side_of(g, folio + next)
}

// Where a list that closes on a side stops: at the full place.
pub fn closing_stop(g: Galley, side: usize) -> Stop
    requires { Counted g }
    ensures { result ≡ closing_stop g side }
{
    let full = places::place_of(g.text.count, candidates::read::columns_of(g) - 1);
    Stop { place: full, side }
}

// The entry where a page stops: the least cost of the lists that do, and the start of their last page.
pub fn entry_at(g: Galley, work: &[u32], at: Stop) -> Entry
    requires { WorkArea g work.now × Visits g at }
    ensures { result ≡ entry_of (table_in g work.now) at }
{
    places::entry_of(work, g.text.count + 1, at.place, at.side)
}

// Of two lists that lie in two tables of the chapter, whether the starts of the first are preferred: at the last page at which they
// differ its start is the later. They have different numbers of pages, and so they do differ.
pub fn later_starts(g: Galley, one: &[u32], two: &[u32], first: Stop, second: Stop) -> bool
    requires { BothWalk g one.now two.now first second }
    ensures { result ≡ later_starts g one.now two.now first second }
{
    let most = g.text.count + g.figures.count + g.tables.count;
    let mut a = first;
    let mut b = second;
    for _ in 0..most {
        a = walk::page_before(g, one, a);
        b = walk::page_before(g, two, b);
        if a.place != b.place {
            return b.place < a.place;
        }
    }
    false
}
