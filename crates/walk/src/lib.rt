// From the last page back to the first, by the start that each entry holds: document 01, "Making".
#![tactic(auto)]

ghost use Rattle.std.specs.Prelude.{◌≡◌, List, ℕ, ◌≤◌};
ghost use Rattle.std.proofs.lemmas.List.Edits.{sets};
ghost use Rattle.galley.specs.Model.{sides_in, model_of};
ghost use Rattle.blocks.specs.Counts.{place_of};
ghost use Rattle.candidates.specs.Read.{table_in, counts_at};
ghost use Rattle.walk.specs.Trace.{start_of, cheaper, last_side, entry_of, back, at_origin, write_back};
ghost use Rattle.walk.specs.Traceable.{is_reached, WorkArea, full_place, last_stop, Visits, Walkable, PageRoom, Writable, pages_back};

use galley::Galley;
use places::{Entry, Origin, Place};

// A page stops at a place, on a side.
#[derive(Clone, Copy)]
pub struct Stop {
    pub place: Place,
    pub side: usize,
}

// The start of the page that ends at an entry's place; a place that was never reached has none, and the walk stays there.
#[tactic(auto, unfolding(crate::specs::Trace::start_of))]
fn start_of(entry: Entry, place: Place) -> Place
    ensures { result ≡ start_of entry place }
{
    entry.map_or(place, |least| least.start)
}

// Whether an entry is strictly less dear than another: one that was never reached is not.
#[tactic(auto, unfolding(crate::specs::Trace::cheaper))]
fn cheaper(entry: Entry, other: Entry) -> bool
    ensures { result ≡ cheaper entry other }
{
    match (entry, other) {
        (None, _) => false,
        (Some(_), None) => true,
        (Some(x), Some(y)) => x.cost < y.cost,
    }
}

// The side of the last page of the best list: that of an even last folio, unless the other is strictly less dear.
fn last_side(g: Galley, work: &[u32], full: Place) -> usize
    requires { WorkArea g work.now × (1 ≤ g.folio) × (full ≡ full_place g) }
    ensures { result ≡ last_side (sides_in g) (table_in g work.now) full }
{
    if g.spec.sides == 2 {
        let even = ((g.folio - 1) % 2) as usize;
        let odd = 1 - even;
        let first = places::entry_of(work, g.text.count + 1, full, even);
        let second = places::entry_of(work, g.text.count + 1, full, odd);
        if cheaper(second, first) {
            return odd;
        }
        return even;
    }
    0
}

// Where the best list's last page stops.
pub fn last_stop(g: Galley, work: &[u32]) -> Stop
    requires { WorkArea g work.now × (1 ≤ g.folio) }
    ensures { result ≡ last_stop g work.now }
{
    let full = places::place_of(g.text.count, candidates::read::columns_of(g) - 1);
    let side = last_side(g, work, full);
    Stop { place: full, side }
}

// Whether a page stops there: if not at the last stop, no valid list exists.
pub fn reached(g: Galley, work: &[u32], at: Stop) -> bool
    requires { WorkArea g work.now × Visits g at }
    ensures { result ≡ is_reached (entry_of (table_in g work.now) at) }
{
    places::entry_of(work, g.text.count + 1, at.place, at.side).is_some()
}

// Where the page before stops.
pub fn page_before(g: Galley, work: &[u32], at: Stop) -> Stop
    requires { WorkArea g work.now × Visits g at }
    ensures { result ≡ back (sides_in g) (table_in g work.now) at }
{
    let entry = places::entry_of(work, g.text.count + 1, at.place, at.side);
    Stop {
        place: start_of(entry, at.place),
        side: candidates::read::side_before(g, at.side),
    }
}

// Whether the walk is where the search began.
fn at_origin(g: Galley, origin: Origin, at: Stop) -> bool
    ensures { result ≡ at_origin (sides_in g) origin at }
{
    candidates::read::is_origin(
        g,
        origin,
        at.place.line as usize,
        at.place.column as usize,
        at.side,
    )
}

// The number of pages on the way back to the origin: there are no more than there are blocks.
pub fn count_pages(g: Galley, work: &[u32], origin: Origin, last: Stop) -> usize
    requires { Walkable g work.now last }
    ensures { result ≡ pages_back g work.now origin last }
{
    let most = g.text.count + g.figures.count + g.tables.count;
    let mut at = last;
    for p in 0..most {
        if at_origin(g, origin, at) {
            return p;
        }
        at = page_before(g, work, at);
    }
    most
}

// The words of the page that stops at a place, from word k on: the lines, the figures and, where there are any, the tables placed so
// far.
fn write_page(g: Galley, place: Place, k: usize, pages: &mut [u32])
    requires { PageRoom g place k pages.old }
    ensures { pages.new ≡ sets pages.old k (place_of g (counts_at g place.line place.column)) }
{
    let at = candidates::read::counts_at(g, place.line as usize, place.column as usize);
    pages[k] = at.lines as u32;
    pages[k + 1] = at.figures as u32;
    if 0 < g.tables.count {
        pages[k + 2] = at.tables as u32;
    }
}

// The last `p` pages on the way back, each written where its number says.
pub fn write_pages(g: Galley, work: &[u32], last: Stop, p: usize, pages: &mut [u32])
    requires { Writable g work.now last p pages.old }
    ensures { (bytes : List ℕ) → pages.new ≡ write_back (model_of bytes g) (table_in g work.now) p last pages.old }
{
    let wide = blocks::page_words(g);
    let mut at = last;
    for r in (0..p).rev() {
        write_page(g, at.place, wide * r, pages);
        at = page_before(g, work, at);
    }
}
