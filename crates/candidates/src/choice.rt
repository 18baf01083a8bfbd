// The better of two starts of a page: the less dear, then the later line, then the later column. Document 01, "Making".
ghost use Rattle.std.specs.Prelude.{◌≡◌};
ghost use Rattle.places.specs.Address.{address, Stands};
ghost use Rattle.places.specs.Best.{Affordable};
ghost use Rattle.candidates.specs.Better.{beats, wins, chosen, Later, start_at, taken};

use places::{Entry, Least, Place};

// Whether a start is better than another, or is it. Both tests are made, and no branch depends on them.
fn beats(y: Least, x: Least) -> bool
    ensures { result ≡ beats y.cost y.start x.cost x.start }
{
    (y.cost < x.cost) | ((y.cost <= x.cost) & (x.start <= y.start))
}

// Whether a start is better than an entry, or is its start.
fn wins(y: Least, held: Entry) -> bool
    ensures { result ≡ wins y.cost y.start held }
{
    match held {
        None => true,
        Some(x) => beats(y, x),
    }
}

// The better of two entries.
pub fn choose(held: Entry, other: Entry) -> Entry
    ensures { result ≡ chosen held other }
{
    let Some(y) = other else {
        return held;
    };
    if wins(y, held) {
        return other;
    }
    held
}

// The same where the second start, if there are two, is after a later line: of equal costs it is the better, and cost alone decides.
pub fn choose_later(held: Entry, other: Entry) -> Entry
    requires { Later held other }
    ensures { result ≡ chosen held other }
{
    let Some(y) = other else {
        return held;
    };
    let Some(x) = held else {
        return other;
    };
    if x.cost < y.cost {
        return held;
    }
    other
}

// The entry of a place as a start there, with the white of the page in its cost. A place that was never reached offers no start for
// a page.
pub fn start_at(entry: Entry, place: Place, white: u32) -> Entry
    requires { Affordable entry }
    ensures { result ≡ start_at entry white place.line place.column }
{
    let x = entry?;
    Some(Least {
        cost: x.cost + u64::from(white),
        start: place,
    })
}

// An entry of the work area replaced where another is better.
pub fn offer(work: &mut [u32], tall: usize, place: Place, side: usize, other: Entry)
    requires { Stands work.old tall place side }
    ensures { work.new ≡ taken work.old (address tall place.line place.column side) other }
{
    let Some(y) = other else {
        return;
    };
    let held = places::entry_of(work, tall, place, side);
    if wins(y, held) {
        places::store(work, tall, place, side, other);
    }
}
