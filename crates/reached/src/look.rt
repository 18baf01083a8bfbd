// The first and the last line of a column that are reached. A place that was never reached offers no start, so that a sweep begins at the
// first and ends a page after the last, and a column without one is passed over.
ghost use Rattle.std.specs.Prelude.{◌≡◌, false, ℕ, ◌+◌, ◌≤◌, ◌<◌};
ghost use Rattle.places.specs.Address.{Stands};
ghost use Rattle.candidates.specs.Cells.{ColumnRoom};
ghost use Rattle.reached.specs.Look.{Missed, FirstFound, LastFound, Over, Told, ReachFound};
ghost use Rattle.reached.specs.Ring.{hint_last};

use crate::ring;
use galley::Galley;
use places::Place;

// Whether a place is reached on one of its first `sides` sides.
fn reached(work: &[u32], tall: usize, place: Place, sides: usize) -> bool
    requires { (c : ℕ) → c < sides → Stands work.now tall place c }
    ensures { result ≡ false → Missed work.now tall place sides }
{
    for c in 0..sides {
        if places::entry_of(work, tall, place, c).is_some() {
            return true;
        }
    }
    false
}

// The first line from `from` on that is reached in a column on any side that occurs.
pub fn first_line(g: Galley, work: &[u32], column: usize, from: usize) -> Option<usize>
    requires { ColumnRoom g work.now column }
    ensures { FirstFound g work.now column from result }
{
    for a in from..g.text.count + 1 {
        let place = places::place_of(a, column);
        if reached(work, g.text.count + 1, place, g.spec.sides as usize) {
            return Some(a);
        }
    }
    None
}

// The last line from `from` on and before `to` that is reached in a column on any side that occurs, where none from `to` on is; `from` where
// there is none.
pub fn last_line(g: Galley, work: &[u32], column: usize, from: usize, to: usize) -> usize
    requires { ColumnRoom g work.now column × Over g work.now column to }
    ensures { LastFound g work.now column from result }
{
    for last in (from..to).rev() {
        let place = places::place_of(last, column);
        if reached(work, g.text.count + 1, place, g.spec.sides as usize) {
            return last;
        }
    }
    from
}

// The first and the last line of a column that are reached.
#[derive(Clone, Copy)]
pub struct Reach {
    pub first: usize,
    pub last: usize,
}

// Both, from line `from` on and before `to`, where none from `to` on is reached; none where no line is.
pub fn reach_of(g: Galley, work: &[u32], column: usize, from: usize, to: usize) -> Option<Reach>
    requires { ColumnRoom g work.now column × Over g work.now column to }
    ensures { ReachFound g work.now column from result }
{
    let first = first_line(g, work, column, from)?;
    Some(Reach {
        first,
        last: last_line(g, work, column, first, to),
    })
}

// One past the last line that a hint leaves to look at.
fn hint_end(g: Galley, hint: u32) -> usize
    requires { g.text.count ≤ 4000 }
    ensures { (result ≤ g.text.count + 1) × ((a : ℕ) → result ≤ a → a < g.text.count + 1 → hint_last hint + 1 ≤ a) }
{
    ring::last_of(hint).min(g.text.count) + 1
}

// The same first and last line. From column `since` on those that are reached are among the columns seen, so that the lines of any other
// need no look, and of those only the lines that their hint leaves.
pub fn reach_in(
    g: Galley,
    work: &[u32],
    seen: &[u32],
    column: usize,
    since: usize,
    from: usize,
) -> Option<Reach>
    requires { ColumnRoom g work.now column × (since ≤ column → Told g work.now seen.now column from) }
    ensures { ReachFound g work.now column from result }
{
    let hint = ring::hint_for(seen, column, since)?;
    let first = from.max(ring::first_of(hint));
    reach_of(g, work, column, first, hint_end(g, hint))
}
