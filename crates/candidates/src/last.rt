// The last page may be short, so that it may start at any line from which it is not too tall, and its white does not count. The queues
// hold only the starts of pages that are high enough; for this one page the lines of a column are weighed one by one.
ghost use Rattle.std.specs.Prelude.{ℕ, ◌<◌};
ghost use Rattle.places.specs.Address.{Stands};
ghost use Rattle.places.specs.Best.{Best};
ghost use Rattle.queues.specs.Queue.{lines_of, Lines, Payable};
ghost use Rattle.candidates.specs.Last.{LinesStand, LastBest};

use galley::Galley;
use places::Entry;
use window::slide::{Load, Window};

// The best of the lines of a column in a window.
fn best_line(work: &[u32], tall: usize, column: usize, side: usize, window: Window) -> Entry
    requires { ((a : ℕ) → a < window.high → Stands work.now tall (record { line = a; column = column }) side) × Payable (lines_of work.now tall column side) window.high }
    ensures { Best (Lines (lines_of work.now tall column side) (λ a. 0) window.low window.high column) result }
{
    let mut best: Entry = None;
    for a in window.low..window.high {
        let place = places::place_of(a, column);
        let entry = places::entry_of(work, tall, place, side);
        best = crate::choice::choose(best, crate::choice::start_at(entry, place, 0));
    }
    best
}

// The best of the lines of a column from which the last page goes, with what it has beside its lines.
pub fn last_lines(
    g: Galley,
    work: &[u32],
    sums: &[u32],
    load: Load,
    column: usize,
    side: usize,
) -> Entry
    requires { LinesStand g work.now sums.now load column side }
    ensures { LastBest g work.now sums.now load column side result }
{
    let shut = window::slide::shut(load);
    let window = window::slide::slide(sums, load, shut, g.text.count);
    best_line(work, g.text.count + 1, column, side, window)
}
