// The sides of a place filled: their queues of starts moved on, and their entries put where they belong.
ghost use Rattle.std.specs.Prelude.{◌≡◌};
ghost use Rattle.galley.specs.Model.{model_of};
ghost use Rattle.places.specs.Best.{Best};
ghost use Rattle.candidates.specs.Search.{new_entry};
ghost use Rattle.candidates.specs.Choice.{Starts, Above};
ghost use Rattle.candidates.specs.Read.{table_in, side_of, search_of};
ghost use Rattle.entries.specs.Next.{LinesAbove, EntryNext, SideNext, SideFilled, PlaceNext, PlaceFilled};

use blocks::Counts;
use blocks::heights::Heights;
use galley::Galley;
use places::{Entry, Least, Origin};
use pricing::Stop;
use queues::parts::Parts;
use queues::queue::Source;
use window::slide::Window;

// What is to be filled: the table of a galley, from an origin on.
#[derive(Clone, Copy)]
pub struct Task {
    pub galley: Galley,
    pub origin: Origin,
}

// The windows of a line: that of the line above it, and its own.
#[derive(Clone, Copy)]
pub struct Windows {
    pub from: Window,
    pub to: Window,
}

// Where a page ends: the counts of its place, the line among them, and the column; its side, and whether its leaf ends with it; how
// many floats wait there, and what the place says of it.
#[derive(Clone, Copy)]
pub struct End {
    pub at: Counts,
    pub column: usize,
    pub side: usize,
    pub turns: bool,
    pub waiting: usize,
    pub stop: Stop,
}

// The best of the lines above in the column itself, as starts of a page that ends at a place. The last page may be short, and the
// queues hold only the starts of pages that are high enough.
fn lines_above(
    s: &[u8],
    task: Task,
    work: &[u32],
    sums: &[u32],
    words: &[u32],
    parts: Parts,
    end: End,
) -> Entry
    requires { LinesAbove s.now task work.now sums.now words.now parts end }
    ensures { Best (Starts (search_of s.now task.galley work.now end.at.lines end.column (side_of task.galley end.side)) (Above end.column end.at.lines)) result }
{
    let g = task.galley;
    let least = rules::rules::floor_of(g, end.stop.full);
    let begin = task.origin.place.line as usize;
    let load = candidates::read::load_of(g, 0, Heights { tight: 0, loose: 0 }, least, begin);
    if !end.stop.full {
        return candidates::fronts::best_front(sums, words, parts, end.column, load, end.at.lines);
    }
    let side = candidates::read::side_before(g, end.side);
    candidates::last::last_lines(g, work, sums, load, end.column, side)
}

// The entry that a place gets on a side, whose words hold the best start in an earlier column. What costs more than the search looks for is
// left unreached: costs never fall from page to page, so that no list within the limit goes through it.
fn new_entry(
    s: &[u8],
    task: Task,
    work: &[u32],
    sums: &[u32],
    words: &[u32],
    parts: Parts,
    end: End,
) -> Entry
    requires { EntryNext s.now task work.now sums.now words.now parts end }
    ensures { result ≡ new_entry (model_of s.now task.galley) task.origin (table_in task.galley work.now) end.at.lines end.column end.side }
{
    let g = task.galley;
    if candidates::read::is_origin(g, task.origin, end.at.lines, end.column, end.side) {
        let Origin { place, cost, .. } = task.origin;
        return Some(Least { cost, start: place });
    }
    if !pricing::may_stop(end.stop, end.turns) {
        return None;
    }
    let place = places::place_of(end.at.lines, end.column);
    let held = places::entry_of(work, g.text.count + 1, place, end.side);
    let lines = lines_above(s, task, work, sums, words, parts, end);
    let best = candidates::choice::choose(held, lines)?;
    let price = pricing::price(g, end.stop.full, end.turns, end.waiting);
    let cost = best.cost + places::joined(0, price);
    if task.origin.cost + task.origin.limit < cost {
        return None;
    }
    Some(Least { cost, ..best })
}

// One side of a place: the queues moved on to the window of its line, and the entry stored.
fn fill_side(
    s: &[u8],
    task: Task,
    work: &mut [u32],
    sums: &[u32],
    words: &mut [u32],
    parts: Parts,
    windows: Windows,
    end: End,
) -> Parts
    requires { SideNext s.now task work.old sums.now words.old parts windows end }
    ensures { SideFilled s.now task work.old work.new sums.now words.old words.new parts windows end result }
{
    let tall = task.galley.text.count + 1;
    let source = Source {
        tall,
        column: end.column,
        side: candidates::read::side_before(task.galley, end.side),
    };
    let from = windows.from;
    let to = windows.to;
    let moved = queues::parts::move_on(work, sums, words, source, parts, from, to);
    let entry = new_entry(s, task, work, sums, words, moved, end);
    let place = places::place_of(end.at.lines, end.column);
    places::store(work, tall, place, end.side, entry);
    moved
}

// Every side that occurs, from side 0 on, each with its two queues, whose heads and tails stand in `ends`.
pub fn fill_place(
    s: &[u8],
    task: Task,
    work: &mut [u32],
    sums: &[u32],
    words: &mut [u32],
    ends: &mut [u32],
    windows: Windows,
    end: End,
)
    requires { PlaceNext s.now task work.old sums.now words.old ends.old windows end }
    ensures { PlaceFilled s.now task work.old work.new sums.now words.new ends.new windows end }
{
    let ending = pricing::ending_side(task.galley);
    for c in 0..task.galley.spec.sides as usize {
        let here = End {
            side: c,
            turns: c == ending,
            ..end
        };
        let parts = queues::parts::parts_of(ends, c);
        let Parts { full, rest } = fill_side(s, task, work, sums, words, parts, windows, here);
        let row = [
            full.head as u32,
            full.tail as u32,
            rest.head as u32,
            rest.tail as u32,
        ];
        window::rows::put(ends, c, row);
    }
}
