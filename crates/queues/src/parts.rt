// The two parts of a window, each with a queue of its own: lines from which pages are full and have no white, and the lines after them,
// from which pages have white. What these lack differs from line to line by the height up to the line alone.
ghost use Rattle.std.specs.Prelude.{◌≡◌, ◌+◌, ◌*◌, ◌≤◌, length};
ghost use Rattle.queues.specs.Parts.{queue_at, emptied, parts_of, no_parts, Movable, Moved, whitened_of, Whitenable};

use crate::queue::{Queue, Source};
use places::{Entry, Least};
use window::rows::ROOM;
use window::slide::Window;

// The queue of the full pages, and that of the others.
#[derive(Clone, Copy)]
pub struct Parts {
    pub full: Queue,
    pub rest: Queue,
}

// A queue from `base` on, whose head and tail stand from word `at` of `ends` on.
fn queue_at(ends: &[u32], at: usize, base: usize, lacks: bool) -> Queue
    requires { at + 2 ≤ length ends.now }
    ensures { result ≡ queue_at ends.now at base lacks }
{
    Queue {
        base,
        head: galley::word::size(ends[at]),
        tail: galley::word::size(ends[at + 1]),
        lacks,
    }
}

// A queue from `base` on, of no line.
fn emptied(base: usize, lacks: bool) -> Queue
    ensures { result ≡ emptied base lacks }
{
    Queue {
        base,
        head: base,
        tail: base,
        lacks,
    }
}

// The queues of side c, each with the room of 4,000 entries: their heads and tails stand as row c of `ends`.
pub fn parts_of(ends: &[u32], c: usize) -> Parts
    requires { (4 * c + 4 ≤ length ends.now) × (c ≤ 1) }
    ensures { result ≡ parts_of ends.now c }
{
    let at = 4 * c;
    let base = 2 * ROOM * c;
    Parts {
        full: queue_at(ends, at, base, false),
        rest: queue_at(ends, at + 2, base + ROOM, true),
    }
}

// Both queues before the first line, from the first entry on.
pub fn no_parts() -> Parts
    ensures { result ≡ no_parts }
{
    Parts {
        full: emptied(0, false),
        rest: emptied(ROOM, true),
    }
}

// The queues of the window `to`, from those of the window before it.
pub fn move_on(
    work: &[u32],
    sums: &[u32],
    words: &mut [u32],
    source: Source,
    parts: Parts,
    from: Window,
    to: Window,
) -> Parts
    requires { Movable work.now sums.now words.old source parts from to }
    ensures { Moved work.now sums.now words.old source parts to result words.new }
{
    let Parts { full, rest } = parts;
    let start = to.low.max(to.split);
    let full = crate::queue::advance(
        work, sums, words, source, full, from.split, to.low, to.split,
    );
    let rest = crate::queue::advance(work, sums, words, source, rest, from.high, start, to.high);
    Parts { full, rest }
}

// A start whose cost has the height up to its line, with the page's white in its place: the page reaches as far as that height is
// passed, and lacks the rest of `top`.
pub fn whitened(found: Entry, top: u32, reached: u32) -> Entry
    requires { Whitenable found top reached }
    ensures { result ≡ whitened_of found top reached }
{
    let x = found?;
    Some(Least {
        cost: x.cost + u64::from(top) - u64::from(reached),
        start: x.start,
    })
}
