// The lines of a part of a window that may still be the best start, three words each: the line, and in two words the cost of all
// before the page with what the line adds. They rise in line and in cost, since a line that is earlier and no cheaper is never chosen
// again.
ghost use Rattle.std.specs.Prelude.{◌≡◌, ◌+◌, ◌*◌, ◌≤◌, length};
ghost use Rattle.queues.specs.Queue.{added_of, front_of, Entries, Dropped, Passed, Feedable, Fed, Advanceable, Advanced, QueueStands};

use places::{Entry, Least, Place};
use window::sums::LOOSE;

// The starts that a queue takes: the lines of a column of `tall` places, on a side.
#[derive(Clone, Copy)]
pub struct Source {
    pub tall: usize,
    pub column: usize,
    pub side: usize,
}

// The entries of a queue: those from `head` on and before `tail`. Several queues share a slice, each from its base on. Where its pages
// lack something of htMax, what a line adds to its cost is the height up to it, by which a later start lacks more.
#[derive(Clone, Copy)]
pub struct Queue {
    pub base: usize,
    pub head: usize,
    pub tail: usize,
    pub lacks: bool,
}

// What line a adds to its cost.
fn added(sums: &[u32], lacks: bool, a: usize) -> u32
    requires { 3 * a + 6 ≤ length sums.now }
    ensures { result ≡ added_of sums.now lacks a }
{
    if lacks {
        return window::sums::spaced(sums, LOOSE, a);
    }
    0
}

// The tail after entries that cost x or more are dropped from the back: of equal costs the later line is kept.
fn drop_dearer(words: &[u32], head: usize, tail: usize, x: u64) -> usize
    requires { Entries words.now head tail }
    ensures { Dropped words.now head tail x result }
{
    for k in (head..tail).rev() {
        if places::joined(words[3 * k + 1], words[3 * k + 2]) < x {
            return k + 1;
        }
    }
    head
}

// The head after lines before `low` are dropped from the front.
fn drop_passed(words: &[u32], head: usize, tail: usize, low: usize) -> usize
    requires { Entries words.now head tail }
    ensures { Passed words.now head tail low result }
{
    for h in head..tail {
        if low <= words[3 * h] as usize {
            return h;
        }
    }
    tail
}

// The tail after the lines of the source from `from` on and before `to` are offered as starts.
fn feed(
    work: &[u32],
    sums: &[u32],
    words: &mut [u32],
    source: Source,
    queue: Queue,
    from: usize,
    to: usize,
) -> usize
    requires { Feedable work.now sums.now words.old source queue from to }
    ensures { Fed work.now sums.now words.old source queue from to result words.new }
{
    let mut tail = queue.tail;
    for a in from..to {
        let place = places::place_of(a, source.column);
        let entry = places::entry_of(work, source.tall, place, source.side);
        let more = added(sums, queue.lacks, a);
        let Some(found) = entry else {
            continue;
        };
        let cost = found.cost + u64::from(more);
        tail = drop_dearer(words, queue.head, tail, cost);
        let row = [place.line, places::low_of(cost), places::high_of(cost)];
        window::rows::put(words, tail, row);
        tail += 1;
    }
    tail
}

// The queue of a part from line `low` on and before `high`, from that of the part before it, whose end was `from`.
pub fn advance(
    work: &[u32],
    sums: &[u32],
    words: &mut [u32],
    source: Source,
    queue: Queue,
    from: usize,
    low: usize,
    high: usize,
) -> Queue
    requires { Advanceable work.now sums.now words.old source queue from high }
    ensures { Advanced work.now sums.now words.old source queue from low high result words.new }
{
    let tail = feed(work, sums, words, source, queue, from, high);
    let head = drop_passed(words, queue.head, tail, low);
    Queue {
        head,
        tail,
        ..queue
    }
}

// The best start that a queue of a column's lines holds, with what the line adds in its cost.
pub fn front(words: &[u32], queue: Queue, column: usize) -> Entry
    requires { QueueStands words.now queue column }
    ensures { result ≡ front_of words.now queue column }
{
    let at = 3 * queue.head;
    if queue.head < queue.tail {
        let start = Place {
            line: words[at],
            column: column as u32,
        };
        let cost = places::joined(words[at + 1], words[at + 2]);
        return Some(Least { cost, start });
    }
    None
}
