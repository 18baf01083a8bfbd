// What no start from a line on costs less than. Far below the lines that cite its floats a column is left behind: whatever starts in it
// is dearer than what a later column offers, and a place that holds less than its bound has nothing to weigh.
ghost use Rattle.std.specs.Prelude.{◌≡◌, true};
ghost use Rattle.passes.specs.Bound.{lesser_of, grows_of, Standing, Boundable, BoundFound, Comparable, Beaten};

use places::{Entry, Place};
use queues::queue::Source;

// The lesser of a cost and that of an entry.
fn lesser(least: u64, entry: Entry) -> u64
    ensures { result ≡ lesser_of least entry }
{
    match entry {
        None => least,
        Some(x) => least.min(x.cost),
    }
}

// Whether what is reached costs more at the far end of a column, or is not reached at one of its ends.
fn grows(near: Entry, far: Entry) -> bool
    ensures { result ≡ grows_of near far }
{
    let (Some(x), Some(y)) = (near, far) else {
        return true;
    };
    x.cost < y.cost
}

// The lines of a source after `since` bounded, back from the last, which needs no bound: that of line a is kept as entry 12,000 + a,
// behind the windows.
fn bound_lines(work: &[u32], words: &mut [u32], source: Source, since: usize, lines: usize)
    requires { Boundable work.now words.old source lines since }
    ensures { BoundFound work.now words.old source lines since words.new }
{
    let end = places::place_of(lines, source.column);
    let far = places::entry_of(work, source.tall, end, source.side);
    let mut least = lesser(u64::MAX, far);
    for a in (since + 1..lines).rev() {
        let place = places::place_of(a, source.column);
        let entry = places::entry_of(work, source.tall, place, source.side);
        least = lesser(least, entry);
        let row = [place.line, places::low_of(least), places::high_of(least)];
        window::rows::put(words, a + 12000, row);
    }
}

// The line of a source after which there are bounds, for pages that end in column `to`: the first one that is reached, or the last, where
// bounds are of no use: none is after that one, so that no line needs a test more. That is where all lines from the one to the other are no more than a page, where all cost as much, and where no
// other column was weighed before.
pub fn bound_side(
    work: &[u32],
    words: &mut [u32],
    source: Source,
    to: usize,
    first: usize,
    lines: usize,
    several: bool,
) -> usize
    requires { Standing work.now words.old source lines }
    ensures { BoundFound work.now words.old source lines result words.new }
{
    if !several || lines <= first || to <= source.column + 1 {
        return lines;
    }
    let top = places::place_of(first, source.column);
    let near = places::entry_of(work, source.tall, top, source.side);
    let end = places::place_of(lines, source.column);
    let far = places::entry_of(work, source.tall, end, source.side);
    if !grows(near, far) {
        return lines;
    }
    bound_lines(work, words, source, first, lines);
    first
}

// Whether a place holds less than the bound of line `low`: there is one after line `since` and before line `last`.
pub fn beaten(
    work: &[u32],
    words: &[u32],
    tall: usize,
    place: Place,
    side: usize,
    since: usize,
    low: usize,
    last: usize,
) -> bool
    requires { Comparable work.now words.now tall place side last }
    ensures { result ≡ true → Beaten work.now words.now tall place side since low last }
{
    if low <= since || last <= low {
        return false;
    }
    let Some(x) = places::entry_of(work, tall, place, side) else {
        return false;
    };
    let at = 3 * (low + 12000);
    x.cost < places::joined(words[at + 1], words[at + 2])
}
