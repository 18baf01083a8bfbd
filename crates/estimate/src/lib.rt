// A guess of the turns that the best pages of a galley cost, from one list that is set greedily: where a search has a limit, the first
// comes from here.
//
// A block goes on the page as soon as it may and fits: a figure or table that is cited before the next line. Where nothing fits, the page is
// turned. That list says how often the best one is turned and how long its floats wait. It keeps no rule but the greatest height, so it
// may cost less than the best list, and more. Nothing is promised of the guess but its size: whatever number comes out, the answer of making
// is the same, since a search that finds nothing within its limit is made again without one.
#![tactic(auto)]

ghost use Rattle.std.specs.Prelude.{true, ◌≡◌, ◌≤◌, ◌<◌};
ghost use Rattle.galley.specs.Block.{Has};
ghost use Rattle.galley.specs.Range.{SpecRanged};
ghost use Rattle.galley.specs.Sound.{SoundStream};
ghost use Rattle.candidates.specs.Read.{Placed};
ghost use Rattle.estimate.specs.Greedy.{Setting, Goes, Begins, Counted};

use blocks::Counts;
use galley::{Galley, Spec, Stream};
use model::page::Page;
use places::Origin;
use rules::waiting::Waiting;

// The most that is ever guessed.
const MOST: u32 = 1000000000;

// The pages set so far: the blocks placed of each stream, the room left on the present page and whether it ends its leaf, what the pages
// before it cost, and how many of them ended theirs.
#[derive(Clone, Copy, PartialEq, Eq, Debug)]
pub struct Greedy {
    pub at: Counts,
    pub room: u32,
    pub ends: bool,
    pub cost: u32,
    pub turned: u32,
}

// The room left after block k, with the space after it, or what floats are set apart by where that is more.
fn room_after(s: &[u8], stream: Stream, k: usize, room: u32, apart: u32) -> u32
    requires { Has s.now stream k 14 }
    ensures { result ≤ room }
{
    let least = blocks::field(s, stream, k, galley::LEAST);
    let height = blocks::field(s, stream, k, galley::HEIGHT);
    room.saturating_sub(height).saturating_sub(least.max(apart))
}

// Whether there is a next block of a stream that fits the present page. A page with all its room left takes every block, however high, so
// that the list goes on.
fn block_fits(s: &[u8], g: Galley, stream: Stream, placed: usize, pages: Greedy) -> bool
    requires { SoundStream s.now stream }
    ensures { result ≡ true → placed < stream.count }
{
    if stream.count <= placed {
        return false;
    }
    let height = blocks::field(s, stream, placed + 1, galley::HEIGHT);
    (height <= pages.room) | (pages.room == g.spec.htmax)
}

// Whether the next float of a stream is cited by one of the lines placed, and fits.
fn float_fits(s: &[u8], g: Galley, floats: Stream, placed: usize, pages: Greedy) -> bool
    requires { SoundStream s.now floats }
    ensures { result ≡ true → placed < floats.count }
{
    if block_fits(s, g, floats, placed, pages) {
        let line = blocks::field(s, floats, placed + 1, galley::CITE);
        return line as usize <= pages.at.lines;
    }
    false
}

// What the end of a leaf costs: the floats that wait, by α, and the turn, by β.
fn leaf_cost(s: &[u8], g: Galley, pages: Greedy) -> u32
    requires { Setting s.now g pages }
    ensures { result ≤ 251000 }
{
    let waiting = rules::waiting::waiting_after(s, g, pages.at, Waiting::default());
    g.spec.alpha * ((waiting.figures + waiting.tables) as u32) + g.spec.beta
}

// The page turned: the next one has all its room.
fn turn(s: &[u8], g: Galley, mut pages: Greedy) -> Greedy
    requires { Setting s.now g pages }
    ensures { Goes g pages result }
{
    pages.room = g.spec.htmax;
    if !pages.ends {
        pages.ends = true;
        return pages;
    }
    pages.cost += leaf_cost(s, g, pages);
    pages.turned += 1;
    pages.ends = g.spec.sides == 1;
    pages
}

// One block more, or the page turned.
fn step(s: &[u8], g: Galley, mut pages: Greedy) -> Greedy
    requires { Setting s.now g pages }
    ensures { Goes g pages result }
{
    if float_fits(s, g, g.figures, pages.at.figures, pages) {
        pages.at.figures += 1;
        pages.room = room_after(s, g.figures, pages.at.figures, pages.room, g.spec.smin);
        return pages;
    }
    if float_fits(s, g, g.tables, pages.at.tables, pages) {
        pages.at.tables += 1;
        pages.room = room_after(s, g.tables, pages.at.tables, pages.room, g.spec.smin);
        return pages;
    }
    if block_fits(s, g, g.text, pages.at.lines, pages) {
        pages.at.lines += 1;
        pages.room = room_after(s, g.text, pages.at.lines, pages.room, 0);
        return pages;
    }
    turn(s, g, pages)
}

// All pages from a beginning on. A page that is turned takes a block at once, so that twice as many steps as there are blocks are enough.
fn set_pages(s: &[u8], g: Galley, beginning: Greedy) -> Greedy
    requires { Begins s.now g beginning }
    ensures { Counted result }
{
    let mut pages = beginning;
    for _ in 0..2 * (g.text.count + g.figures.count + g.tables.count) {
        if counting::all_placed(g, pages.at) {
            return pages;
        }
        pages = step(s, g, pages);
    }
    pages
}

// What the greedy pages cost, and for the rules that they do not keep a sixteenth more leaves, two turns and two floats that wait. Where
// they never turn a leaf, the best list hardly does.
fn guess_of(spec: Spec, pages: Greedy) -> u32
    requires { SpecRanged spec × Counted pages }
    ensures { result ≤ 1000000000 }
{
    if pages.turned == 0 {
        return 0;
    }
    let limit = pages.cost + spec.beta * (pages.turned / 16) + 2 * (spec.alpha + spec.beta);
    limit.min(MOST)
}

// The turns that the pages after the origin may cost on the first try.
pub fn first_limit(s: &[u8], g: Galley, origin: Origin) -> u32
    requires { Placed s.now g origin.place.line origin.place.column }
    ensures { result ≤ 1000000000 }
{
    let at = candidates::read::counts_at(
        g,
        origin.place.line as usize,
        origin.place.column as usize,
    );
    // The page after the printed ones, by its side alone.
    let first = Page(origin.pages % 2 + 1);
    let beginning = Greedy {
        at,
        room: g.spec.htmax,
        ends: model::page::ends_spread(g.spec.sides, g.folio, first),
        cost: 0,
        turned: 0,
    };
    guess_of(g.spec, set_pages(s, g, beginning))
}
