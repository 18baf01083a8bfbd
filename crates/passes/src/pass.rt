// The starts in one earlier column, weighed for all places of a column at once: one sweep down the lines on each side that occurs, with
// queues of starting lines, and line by line for the last page, which may be short. The best start so far of a place stands in the
// place's own words.
ghost use Rattle.std.specs.Prelude.{◌≡◌, ◌+◌};
ghost use Rattle.blocks.specs.Heights.{Separable};
ghost use Rattle.places.specs.Address.{Stands};
ghost use Rattle.places.specs.Best.{Affordable};
ghost use Rattle.candidates.specs.Read.{table_in};
ghost use Rattle.passes.specs.Sweep.{pass_load, alone_of, weighed, Ended, sweep_end, Stoppable, Stopped};
ghost use Rattle.candidates.specs.Cells.{Wide};
ghost use Rattle.passes.specs.Swept.{Sweep, SweepDone, SideSweep, SideDone, LastLine, LineDone};

use blocks::heights::Heights;
use galley::Galley;
use places::Entry;
use queues::queue::Source;
use reached::look::Reach;
use window::slide::Load;

// One sweep: starts in column `from`, for pages that end in column `to` and are no lower than `least`. A page of the floats between
// alone has these heights, the separation of figures and tables with them, and this white; beside lines they have one separation more.
// No line of column `from` before the first of `reach` or after its last is reached.
#[derive(Clone, Copy)]
pub struct Pass {
    pub from: usize,
    pub to: usize,
    pub heights: Heights,
    pub least: u32,
    pub white: u32,
    pub reach: Reach,
}

impl Pass {
    // What a page of the pass has beside its lines.
    fn load(self, g: Galley) -> Load
        requires { Separable g.spec 1 self.heights }
        ensures { result ≡ pass_load g self }
    {
        candidates::read::load_of(g, 1, self.heights, self.least, self.reach.first)
    }
}

// The page of floats alone that starts after line i.
fn alone(g: Galley, work: &[u32], i: usize, side: usize, pass: Pass) -> Entry
    requires { Stands work.now (g.text.count + 1) (record { line = i; column = pass.from }) side × Affordable (table_in g work.now i pass.from side) }
    ensures { result ≡ alone_of g work.now i side pass }
{
    if pass.heights.loose < pass.least {
        return None;
    }
    let place = places::place_of(i, pass.from);
    let entry = places::entry_of(work, g.text.count + 1, place, side);
    candidates::choice::start_at(entry, place, pass.white)
}

// The best start known for line i of the column on side c, with the starts of the pass weighed too: the best of the lines before it,
// and the page of floats alone.
fn improve(g: Galley, work: &mut [u32], lines: Entry, i: usize, c: usize, pass: Pass)
    requires { Ended g work.old i c pass }
    ensures { work.new ≡ weighed g work.old lines i c pass }
{
    let side = candidates::read::side_before(g, c);
    let found = candidates::choice::choose(lines, alone(g, work, i, side, pass));
    let end = places::place_of(i, pass.to);
    candidates::choice::offer(work, g.text.count + 1, end, c, found);
}

// The lines that a sweep may take: all, but for the last line of the last column, where a page may be short.
fn sweep_end(g: Galley, pass: Pass) -> usize
    requires { Wide g pass.to }
    ensures { result ≡ sweep_end g pass }
{
    if pass.to + 1 == candidates::read::columns_of(g) {
        g.text.count
    } else {
        g.text.count + 1
    }
}

// The line that a sweep stops at: the first one to which a page from the last reached line of the column is too tall. From there on so is
// every page from a line that is reached, and a page of floats alone would start past the last.
fn sweep_stop(g: Galley, sums: &[u32], pass: Pass) -> usize
    requires { Stoppable g sums.now pass }
    ensures { Stopped g sums.now pass result }
{
    let load = pass.load(g);
    let end = sweep_end(g, pass);
    for i in pass.reach.last + 1..end {
        if window::slide::too_tall(sums, load, pass.reach.last, i) {
            return i;
        }
    }
    end
}

// The starts of a pass weighed on side c for every line that the sweep takes. Before the first reached line of their column and from line
// `stop` on there are none to weigh, of lines or of floats alone; and a line whose place holds less than all of them cost is passed over,
// so that the queues hold the window of the last line that was not.
fn sweep_side(
    s: &[u8],
    g: Galley,
    work: &mut [u32],
    sums: &[u32],
    words: &mut [u32],
    c: usize,
    pass: Pass,
    stop: usize,
)
    requires { SideSweep s.now g work.old sums.now words.old c pass stop }
    ensures { SideDone s.now g work.old work.new words.new c pass stop }
{
    let load = pass.load(g);
    let side = candidates::read::side_before(g, c);
    let source = Source {
        tall: g.text.count + 1,
        column: pass.from,
        side,
    };
    let several = window::slide::too_tall(sums, load, pass.reach.first, pass.reach.last);
    let since = crate::bound::bound_side(
        work,
        words,
        source,
        pass.to,
        pass.reach.first,
        pass.reach.last,
        several,
    );
    let mut parts = queues::parts::no_parts();
    let mut starts = window::slide::shut(load);
    let mut fed = window::slide::shut(load);
    for i in pass.reach.first..stop {
        let before = starts;
        starts = window::windows::window_of(sums, load, words, before, i, c);
        let place = places::place_of(i, pass.to);
        if crate::bound::beaten(
            work,
            words,
            source.tall,
            place,
            c,
            since,
            starts.low,
            pass.reach.last,
        ) {
            continue;
        }
        let last = fed;
        parts = queues::parts::move_on(work, sums, words, source, parts, last, starts);
        fed = starts;
        let lines = candidates::fronts::best_front(sums, words, parts, pass.from, load, i);
        improve(g, work, lines, i, c, pass);
    }
}

// The same for the last line of the last column: the lines before it are weighed one by one.
fn last_line(s: &[u8], g: Galley, work: &mut [u32], sums: &[u32], c: usize, pass: Pass)
    requires { LastLine s.now g work.old sums.now c pass }
    ensures { LineDone s.now g work.old work.new c pass }
{
    if pass.to + 1 < candidates::read::columns_of(g) {
        return;
    }
    let last = Pass {
        least: rules::rules::floor_of(g, true),
        white: 0,
        ..pass
    };
    let load = last.load(g);
    let side = candidates::read::side_before(g, c);
    let lines = candidates::last::last_lines(g, work, sums, load, pass.from, side);
    improve(g, work, lines, g.text.count, c, last);
}

// The starts of a pass weighed for every line of the column on every side that occurs. Where no line of their column is reached there
// are none: no row asks for such a pass, but what is promised of one may not change (`still` of SweepDone).
pub fn sweep(s: &[u8], g: Galley, work: &mut [u32], sums: &[u32], words: &mut [u32], pass: Pass)
    requires { Sweep s.now g work.old sums.now words.old pass }
    ensures { SweepDone s.now g work.old work.new pass }
{
    if g.text.count < pass.reach.first {
        return;
    }
    let stop = sweep_stop(g, sums, pass);
    for c in 0..g.spec.sides as usize {
        sweep_side(s, g, work, sums, words, c, pass, stop);
        last_line(s, g, work, sums, c, pass);
    }
}
