// The pairs of lines before and after the lines of a page. For a page's last line the first ones are a window whose low end never
// falls, so that its width is what counts.
ghost use Rattle.std.specs.Prelude.{◌≡◌, ◌-◌, ◌≤◌, ◌<◌};
ghost use Rattle.weighing.specs.Lines.{Pairable, too_much, Comparable, Compared, WithLine, Same, Pairs};

use window::sums::TIGHT;

// So many pairs, and what else a page may have beside its lines for the same ones: from so much on and before so much.
#[derive(Clone, Copy)]
pub struct Tally {
    pub pairs: u32,
    pub from: u32,
    pub end: u32,
}

// The least beside the lines of a page from line a to line i that makes it higher than `limit`.
fn too_much(sums: &[u32], limit: u32, a: usize, i: usize) -> u32
    requires { Comparable sums.now limit a i }
    ensures { result ≡ too_much sums.now limit a i }
{
    let far = window::sums::bare(sums, TIGHT, i);
    (limit + 1 + window::sums::spaced(sums, TIGHT, a)).saturating_sub(far)
}

// The tally with the pairs that end with line i, which start from line `low` on, for what leaves them as they are: beside which a page from
// the line before `low`, if that is one to start from, is too high, and one from line `low`, if it has a line, is not. What is left of no
// tally is not narrowed further.
fn with_line(sums: &[u32], tally: Tally, first: usize, limit: u32, low: usize, i: usize) -> Tally
    requires { Compared sums.now limit low i × (tally.pairs ≤ 16004000) }
    ensures { WithLine sums.now tally first limit low i result }
{
    let mut next = Tally {
        pairs: tally.pairs + (i - low) as u32,
        ..tally
    };
    if tally.end <= tally.from {
        return next;
    }
    if first < low {
        next.from = next.from.max(too_much(sums, limit, low - 1, i));
    }
    if low < i {
        next.end = next.end.min(too_much(sums, limit, low, i));
    }
    next
}

// The pairs a before i of lines, a no earlier than `first`, whose page, with so much beside its lines, is at most `limit` high at its
// tightest; and beside how much before `end` they are the same.
pub fn line_pairs(
    sums: &[u32],
    lines: usize,
    first: usize,
    beside: u32,
    limit: u32,
    end: u32,
) -> Tally
    requires { Pairable sums.now lines first beside limit }
    ensures { Pairs sums.now lines first beside limit result.pairs × Same sums.now lines first limit result }
{
    let mut tally = Tally {
        pairs: 0,
        from: 0,
        end,
    };
    let mut low = first;
    for i in first..lines + 1 {
        low = window::slide::first_below(sums, TIGHT, beside, limit + 1, low, i);
        tally = with_line(sums, tally, first, limit, low, i);
    }
    tally
}
