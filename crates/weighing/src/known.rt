// The counts of pairs that are known. Where lines are alike, many pages have the same pairs, whatever floats stand beside their lines.
ghost use Rattle.std.specs.Prelude.{ℕ, List, IfSome};
ghost use Rattle.weighing.specs.Lines.{Pairable, Same, Pairs};
ghost use Rattle.weighing.specs.Known.{Covers, Knows};

use crate::lines::Tally;

// So many tallies are kept.
const ROWS: usize = 127;

// The tallies that were kept last, and the row that the next one takes; past the last row that is the first. `vain` goes up as rows are
// written and down as they are found again. Where they are not, as with lines of all heights, no more are written, since a wide tally takes
// longer.
#[derive(Clone, Copy)]
pub struct Known {
    pub rows: [Option<Tally>; ROWS],
    pub next: usize,
    pub vain: u32,
}

impl Known {
    // Nothing is known.
    pub fn nothing() -> Known
        ensures { (sums : List ℕ) (m first limit : ℕ) → Knows sums result m first limit }
    {
        Known {
            rows: [None; ROWS],
            next: 0,
            vain: 0,
        }
    }

    // The row that says how many pairs there are beside so much.
    fn row(&self, beside: u32) -> Option<Tally>
        ensures { IfSome result (λ row. Covers self.now beside row) }
    {
        for k in 0..ROWS {
            let row = self.rows[k]?;
            if row.from <= beside && beside < row.end {
                return Some(row);
            }
        }
        None
    }

    // A tally written as the next row, if it says something of what else may stand beside the lines.
    fn keep(&mut self, tally: Tally)
        ensures { (sums : List ℕ) (m first limit : ℕ) → Knows sums self.old m first limit → Same sums m first limit tally → Knows sums self.new m first limit }
    {
        if tally.end <= tally.from {
            return;
        }
        let at = self.next % ROWS;
        self.rows[at] = Some(tally);
        self.next = at + 1;
        self.vain = self.vain % 64 + 1;
    }
}

// How far a tally looks, where so many rows were written in vain.
fn widest(vain: u32) -> u32 {
    if vain < 8 { 1000000001 } else { 0 }
}

// The pairs of lines beside so much: what is known, or else what is counted, and known from now on.
pub fn pairs_beside(
    sums: &[u32],
    known: &mut Known,
    lines: usize,
    first: usize,
    beside: u32,
    limit: u32,
) -> u64
    requires { Pairable sums.now lines first beside limit × Knows sums.now known.old lines first limit }
    ensures { Pairs sums.now lines first beside limit result × Knows sums.now known.new lines first limit }
{
    if let Some(row) = known.row(beside) {
        known.vain = known.vain.saturating_sub(2);
        return u64::from(row.pairs);
    }
    let tally = crate::lines::line_pairs(sums, lines, first, beside, limit, widest(known.vain));
    known.keep(tally);
    u64::from(tally.pairs)
}
