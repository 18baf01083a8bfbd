// The best starts of pages that end in a column and start in an earlier one, for all places of the column at once: for each earlier
// column one pass. Columns are taken back in their order, row by row: a row has as many figures throughout, and its columns
// differ in tables.
ghost use Rattle.std.specs.Prelude.{◌≡◌, ◌+◌, ◌≤◌};
ghost use Rattle.starts.specs.Sweep.{Layable, floats_alone, row_top};
ghost use Rattle.starts.specs.Swept.{ColumnSweep, ColumnSwept, RowSweep, RowSwept};

use blocks::Counts;
use blocks::heights::Heights;
use galley::Galley;
use passes::pass::Pass;

// What is placed where the search begins, and the column from which on all that are reached were seen.
#[derive(Clone, Copy)]
pub struct Begin {
    pub origin: Counts,
    pub since: usize,
}

// The columns with so many figures, for pages that end in column `to`, where so much is placed: the figures between have these
// heights.
#[derive(Clone, Copy)]
pub struct Row {
    pub begin: Begin,
    pub figures: usize,
    pub heights: Heights,
    pub end: Counts,
    pub to: usize,
    pub least: u32,
}

// The heights of a page of figures and tables alone, apart where it has both.
pub fn floats_alone(g: Galley, figures: Heights, tables: Heights, both: bool) -> Heights
    requires { Layable g.spec figures tables }
    ensures { result ≡ floats_alone g.spec figures tables both }
{
    let floats = Heights {
        tight: figures.tight + tables.tight,
        loose: figures.loose + tables.loose,
    };
    if both {
        blocks::heights::separated(g, 1, floats)
    } else {
        floats
    }
}

// The tables of the columns that a row has to offer are fewer than this: no more than the end's, and in its own row fewer.
fn row_top(row: Row) -> usize
    requires { row.end.tables ≤ 50 }
    ensures { result ≡ row_top row }
{
    if row.figures < row.end.figures {
        row.end.tables + 1
    } else {
        row.end.tables
    }
}

// The best starts in the columns of a row, for every place of the column where the pages end: back to the first whose floats to that
// column are too tall alone, or to the tables of the origin. One that is known not to be reached, since it is not among
// those `seen`, is not looked at. Whether any of them is reached: where none is, no place has a start among them.
fn sweep_row(
    s: &[u8],
    g: Galley,
    work: &mut [u32],
    sums: &[u32],
    words: &mut [u32],
    seen: &[u32],
    row: Row,
) -> bool
    requires { RowSweep s.now g work.old sums.now words.old seen.now row }
    ensures { RowSwept s.now g work.old work.new row result }
{
    let row_from = row.figures * (g.tables.count + 1);
    let mut tables = Heights { tight: 0, loose: 0 };
    let mut any = false;
    for t in (row.begin.origin.tables..row_top(row)).rev() {
        tables = blocks::heights::block_before(s, g.tables, tables, t, row.end.tables);
        let both = (row.figures < row.end.figures) & (t < row.end.tables);
        let floats = floats_alone(g, row.heights, tables, both);
        if g.spec.htmax < floats.tight {
            return any;
        }
        let from = row_from + t;
        let line = row.begin.origin.lines;
        let reach = reached::look::reach_in(g, work, seen, from, row.begin.since, line);
        let Some(reach) = reach else {
            continue;
        };
        let pass = Pass {
            from,
            to: row.to,
            heights: floats,
            least: row.least,
            white: rules::counts::white_at(g, false, floats.loose),
            reach,
        };
        passes::pass::sweep(s, g, work, sums, words, pass);
        any = true;
    }
    any
}

// The best starts in the columns before j, for every place of column j: row by row, back to the first whose figures to column j are
// too tall alone, or to the figures of the origin. The search begins where the origin is placed, and nothing before it is a start; nor
// is anything in a column from `begin.since` on that is not among those `seen`. Whether any column is reached that was swept.
pub fn sweep_column(
    s: &[u8],
    g: Galley,
    work: &mut [u32],
    sums: &[u32],
    words: &mut [u32],
    seen: &[u32],
    j: usize,
    begin: Begin,
) -> bool
    requires { ColumnSweep s.now g work.old sums.now words.old seen.now j begin }
    ensures { ColumnSwept s.now g work.old work.new j result }
{
    let end = candidates::read::counts_at(g, 0, j);
    let least = rules::rules::floor_of(g, false);
    let mut heights = Heights { tight: 0, loose: 0 };
    let mut any = false;
    for b in (begin.origin.figures..end.figures + 1).rev() {
        heights = blocks::heights::block_before(s, g.figures, heights, b, end.figures);
        if g.spec.htmax < heights.tight {
            return any;
        }
        let row = Row {
            begin,
            figures: b,
            heights,
            end,
            to: j,
            least,
        };
        let some = sweep_row(s, g, work, sums, words, seen, row);
        any |= some;
    }
    any
}
