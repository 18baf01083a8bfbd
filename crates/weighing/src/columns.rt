// The pages that are weighed, by the columns where they start and end. Columns are taken back row by row, as the search takes them: a row
// has as many figures throughout, and its columns differ in tables. Here the end's own column counts among its starts.
ghost use Rattle.std.specs.Prelude.{◌≡◌, ◌≤◌};
ghost use Rattle.model.specs.Galley as model;
ghost use Rattle.model.specs.Weighed.{weighed_from};
ghost use Rattle.galley.specs.Model.{model_of};
ghost use Rattle.blocks.specs.Counts.{place_of};
ghost use Rattle.window.specs.Sums.{Sums};
ghost use Rattle.weighing.specs.Count.{pairs_between, Weighable, Between, CountableColumn, ColumnCounted, KnownOf};

use crate::known::Known;
use blocks::Counts;
use blocks::heights::Heights;
use galley::Galley;

// The pages from a column to another whose floats between are so high alone, none where that is too tall; without floats between, within
// a column. They start at line `first` or past it.
fn pairs_between(
    g: Galley,
    sums: &[u32],
    known: &mut Known,
    first: usize,
    floats: u32,
    some: bool,
) -> u64
    requires { Between g sums.now first floats × KnownOf g sums.now first known.old }
    ensures { (result ≤ 16008001) × ((st : model.Stream) → Sums st g.text.count sums.now → result ≡ pairs_between st g first floats some) × KnownOf g sums.now first known.new }
{
    if g.spec.htmax < floats {
        return 0;
    }
    let lines = g.text.count;
    if some {
        let beside = floats + g.spec.smin;
        // The floats alone are a page after any number of lines.
        let alone = (lines - first) as u64 + 1;
        return crate::known::pairs_beside(sums, known, lines, first, beside, g.spec.htmax) + alone;
    }
    crate::known::pairs_beside(sums, known, lines, first, 0, g.spec.htmax)
}

// The pages that end in column q, by the columns where they start, from its own back: row by row to the figures placed first, and in a row a
// table more on the page each time, to the tables placed first or until the floats are too tall alone.
fn pairs_into(s: &[u8], g: Galley, sums: &[u32], known: &mut Known, first: Counts, q: usize) -> u64
    requires { CountableColumn s.now g sums.now first q × KnownOf g sums.now first.lines known.old }
    ensures { ColumnCounted s.now g first q result × KnownOf g sums.now first.lines known.new }
{
    let end = candidates::read::counts_at(g, 0, q);
    if (end.figures < first.figures) | (end.tables < first.tables) {
        return 0;
    }
    let mut pairs: u64 = 0;
    let mut figures = Heights { tight: 0, loose: 0 };
    for b in (first.figures..end.figures + 1).rev() {
        figures = blocks::heights::block_before(s, g.figures, figures, b, end.figures);
        let mut tables = Heights { tight: 0, loose: 0 };
        for t in (first.tables..end.tables + 1).rev() {
            tables = blocks::heights::block_before(s, g.tables, tables, t, end.tables);
            let figured = b < end.figures;
            let tabled = t < end.tables;
            let floats = starts::sweep::floats_alone(g, figures, tables, figured & tabled);
            pairs += pairs_between(g, sums, known, first.lines, floats.tight, figured | tabled);
            if g.spec.htmax < floats.tight {
                // Where figures alone are too tall, so are they with one more.
                let bare = end.tables <= t;
                if bare {
                    return pairs;
                }
                break;
            }
        }
    }
    pairs
}

// All pages that start at or past what is placed first.
pub fn all_pairs(s: &[u8], g: Galley, sums: &[u32], known: &mut Known, first: Counts) -> u64
    requires { Weighable s.now g sums.now first × KnownOf g sums.now first.lines known.old }
    ensures { result ≡ weighed_from (model_of s.now g) (place_of g first) }
{
    let columns = candidates::read::columns_of(g);
    let mut pairs: u64 = 0;
    for q in 0..columns {
        pairs += pairs_into(s, g, sums, known, first, q);
    }
    pairs
}
