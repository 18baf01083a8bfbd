// What a search asks of a galley that was read: its columns, sides, the full place, and the heights that a page must keep to.
ghost use Rattle.std.specs.Prelude.{◌≡◌, ◌≤◌};
ghost use Rattle.theorems.specs.pages.Graph.{side};
ghost use Rattle.galley.specs.Model.{sides_in};
ghost use Rattle.blocks.specs.Heights.{Separable};
ghost use Rattle.candidates.specs.Search.{begins};
ghost use Rattle.candidates.specs.Read.{columns_in, counts_at, FewFloats, side_of, load_of};

use blocks::Counts;
use blocks::heights::Heights;
use galley::Galley;
use places::Origin;
use window::slide::Load;

// How many columns there are: one for each number of figures and of tables placed so far.
pub fn columns_of(g: Galley) -> usize
    requires { FewFloats g }
    ensures { result ≡ columns_in g }
{
    (g.figures.count + 1) * (g.tables.count + 1)
}

// What is placed at a line and a column. Columns go by figures, then by tables.
pub fn counts_at(g: Galley, line: usize, column: usize) -> Counts
    requires { FewFloats g }
    ensures { result ≡ counts_at g line column }
{
    let wide = g.tables.count + 1;
    Counts {
        lines: line,
        figures: column / wide,
        tables: column % wide,
    }
}

// The side of a page by its number: 1 for an odd page of double-sided work, else 0.
pub fn side_of(g: Galley, page: u32) -> usize
    ensures { result ≡ side (sides_in g) page }
{
    if g.spec.sides == 2 {
        return (page % 2) as usize;
    }
    0
}

// Whether the search begins at a place on a side.
pub fn is_origin(g: Galley, origin: Origin, line: usize, column: usize, side: usize) -> bool
    ensures { result ≡ begins (sides_in g) origin line column side }
{
    (line == origin.place.line as usize)
        & ((column == origin.place.column as usize) & (side == side_of(g, origin.pages)))
}

// The side of the page before one on side c.
pub fn side_before(g: Galley, c: usize) -> usize
    requires { c ≤ 1 }
    ensures { result ≡ side_of g c }
{
    if g.spec.sides == 2 {
        return 1 - c;
    }
    0
}

// What a page of lines and these floats has beside its lines, with so many separations, the heights that it must keep to, and the first
// line that it may start from.
pub fn load_of(g: Galley, separations: u32, floats: Heights, least: u32, first: usize) -> Load
    requires { Separable g.spec separations floats }
    ensures { result ≡ load_of g separations floats least first }
{
    let page = blocks::heights::separated(g, separations, floats);
    Load {
        tight: page.tight,
        loose: page.loose,
        htmin: least,
        htmax: g.spec.htmax,
        first,
    }
}
