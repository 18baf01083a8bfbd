// The counts of a list whose pages were judged: p, X, Y, T and W, and what printed pages cost. Document 01, "Marking".
#![tactic(auto)]

ghost use Rattle.std.specs.Prelude.{◌≡◌, ◌+◌};
ghost use Rattle.rules.specs.Parts.{leaves_turned, PageLimits, CountLimits, all_placed, finished, printed_cost};
ghost use Rattle.rules.specs.Sums.{Addable, with_page};

use blocks::Counts;
use galley::Galley;
use model::answer::{Answer, Counted, Refusal};
use model::page::Page;
use rules::counts::Sums;
use rules::waiting::Waiting;

// The sums with one page more: so many floats wait at its end, and this is its loosest height.
pub fn with_page(
    g: Galley,
    page: Page,
    last: bool,
    loose: u32,
    waiting: Waiting,
    sums: Sums,
) -> Sums
    requires { Addable g waiting sums }
    ensures { result ≡ with_page g page.0 last loose waiting sums }
{
    Sums {
        x: sums.x + rules::waiting::waiting_at(g, page, waiting.figures + waiting.tables),
        white: sums.white + rules::counts::white_at(g, last, loose),
    }
}

// Y: the leaves turned from the first of so many pages to the last.
fn leaves_turned(g: Galley, pages: u32) -> u32
    requires { PageLimits g pages }
    ensures { result ≡ leaves_turned g pages }
{
    let first = model::page::spread_of(g.spec.sides, g.folio, Page(1));
    let last = model::page::spread_of(g.spec.sides, g.folio, Page(pages));
    last.0 - first.0
}

// Whether every block is placed.
pub fn all_placed(g: Galley, at: Counts) -> bool
    ensures { result ≡ all_placed g at }
{
    at == Counts {
        lines: g.text.count,
        figures: g.figures.count,
        tables: g.tables.count,
    }
}

// What so many printed pages cost, after which a page follows: the floats that waited where a leaf ends, by α, and the leaves turned, by β,
// in the upper half, and their white in the lower.
pub fn printed_cost(g: Galley, pages: u32, sums: Sums) -> u64
    requires { CountLimits g (pages + 1) sums.x }
    ensures { result ≡ printed_cost g pages sums }
{
    let y = leaves_turned(g, pages + 1);
    let turns = g.spec.alpha * sums.x + g.spec.beta * y;
    u64::from(turns) * 4294967296 + u64::from(sums.white)
}

// 18 where the last page does not end at the full place, else p, X, Y, T, W.
pub fn finish(g: Galley, pages: u32, at: Counts, sums: Sums) -> Answer
    requires { CountLimits g pages sums.x }
    ensures { result ≡ finished g pages at sums }
{
    if !all_placed(g, at) {
        return Err(Refusal {
            number: 18,
            place: pages,
        });
    }
    let y = leaves_turned(g, pages);
    Ok(Counted {
        pages,
        x: sums.x,
        y,
        turns: g.spec.alpha * sums.x + g.spec.beta * y,
        white: sums.white,
    })
}
