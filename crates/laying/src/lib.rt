// The heights of a page under way, block by block: first its lines, then its figures, then its tables.
#![tactic(auto)]

ghost use Rattle.std.specs.Prelude.{◌≡◌, ◌≤◌};
ghost use Rattle.galley.specs.Range.{SpecRanged};
ghost use Rattle.rules.specs.Parts.{kinds_on};
ghost use Rattle.laying.specs.Heights.{bare_page, is_laid, Open, with_next};

use blocks::Counts;
use blocks::heights::Heights;
use galley::Galley;

// The place up to which a page has its blocks, and its heights with them and with all its separations.
#[derive(Clone, Copy)]
pub struct Laid {
    pub on: Counts,
    pub heights: Heights,
}

// A page from u to v before its first block.
pub fn bare_page(g: Galley, u: Counts, v: Counts) -> Laid
    requires { (SpecRanged g.spec) × (1 ≤ kinds_on u v) }
    ensures { result ≡ bare_page g u v }
{
    let kinds = judging::kinds_on(u, v);
    let heights = blocks::heights::separated(g, kinds - 1, Heights { tight: 0, loose: 0 });
    Laid { on: u, heights }
}

// Whether a page that ends at v has all its blocks. The tests are those of `with_next`, so that they are made once.
pub fn is_laid(on: Counts, v: Counts) -> bool
    ensures { result ≡ is_laid on v }
{
    if on.lines < v.lines {
        return false;
    }
    if on.figures < v.figures {
        return false;
    }
    v.tables <= on.tables
}

// A page that has its blocks up to a place. The heights are handed on one by one, which keeps them in registers.
fn laid_on(on: Counts, heights: Heights) -> Laid
    ensures { result ≡ record { on = on; heights = heights } }
{
    Laid {
        on,
        heights: Heights {
            tight: heights.tight,
            loose: heights.loose,
        },
    }
}

// The page from u to v with its next block.
pub fn with_next(s: &[u8], g: Galley, u: Counts, v: Counts, laid: Laid) -> Laid
    requires { Open s.now g v laid }
    ensures { result ≡ with_next s.now g u v laid }
{
    let Laid { on, heights } = laid;
    if on.lines < v.lines {
        let more = blocks::heights::with_block(s, g.text, heights, u.lines, on.lines);
        return laid_on(
            Counts {
                lines: on.lines + 1,
                ..on
            },
            more,
        );
    }
    if on.figures < v.figures {
        let more = blocks::heights::with_block(s, g.figures, heights, u.figures, on.figures);
        return laid_on(
            Counts {
                figures: on.figures + 1,
                ..on
            },
            more,
        );
    }
    let more = blocks::heights::with_block(s, g.tables, heights, u.tables, on.tables);
    laid_on(
        Counts {
            tables: on.tables + 1,
            ..on
        },
        more,
    )
}
