// Where making begins after an opening. Document 02, S-6.
ghost use Rattle.std.specs.Prelude.{◌≡◌, ◌++◌, ◌≤◌, length, drop};
ghost use Rattle.galley.specs.Sound.{Sound};
ghost use Rattle.solving.specs.Begun.{Ending, origin_after, BegunAfter};

use galley::Galley;
use model::answer::Refusal;
use openings::Ends;
use places::{BOUNDLESS, Origin};

// The origin after the pages of an opening, from where they end, how many floats waited at the ends of their leaves and how much white was
// left.
fn origin_after(g: Galley, ends: Ends) -> Origin
    requires { Ending g ends.pages ends.at ends.sums }
    ensures { result ≡ origin_after g ends.pages ends.at ends.sums }
{
    let Ends { pages, at, sums } = ends;
    let column = at.figures * (g.tables.count + 1) + at.tables;
    Origin {
        place: places::place_of(at.lines, column),
        pages,
        cost: counting::printed_cost(g, pages, sums),
        limit: BOUNDLESS,
    }
}

// Where making begins after the opening that words name, or what turns it away.
pub fn begin_after(s: &[u8], g: Galley, opening: &[u32]) -> Result<Origin, Refusal>
    requires { Sound s.now g }
    ensures { BegunAfter s.now g opening.now result }
{
    let ends = openings::judge_opening(s, g, opening)?;
    Ok(origin_after(g, ends))
}

// The words of the opening over the first of the page list.
pub fn copy_words(opening: &[u32], pages: &mut [u32])
    requires { length opening.now ≤ length pages.old }
    ensures { pages.new ≡ opening.now ++ drop (length opening.now) pages.old }
{
    for i in 0..opening.len() {
        pages[i] = opening[i];
    }
}
