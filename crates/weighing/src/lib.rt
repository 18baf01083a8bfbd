// How many pages are weighed, in the plain sense: the pairs of start and end with something between them that is not too tall. Document
// 02, S-5. It is a pass of its own over heights, apart from the search.
#![tactic(auto)]

ghost use Rattle.std.specs.Prelude.{◌≡◌};
ghost use Rattle.model.specs.Weighed.{weighed_from};
ghost use Rattle.galley.specs.Model.{model_of};
ghost use Rattle.galley.specs.Sound.{Sound};
ghost use Rattle.blocks.specs.Counts.{place_of, Within};

use blocks::Counts;
use galley::Galley;

mod columns; // columns.rt: the pairs of columns where pages start and end
mod known; // known.rt: the counts that are known
pub mod lines; // lines.rt: the pairs of lines, for what a page has beside them

// The pages of a galley that are weighed and start at or past what is placed first, each once. A function by itself in the archive, too, so
// that its sums do not stand on the stack beside those of the table that is filled.
#[inline(never)]
pub fn weighed(s: &[u8], g: Galley, first: Counts) -> u64
    requires { (Sound s.now g) × (Within g first) }
    ensures { result ≡ weighed_from (model_of s.now g) (place_of g first) }
{
    // Three words to a line, for 4,000 lines and one before and one after them.
    let mut sums = [0u32; 12006];
    window::sums::gather(s, g.text, &mut sums);
    let mut known = known::Known::nothing();
    crate::columns::all_pairs(s, g, &sums, &mut known, first)
}
