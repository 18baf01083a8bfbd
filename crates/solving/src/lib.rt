// The best list out of a filled work area, and where making begins after an opening.
#![tactic(auto)]

ghost use Rattle.solving.specs.Solved.{Solved, Written};

use galley::Galley;
use model::answer::{Answer, Refusal};
use places::Origin;

pub mod opening; // opening.rt: where making begins after an opening

// The best list out of a filled work area: the opening and what follows it, written to the page list, and counted by marking it.
pub fn best_pages(
    s: &[u8],
    g: Galley,
    opening: &[u32],
    origin: Origin,
    work: &[u32],
    pages: &mut [u32],
) -> Answer
    requires { Solved s.now g opening.now origin work.now pages.old }
    ensures { Written s.now g opening.now pages.old result pages.new }
{
    let last = walk::last_stop(g, work);
    if !walk::reached(g, work, last) {
        return Err(Refusal {
            number: 11,
            place: 0,
        });
    }
    let p = walk::count_pages(g, work, origin, last);
    let begun = opening.len();
    crate::opening::copy_words(opening, pages);
    walk::write_pages(g, work, last, p, &mut pages[begun..]);
    let words = begun + blocks::page_words(g) * p;
    // The opening is part of the list, and what it costs part of the answer.
    let start = 0;
    marking::mark(s, &pages[start..words])
}
