// Marking a page list: for any bytes and any words the counts of a pagination or one numbered refusal. Nothing is written.
// Document 01, "Marking".
#![tactic(auto)]

ghost use Rattle.std.specs.Prelude.{◌≡◌};
ghost use Rattle.marking.specs.Mark.{mark_of};

use model::answer::Answer;

pub mod pages; // pages.rt: the loop over pages

// The marking of any words for any bytes. A refused galley is refused alike; the time is proportional to the pages of the
// list and the lines, figures and tables on them.
pub fn mark(galley: &[u8], list: &[u32]) -> Answer
    ensures { result ≡ mark_of galley.now list.now }
{
    let g = reading::read_galley(galley)?;
    pages::mark_read(galley, g, list)
}
