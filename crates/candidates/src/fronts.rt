// The best start that the queues of a window's two parts hold.
ghost use Rattle.std.specs.Prelude.{◌≡◌};
ghost use Rattle.candidates.specs.Fronts.{best_front, Fronted};

use places::Entry;
use queues::parts::Parts;
use window::slide::Load;
use window::sums::LOOSE;

// The better of the two fronts for a page to line i, which starts in a column: that of the full pages, and that of the others with their
// white.
pub fn best_front(
    sums: &[u32],
    words: &[u32],
    parts: Parts,
    column: usize,
    load: Load,
    i: usize,
) -> Entry
    requires { Fronted sums.now words.now parts column load i }
    ensures { result ≡ best_front sums.now words.now parts column load i }
{
    let full = queues::queue::front(words, parts.full, column);
    let rest = queues::queue::front(words, parts.rest, column);
    let reached = window::slide::reached(sums, LOOSE, load.loose, i);
    crate::choice::choose_later(full, queues::parts::whitened(rest, load.htmax, reached))
}
