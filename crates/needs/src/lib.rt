// The words that a galley needs of lent memory: document 01, "Making".
#![tactic(auto)]

ghost use Rattle.std.specs.Prelude.{◌≡◌};
ghost use Rattle.needs.specs.Needs.{Few, work_needed, list_needed};

use galley::Galley;

// The words of the work area: those of all its places.
pub fn work_needed(g: Galley) -> usize
    requires { Few g }
    ensures { result ≡ work_needed g }
{
    places::words_needed(g.text.count, (g.figures.count + 1) * (g.tables.count + 1))
}

// The words of the page list: there are no more pages than blocks.
pub fn list_needed(g: Galley) -> usize
    requires { Few g }
    ensures { result ≡ list_needed g }
{
    blocks::page_words(g) * (g.text.count + g.figures.count + g.tables.count)
}
