// The best route to each folio on which the next chapter may open, chapter after chapter. Folios are 1 and 2: only the parity matters.
#![tactic(auto)]

ghost use Rattle.std.specs.Prelude.{◌≡◌, length};
ghost use Rattle.routes.specs.Routes.{best_end, first_routes};
ghost use Rattle.routes.specs.Room.{BookRoom};
ghost use Rattle.routes.specs.Next.{NextRoom, Onward, Lies, Opens, AllRouted};

use chapters::{Book, Chapters};
use galley::Galley;

pub mod offer; // offer.rt: what each folio offers the next, and which offer is taken
mod tables; // tables.rt: the chapter's tables from both folios, and the routes that they tell

// The turns and the white of a choice. The less cost is that of fewer turns, then of less white.
#[derive(Clone, Copy, PartialEq, Eq, PartialOrd, Ord)]
pub struct Cost {
    pub turns: u64,
    pub white: u64,
}

// What is known of the choices that lead to a folio: that there is none, or what the best of them costs.
pub type Route = Option<Cost>;

// The routes to folios 1 and 2.
#[derive(Clone, Copy)]
pub struct Routes {
    pub one: Route,
    pub two: Route,
}

// A route, and the folio that it comes from.
#[derive(Clone, Copy)]
pub struct Step {
    pub route: Route,
    pub from: u32,
}

// The folio after the best of all choices, where there is one: at equal cost 1, before which the last folio is even.
pub fn best_end(ends: Routes) -> Option<u32>
    ensures { result ≡ best_end ends.one ends.two }
{
    match (ends.one, ends.two) {
        (None, None) => None,
        (None, Some(_)) => Some(2),
        (Some(_), None) => Some(1),
        (Some(one), Some(two)) => Some(if two < one { 2 } else { 1 }),
    }
}

// The routes after chapter k, and where they come from.
fn next_routes(
    s: &[u8],
    k: usize,
    routes: Routes,
    half: usize,
    work: &mut [u32],
    from: &mut [u32],
) -> Routes
    requires { NextRoom s.now k routes half work.old from.old }
    ensures { Onward s.now k routes from.old result from.new }
{
    let g = chapters::galley_in(s);
    tables::fill_folios(s, g, routes, half, work);
    let (one, two) = tables::both_steps(g, routes, k == 0, half, work);
    from[2 * k] = one.from;
    from[2 * k + 1] = two.from;
    Routes {
        one: one.route,
        two: two.route,
    }
}

// Before the first chapter one route leads to its folio, at no cost.
fn first_routes(g: Galley) -> Routes
    ensures { result ≡ first_routes g.spec.sides g.folio }
{
    let none = Some(Cost { turns: 0, white: 0 });
    if g.spec.sides == 2 && g.folio % 2 == 0 {
        Routes {
            one: None,
            two: none,
        }
    } else {
        Routes {
            one: none,
            two: None,
        }
    }
}

// The routes before the first chapter of a book.
fn opening_routes(chapters: Chapters<'_>) -> Routes
    requires { Lies chapters.galleys.now chapters.lengths.now 0 }
    ensures { Opens chapters.entry.galleys.now chapters.entry.lengths.now result }
{
    first_routes(chapters::galley_in(chapters.bytes_of(0)))
}

// The routes after all chapters.
pub fn all_routes(chapters: Chapters<'_>, book: Book, work: &mut [u32], from: &mut [u32]) -> Routes
    requires { BookRoom chapters.galleys.now chapters.lengths.now book work.old × (length from.old ≡ 400) }
    ensures { AllRouted chapters.entry.galleys.now chapters.entry.lengths.now work.old work.new result from.new }
{
    let mut routes = opening_routes(chapters);
    for k in 0..book.chapters {
        let chapter = chapters.bytes_of(k);
        routes = next_routes(chapter, k, routes, book.largest, work, from);
    }
    routes
}
