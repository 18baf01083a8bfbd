// What each folio offers the next: its route through the chapter, by the best list that closes so; and which of two offers is taken.
ghost use Rattle.std.specs.Prelude.{◌≡◌, ◌≤◌};
ghost use Rattle.candidates.specs.Read.{table_in};
ghost use Rattle.walk.specs.Trace.{entry_of};
ghost use Rattle.routes.specs.Offer.{turn_to, Payable, Passed, Offering, closing_from, Comparing, decided, later_from, Arriving, Arrived};

use crate::{Cost, Route, Routes, Step};
use galley::Galley;
use places::Entry;

// What is turned to a chapter that opens on a folio: nothing to the first of the book.
fn crossing(g: Galley, first: bool, folio: u32) -> u64
    requires { 1 ≤ folio }
    ensures { result ≡ turn_to g first folio }
{
    if !first && model::page::side_ends(g.spec.sides, folio, 0) {
        u64::from(g.spec.beta)
    } else {
        0
    }
}

// A route that goes on by the best list which closes where this entry is.
fn through(route: Route, turn: u64, entry: Entry) -> Route
    requires { Payable route turn }
    ensures { Passed route turn entry result }
{
    let cost = route?;
    let least = entry?;
    Some(Cost {
        turns: cost.turns + turn + u64::from(places::high_of(least.cost)),
        white: cost.white + u64::from(places::low_of(least.cost)),
    })
}

// What a folio offers the next: its route through the chapter, whose table from that folio on the work area holds where a route leads
// there.
fn offered(g: Galley, route: Route, first: bool, folio: u32, next: u32, work: &[u32]) -> Route
    requires { Offering g route folio next work.now }
    ensures { Passed route (turn_to g first folio) (entry_of (table_in g work.now) (closing_from g folio next)) result }
{
    let at = closings::closing_stop(g, closings::closing_side(g, folio, next));
    let entry = closings::entry_at(g, work, at);
    through(route, crossing(g, first, folio), entry)
}

// The preferred of what both folios offer; at equal cost the starts in this chapter decide.
fn preferred(g: Galley, one: &[u32], two: &[u32], next: u32, a: Route, b: Route) -> Step
    requires { Comparing g one.now two.now next a b }
    ensures { result ≡ decided (later_from g one.now two.now next) a b }
{
    let Some(x) = a else {
        return Step { route: b, from: 2 };
    };
    let Some(y) = b else {
        return Step { route: a, from: 1 };
    };
    if x < y {
        return Step { route: a, from: 1 };
    }
    if y < x {
        return Step { route: b, from: 2 };
    }
    let first = closings::closing_stop(g, closings::closing_side(g, 1, next));
    let second = closings::closing_stop(g, closings::closing_side(g, 2, next));
    if closings::later_starts(g, one, two, first, second) {
        return Step { route: a, from: 1 };
    }
    Step { route: b, from: 2 }
}

// The best route to the next folio, where that occurs.
pub fn route_to(g: Galley, routes: Routes, first: bool, next: u32, one: &[u32], two: &[u32]) -> Step
    requires { Arriving g routes next one.now two.now }
    ensures { Arrived g routes first next one.now two.now result }
{
    if g.spec.sides < next {
        return Step {
            route: None,
            from: 1,
        };
    }
    let a = offered(g, routes.one, first, 1, next, one);
    let b = offered(g, routes.two, first, 2, next, two);
    preferred(g, one, two, next, a, b)
}
