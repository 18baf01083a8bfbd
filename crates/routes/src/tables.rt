// The chapter's tables from both folios, each in one half of the work area, and the routes that they tell.
ghost use Rattle.std.specs.Prelude.{◌≤◌};
ghost use Rattle.closings.specs.Chapter.{ChapterRoom};
ghost use Rattle.routes.specs.Tables.{FilledFrom, Halves, TwoTables, Halved, Stepped};

use crate::{Route, Routes, Step};
use galley::Galley;

// The chapter's table from a folio, where a route leads there.
fn fill_from(s: &[u8], g: Galley, route: Route, folio: u32, work: &mut [u32])
    requires { ChapterRoom s.now g work.old × (1 ≤ folio) × (folio ≤ 2) }
    ensures { FilledFrom s.now g route folio work.old work.new }
{
    if route.is_some() {
        closings::fill_chapter(s, closings::on_folio(g, folio), work);
    }
}

// The chapter's tables, from each folio that a route leads to.
pub fn fill_folios(s: &[u8], g: Galley, routes: Routes, half: usize, work: &mut [u32])
    requires { Halves s.now g half work.old }
    ensures { TwoTables s.now g routes half work.old work.new }
{
    fill_from(s, g, routes.one, 1, &mut work[..half]);
    fill_from(s, g, routes.two, 2, &mut work[half..]);
}

// The best route to each folio after the chapter, from both tables.
pub fn both_steps(g: Galley, routes: Routes, first: bool, half: usize, work: &[u32]) -> (Step, Step)
    requires { Halved g routes half work.now }
    ensures { Stepped g routes first half work.now result }
{
    let one = crate::offer::route_to(g, routes, first, 1, &work[..half], &work[half..]);
    let two = crate::offer::route_to(g, routes, first, 2, &work[..half], &work[half..]);
    (one, two)
}
