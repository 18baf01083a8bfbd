// How far a search goes. Most of a table is far dearer than the best list: whatever costs more than that list cannot be part of it, since
// costs never fall from page to page. So the table is filled within a limit, which is a guess at what the best list costs, and where no
// list is found, without one.
#![tactic(auto)]

ghost use Rattle.std.specs.Prelude.{◌≡◌};
ghost use Rattle.filling.specs.Next.{Fillable};
ghost use Rattle.limits.specs.Sought.{within, limit_of, Tried, Sought};

use galley::Galley;
use places::{BOUNDLESS, Origin};

// Where a search begins, with another limit.
fn limited(origin: Origin, limit: u64) -> Origin
    ensures { result ≡ within limit origin }
{
    Origin { limit, ..origin }
}

// The limit of so many turns, with any white; none where they are more than a guess should say.
#[tactic(auto, unfolding(crate::specs::Sought::limit_of))]
fn limit_of(turns: u32) -> u64
    ensures { result ≡ limit_of turns }
{
    if 1000000000 < turns {
        return BOUNDLESS;
    }
    places::joined(4294967295, turns)
}

// The table filled within a limit, and whether the full place is reached.
fn fill_within(s: &[u8], g: Galley, origin: Origin, work: &mut [u32]) -> bool
    requires { Fillable s.now g origin work.old }
    ensures { Tried s.now g origin work.old work.new result }
{
    filling::fill::fill(s, g, origin, work);
    let last = walk::last_stop(g, work);
    walk::reached(g, work, last)
}

// The table filled within the turns that the pages after the origin are likely to have, and where that finds no list, without a limit:
// where the search began, with the limit that was enough.
pub fn fill_far(s: &[u8], g: Galley, origin: Origin, turns: u32, work: &mut [u32]) -> Origin
    requires { Fillable s.now g origin work.old }
    ensures { Sought s.now g origin work.old work.new result }
{
    let near = limited(origin, limit_of(turns));
    if fill_within(s, g, near, work) {
        return near;
    }
    let all = limited(origin, BOUNDLESS);
    filling::fill::fill(s, g, all, work);
    all
}
