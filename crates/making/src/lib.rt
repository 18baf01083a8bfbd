// Making: the pagination with the fewest turns, for any bytes and any lent memory. Document 01, "Making"; document 02, S-6.
#![tactic(auto)]

ghost use Rattle.std.specs.Prelude.{MatchResult};
ghost use Rattle.making.specs.Make.{Made};
ghost use Rattle.making.specs.After.{MadeAfter};
ghost use Rattle.solving.specs.Solved.{Soluble};

use galley::Galley;
use model::answer::{Answer, Refusal};
use places::Origin;

// What making returns: its answer, and how many pages are weighed, in the plain sense (document 02, S-5).
#[derive(Clone, Copy)]
pub struct Making {
    pub answer: Answer,
    pub weighed: u64,
}

// Where a list is sought: the galley, where making begins in it, and the words of the work area that it needs.
#[derive(Clone, Copy)]
struct Begun {
    galley: Galley,
    origin: Origin,
    needed: usize,
}

// The galley that bytes hold, made where the lent memory is long enough and the opening stands; else the refusal of the galley, 9, 10, 20
// or 21.
fn begin(s: &[u8], opening: &[u32], work: &[u32], pages: &[u32]) -> Result<Begun, Refusal>
    ensures { MatchResult result
        (λ b. Soluble s.now b.galley opening.now b.origin b.needed work.now pages.now)
        (λ r. MadeAfter s.now opening.now work.now pages.now (Err r) 0 work.now pages.now) }
{
    let g = reading::read_galley(s)?;
    let needed = needs::work_needed(g);
    let room = needs::list_needed(g);
    if work.len() < needed {
        return Err(Refusal {
            number: 9,
            place: needed as u32,
        });
    }
    if pages.len() < room {
        return Err(Refusal {
            number: 10,
            place: room as u32,
        });
    }
    let origin = solving::opening::begin_after(s, g, opening)?;
    Ok(Begun {
        galley: g,
        origin,
        needed,
    })
}

// The best list from where an opening ends, in the words of the work area that the galley needs, which are cleared afterwards.
fn make_from(s: &[u8], begun: Begun, opening: &[u32], work: &mut [u32], pages: &mut [u32]) -> Making
    requires { Soluble s.now begun.galley opening.now begun.origin begun.needed work.old pages.old }
    ensures { MadeAfter s.now opening.now work.old pages.old result.answer result.weighed work.new pages.new }
{
    let Begun {
        galley: g,
        origin,
        needed,
    } = begun;
    let turns = estimate::first_limit(s, g, origin);
    let sought = limits::fill_far(s, g, origin, turns, work);
    let answer = solving::best_pages(s, g, opening, sought, work, pages);
    // What stands before the origin's column is zeros as it is.
    let early = places::words_needed(g.text.count, origin.place.column as usize);
    places::clear(work, early, needed);
    let line = origin.place.line as usize;
    let first = candidates::read::counts_at(g, line, origin.place.column as usize);
    let weighed = weighing::weighed(s, g, first);
    Making { answer, weighed }
}

// The best of the lists that begin with an opening already printed, for the galley that any bytes hold, or one refusal, and the count of
// what is weighed. The opening is only read, and nothing that the work area holds beforehand matters.
pub fn make_after(galley: &[u8], opening: &[u32], work: &mut [u32], pages: &mut [u32]) -> Making
    ensures { MadeAfter galley.now opening.now work.old pages.old result.answer result.weighed work.new pages.new }
{
    match begin(galley, opening, work, pages) {
        Ok(begun) => make_from(galley, begun, opening, work, pages),
        // Nothing is weighed before a list is sought.
        Err(refusal) => Making {
            answer: Err(refusal),
            weighed: 0,
        },
    }
}

// The best pages of the galley that any bytes hold, or one refusal, and the count of what is weighed: making after no opening.
pub fn make(galley: &[u8], work: &mut [u32], pages: &mut [u32]) -> Making
    ensures { Made galley.now work.old pages.old result.answer result.weighed work.new pages.new }
{
    let nothing = [0u32; 0];
    make_after(galley, &nothing, work, pages)
}
