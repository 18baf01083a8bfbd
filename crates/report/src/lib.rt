// The report on a term's marks: exact sums, least and greatest turns, and the excess over the engine (document 02, S-12).
#![tactic(auto)]

ghost use Rattle.std.specs.Prelude.{◌≡◌, ◌≤◌, length};
ghost use Rattle.report.specs.Report.{report_of};
ghost use Rattle.report.specs.Tally.{tally_of};

use crate::tally::{Tally, Total};
use model::answer::Refusal;

pub mod tally;

// The mark of one paper: its p, X, Y and T, and the T that the engine reaches for the same galley.
#[repr(C)]
#[derive(Clone, Copy)]
pub struct Mark {
    pub pages: u32,
    pub x: u32,
    pub y: u32,
    pub turns: u32,
    pub engine: u32,
}

// What the papers come to: how many there are, their four sums, the least and the greatest T, and the mean excess over the
// engine as a sum and a count.
#[derive(Clone, Copy)]
pub struct Totals {
    pub papers: Total,
    pub pages: Total,
    pub x: Total,
    pub y: Total,
    pub turns: Total,
    pub least: Total,
    pub greatest: Total,
    pub excess: Total,
    pub count: Total,
}

// The tally of all papers. It is no part of the report's own call: there the words of a refusal would lie over its sums, and each turn would
// take them apart.
#[inline(never)]
#[tactic(auto, unfolding(crate::specs::Tally::tally_of, crate::specs::Report::totals_of), using(crate::specs::laws::Tally::tally_none, crate::specs::laws::Tally::none_within))]
fn all_papers(marks: &[Mark]) -> Tally
    requires { length marks.now ≤ 10000 }
    ensures { result ≡ tally_of marks.now (length marks.now) }
{
    let mut tally = Tally::none();
    for i in 0..marks.len() {
        tally.add(&marks[i]);
    }
    tally
}

// The report on marks of any number: 31 where they are too many, then 32 where a paper is below its engine.
#[tactic(auto, unfolding(crate::specs::Report::report_of, crate::specs::Tally::tally_of))]
pub fn report_on(marks: &[Mark]) -> Result<Totals, Refusal>
    ensures { result ≡ report_of marks.now }
{
    if 10000 < marks.len() {
        return Err(Refusal {
            number: 31,
            place: 0,
        });
    }
    let tally = all_papers(marks);
    match tally.below {
        Some(paper) => Err(Refusal {
            number: 32,
            place: paper as u32,
        }),
        None => Ok(tally.totals),
    }
}
