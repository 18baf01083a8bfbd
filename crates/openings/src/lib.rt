// An opening, pages already printed: what turns it away, or where it ends. Document 02, S-6.
#![tactic(auto)]

ghost use Rattle.std.specs.Prelude.{◌≡◌};
ghost use Rattle.galley.specs.Sound.{Sound};
ghost use Rattle.model.specs.Answers.{refused};
ghost use Rattle.openings.specs.Opening.{OpeningJudged, Ended};

use blocks::Counts;
use galley::Galley;
use marking::pages::Kept;
use model::answer::Refusal;
use rules::counts::Sums;

// Where an opening ends, after so many pages, and the floats that wait at the ends of its leaves and the white of its pages, summed.
#[derive(Clone, Copy, PartialEq, Eq, Debug)]
pub struct Ends {
    pub pages: u32,
    pub at: Counts,
    pub sums: Sums,
}

// An opening that is turned away.
fn refused(number: u32, place: u32) -> Result<Ends, Refusal>
    ensures { result ≡ refused number place }
{
    Err(Refusal { number, place })
}

// An opening whose pages break no rule: 21 where it places everything.
fn opening_end(g: Galley, pages: u32, at: Counts, sums: Sums) -> Result<Ends, Refusal>
    ensures { Ended g pages at sums result }
{
    if counting::all_placed(g, at) {
        return refused(21, pages);
    }
    Ok(Ends { pages, at, sums })
}

// The words of an opening judged: 20 for an incomplete page, before any page; then 20 for the first page that breaks a rule, where none
// counts as the last; then 21.
pub fn judge_opening(s: &[u8], g: Galley, opening: &[u32]) -> Result<Ends, Refusal>
    requires { Sound s.now g }
    ensures { OpeningJudged s.now g opening.now result }
{
    let words = blocks::page_words(g);
    if 0 < opening.len() % words {
        return refused(20, 0);
    }
    let pages = opening.len() / words;
    match marking::pages::judge_pages(s, g, opening, None) {
        Ok(Kept { at, sums }) => opening_end(g, pages as u32, at, sums),
        Err(Refusal { number: _, place }) => refused(20, place),
    }
}
