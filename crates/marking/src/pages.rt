// The loop over pages.
ghost use Rattle.std.specs.Prelude.{◌≡◌, ◌+◌, ◌≤◌, length, unwrap_or};
ghost use Rattle.galley.specs.Model.{model_of};
ghost use Rattle.galley.specs.Sound.{Sound};
ghost use Rattle.blocks.specs.Counts.{page_words, counts_in};
ghost use Rattle.model.specs.Answers.{marked};
ghost use Rattle.marking.specs.Parts.{WholePages, CountedPages};
ghost use Rattle.marking.specs.Judged.{JudgedPages};

use blocks::Counts;
use galley::Galley;
use model::answer::{Answer, Refusal};
use model::page::Page;
use rules::counts::Sums;
use rules::waiting::Waiting;

// The place where a page ends whose words stand from number `from` on. Without tables a page has no third word.
fn page_at(g: Galley, list: &[u32], from: usize) -> Counts
    requires { from + page_words g ≤ length list.now }
    ensures { result ≡ counts_in g list.now from }
{
    Counts {
        lines: list[from] as usize,
        figures: list[from + 1] as usize,
        tables: if g.tables.count == 0 {
            0
        } else {
            list[from + 2] as usize
        },
    }
}

// What pages come to that break no rule: where the last ends, and the floats that wait at the ends of leaves and the white of the pages,
// summed.
#[derive(Clone, Copy, PartialEq, Eq, Debug)]
pub struct Kept {
    pub at: Counts,
    pub sums: Sums,
}

// The pages of a list judged, of which page number `last`, if there is one, counts as the last of its list. The first page that breaks a
// rule refuses them, by the first of 13 to 17 that it breaks.
pub fn judge_pages(s: &[u8], g: Galley, list: &[u32], last: Option<usize>) -> Result<Kept, Refusal>
    requires { WholePages s.now g list.now }
    ensures { JudgedPages s.now g list.now (unwrap_or last 0) result }
{
    let words = blocks::page_words(g);
    let mut at = Counts::default();
    let mut waiting = Waiting::default();
    let mut sums = Sums::default();
    'pages: {
        for done in 0..list.len() / words {
            let place = (done + 1) as u32;
            let v = page_at(g, list, words * done);
            if let Some(number) = judging::start_fault(s, g, at, v) {
                break 'pages Err(Refusal { number, place });
            }
            // The heights are looked at before each block and after the last.
            let mut laid = laying::bare_page(g, at, v);
            loop {
                if g.spec.htmax < laid.heights.tight {
                    break 'pages Err(Refusal { number: 15, place });
                }
                if laying::is_laid(laid.on, v) {
                    break;
                }
                laid = laying::with_next(s, g, at, v, laid);
            }
            let loose = laid.heights.loose;
            let closing = last == Some(done + 1);
            if let Some(number) = judging::end_fault(s, g, loose, Page(place), closing, v) {
                break 'pages Err(Refusal { number, place });
            }
            waiting = rules::waiting::waiting_on(s, g, at, v, waiting);
            sums = counting::with_page(g, Page(place), closing, loose, waiting, sums);
            at = v;
        }
        Ok(Kept { at, sums })
    }
}

// The answer for a list of so many pages, all but the last of which another follows: the first page that breaks a rule, then 18.
fn judge_list(s: &[u8], g: Galley, list: &[u32], pages: usize) -> Answer
    requires { CountedPages s.now g list.now pages }
    ensures { result ≡ marked (model_of s.now g) list.now }
{
    let Kept { at, sums } = judge_pages(s, g, list, Some(pages))?;
    counting::finish(g, pages as u32, at, sums)
}

// The answer for a galley that reads without refusal: 12 before any page, then the pages.
pub fn mark_read(s: &[u8], g: Galley, list: &[u32]) -> Answer
    requires { Sound s.now g }
    ensures { result ≡ marked (model_of s.now g) list.now }
{
    if !judging::is_counted(g, list.len()) {
        return Err(Refusal {
            number: 12,
            place: 0,
        });
    }
    judge_list(s, g, list, list.len() / blocks::page_words(g))
}
