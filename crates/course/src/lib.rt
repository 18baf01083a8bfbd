// The chapters of a book made along the best route, each from its folio to the next. Document 02, S-9.
#![tactic(auto)]

ghost use Rattle.std.specs.Prelude.{◌≤◌};
ghost use Rattle.course.specs.Course.{Small, WithAnswer, NextChapter, NextMade, CourseRoom, CourseMade};

use chapters::{Book, Chapters};
use model::answer::Answer;

mod chapter; // chapter.rt: one chapter made
pub mod trace; // trace.rt: the folios of the best route, followed back
pub mod weighed; // weighed.rt: what is weighed of all chapters

// What the chapters made so far come to: where the next page's words go, and their pages, X and white.
#[derive(Clone, Copy)]
pub struct Sums {
    pub at: usize,
    pub pages: u64,
    pub x: u64,
    pub white: u64,
}

// The sums with a chapter's counts, whose pages have so many words each.
fn with_chapter(sums: Sums, words: usize, answer: Answer) -> Sums
    requires { (Small sums) × (words ≤ 3) }
    ensures { WithAnswer sums words answer result }
{
    let Ok(counted) = answer else {
        return sums;
    };
    Sums {
        at: sums.at + words * counted.pages as usize,
        pages: sums.pages + u64::from(counted.pages),
        x: sums.x + u64::from(counted.x),
        white: sums.white + u64::from(counted.white),
    }
}

// One chapter more, from its folio to the next: its pages follow those of the chapters before.
fn next_chapter(
    s: &[u8],
    folio: u32,
    next: u32,
    sums: Sums,
    work: &mut [u32],
    pages: &mut [u32],
) -> Sums
    requires { NextChapter s.now folio next sums work.old pages.old }
    ensures { NextMade s.now folio next sums work.old pages.old result work.new pages.new }
{
    let g = closings::on_folio(chapters::galley_in(s), folio);
    let side = closings::closing_side(g, folio, next);
    let at = sums.at;
    let answer = chapter::make_chapter(s, g, side, work, &mut pages[at..]);
    with_chapter(sums, blocks::page_words(g), answer)
}

// All chapters, one after another, by the folios on which they open and the one after the book.
pub fn make_chapters(
    chapters: Chapters<'_>,
    book: Book,
    folios: &[u32],
    work: &mut [u32],
    pages: &mut [u32],
) -> Sums
    requires { CourseRoom chapters.galleys.now chapters.lengths.now book folios.now work.old pages.old }
    ensures { CourseMade chapters.entry.galleys.now chapters.entry.lengths.now folios.now work.old pages.old result work.new pages.new }
{
    let mut sums = Sums {
        at: 0,
        pages: 0,
        x: 0,
        white: 0,
    };
    for k in 0..book.chapters {
        let chapter = chapters.bytes_of(k);
        sums = next_chapter(chapter, folios[k], folios[k + 1], sums, work, pages);
    }
    sums
}
