// What is weighed of all chapters of a book: whatever the folio on which a chapter opens.
ghost use Rattle.std.specs.Prelude.{◌≡◌};
ghost use Rattle.chapters.specs.Book.{chapters_in, book_of};
ghost use Rattle.chapters.specs.Steps.{Reads};
ghost use Rattle.course.specs.Weighed.{BookRead, all_weighed, ChapterWeighed};

use blocks::Counts;
use chapters::{Book, Chapters};

// How many pages of one chapter are weighed.
fn chapter_weighed(s: &[u8]) -> u64
    requires { Reads s.now }
    ensures { ChapterWeighed s.now result }
{
    let g = chapters::galley_in(s);
    let none = Counts {
        lines: 0,
        figures: 0,
        tables: 0,
    };
    weighing::weighed(s, g, none)
}

// How many pages of all chapters are.
pub fn all_weighed(chapters: Chapters<'_>, book: Book) -> u64
    requires { BookRead chapters.galleys.now chapters.lengths.now book }
    ensures { result ≡ all_weighed (chapters_in (book_of chapters.entry.galleys.now chapters.entry.lengths.now)) }
{
    let mut sum = 0;
    for k in 0..book.chapters {
        sum += chapter_weighed(chapters.bytes_of(k));
    }
    sum
}
