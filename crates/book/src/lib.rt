// Making a book: the choice of chapter lists with the fewest turns, for any bytes, any lengths and any lent memory. Document 02, S-9.
#![tactic(auto)]

ghost use Rattle.std.specs.Prelude.{◌≡◌, ◌+◌, ◌-◌, ◌*◌, ◌≤◌};
ghost use Rattle.model.specs.Leaf.{leaf, sides_of};
ghost use Rattle.galley.specs.declared.Galley.{Galley};
ghost use Rattle.galley.specs.Whole.{galley_of};
ghost use Rattle.chapters.specs.Book.{chapter_bytes};
ghost use Rattle.chapters.specs.laws.Answer.{IsRead};
ghost use Rattle.book.specs.Make.{Bound};
ghost use Rattle.book.specs.Bind.{BookLent, RouteFound, AlongMade, Paged, Weighted, Countable, counted_of, Best};

use chapters::{Book, Chapters};
use course::Sums;
use model::answer::Refusal;
use model::page::Page;

// The counts of a book: its pages, X, Y, T and W.
#[derive(Clone, Copy, PartialEq, Eq, Debug)]
pub struct BookCounted {
    pub pages: u64,
    pub x: u64,
    pub y: u64,
    pub turns: u64,
    pub white: u64,
}

// What making a book returns: its counts or a refusal, and how many pages are weighed.
#[derive(Clone, Copy, PartialEq, Eq, Debug)]
pub struct BookMade {
    pub answer: Result<BookCounted, Refusal>,
    pub weighed: u64,
}

// A refusal, with the count of what is weighed.
fn refused(number: u32, place: u32, weighed: u64) -> BookMade
    ensures { result ≡ record { answer = Err (record { number = number; place = place }); weighed = weighed } }
{
    BookMade {
        answer: Err(Refusal { number, place }),
        weighed,
    }
}

// The chapters made along the best route, whose folios are followed back from the one after the book.
fn along(
    chapters: Chapters<'_>,
    book: Book,
    from: &[u32],
    last: u32,
    work: &mut [u32],
    pages: &mut [u32],
) -> Sums
    requires { RouteFound chapters.galleys.now chapters.lengths.now book from.now last work.old pages.old }
    ensures { AlongMade chapters.entry.galleys.now chapters.entry.lengths.now work.old pages.old result work.new pages.new }
{
    let mut folios = [0u32; 201];
    course::trace::trace(from, book.chapters, last, &mut folios);
    course::make_chapters(chapters, book, &folios, work, pages)
}

// The leaves turned from the first page of a book to its last.
fn leaves(sides: u32, folio: u32, pages: u64) -> u64
    requires { Paged folio pages }
    ensures { (result ≡ leaf (sides_of sides folio) pages - leaf (sides_of sides folio) 1) × (result ≤ 4294967295) }
{
    let first = model::page::spread_of(sides, folio, Page(1));
    let last = model::page::spread_of(sides, folio, Page(pages as u32));
    u64::from(last.0 - first.0)
}

// X and Y by their weights.
fn turned(alpha: u32, x: u64, beta: u32, y: u64) -> u64
    requires { Weighted alpha x beta y }
    ensures { result ≡ alpha * x + beta * y }
{
    u64::from(alpha) * x + u64::from(beta) * y
}

// The counts of the book: Y is that of its first and last page, and T follows.
fn counted(chapters: Chapters<'_>, sums: Sums, weighed: u64) -> BookMade
    requires { Countable chapters.galleys.now chapters.lengths.now sums }
    ensures { (g : Galley) → galley_of (chapter_bytes chapters.entry.galleys.now chapters.entry.lengths.now 0) ≡ Ok g → result ≡ counted_of g sums weighed }
{
    let g = chapters::galley_in(chapters.bytes_of(0));
    let y = leaves(g.spec.sides, g.folio, sums.pages);
    BookMade {
        answer: Ok(BookCounted {
            pages: sums.pages,
            x: sums.x,
            y,
            turns: turned(g.spec.alpha, sums.x, g.spec.beta, y),
            white: sums.white,
        }),
        weighed,
    }
}

// The best choice in memory that is long enough: the routes, then the chapters along the best of them.
fn bind(chapters: Chapters<'_>, book: Book, work: &mut [u32], pages: &mut [u32]) -> BookMade
    requires { BookLent chapters.galleys.now chapters.lengths.now book work.old pages.old }
    ensures { Best chapters.entry.galleys.now chapters.entry.lengths.now work.old pages.old result work.new pages.new }
{
    let weighed = course::weighed::all_weighed(chapters, book);
    let mut from = [0u32; 400];
    let ends = routes::all_routes(chapters, book, work, &mut from);
    let Some(last) = routes::best_end(ends) else {
        return refused(11, 0, weighed);
    };
    let sums = along(chapters, book, &from, last, work, pages);
    counted(chapters, sums, weighed)
}

// A book that was read, made where the lent memory is long enough: 9, then 10. The work words are cleared afterwards.
fn make_read(chapters: Chapters<'_>, book: Book, work: &mut [u32], pages: &mut [u32]) -> BookMade
    requires { IsRead chapters.galleys.now chapters.lengths.now book }
    ensures { Bound chapters.entry.galleys.now chapters.entry.lengths.now work.old pages.old result work.new pages.new }
{
    let needed = 2 * book.largest;
    if work.len() < needed {
        return refused(9, needed as u32, 0);
    }
    if pages.len() < book.list {
        return refused(10, book.list as u32, 0);
    }
    let made = bind(chapters, book, &mut work[..needed], pages);
    places::clear(work, 0, needed);
    made
}

// The best pages of the book that any bytes and lengths hold, or one refusal, and the count of what is weighed.
pub fn make_book(galleys: &[u8], lengths: &[u32], work: &mut [u32], pages: &mut [u32]) -> BookMade
    ensures { Bound galleys.now lengths.now work.old pages.old result work.new pages.new }
{
    match chapters::read_book(galleys, lengths) {
        Ok(book) => make_read(Chapters { galleys, lengths }, book, work, pages),
        Err(refusal) => BookMade {
            answer: Err(refusal),
            weighed: 0,
        },
    }
}
