// Reading a book: chapters lent end to end, with a list of their lengths. Document 02, S-9.
#![tactic(auto)]

ghost use Rattle.std.specs.Prelude.{◌≡◌};
ghost use Rattle.galley.specs.Place.{spec_size};
ghost use Rattle.galley.specs.Whole.{galley_of};
ghost use Rattle.needs.specs.Needs.{Few};
ghost use Rattle.chapters.specs.Book.{has_folio, chapters_of, book_of, reading_of};
ghost use Rattle.chapters.specs.Steps.{Reads, read_as, Opened, Roomy, with_chapter, unfit_after};

use galley::{Galley, Reading, Spec};
use model::answer::Refusal;

pub mod extent; // extent.rt: where a chapter stands in the bytes

// The chapters of a book as they are lent: the bytes of their galleys, end to end, and the list of their lengths.
#[derive(Clone, Copy)]
pub struct Chapters<'a> {
    pub galleys: &'a [u8],
    pub lengths: &'a [u32],
}

// A book that was read: how many chapters it has, the words of the work area that the largest of them needs, and the words of the
// page list that all of them need.
#[derive(Clone, Copy)]
pub struct Book {
    pub chapters: usize,
    pub largest: usize,
    pub list: usize,
}

// The bytes of a specification, by its edition.
fn spec_size(edition: u32) -> usize
    ensures { result ≡ spec_size edition }
{
    if edition == 2 { 34 } else { 30 }
}

// Whether an `FO` stands between the specification and line 1.
fn has_folio(g: Galley) -> bool
    ensures { result ≡ has_folio g }
{
    spec_size(g.spec.edition) < g.text.first
}

// What makes a galley unfit to come after a chapter with this specification: 29, then 30.
fn unfit_after(first: Spec, g: Galley) -> Option<u32>
    ensures { result ≡ unfit_after first g }
{
    if first != g.spec {
        return Some(29);
    }
    if has_folio(g) {
        return Some(30);
    }
    None
}

// The book with one chapter more.
fn with_chapter(book: Book, g: Galley) -> Book
    requires { (Roomy book) × (Few g) }
    ensures { result ≡ with_chapter book g }
{
    Book {
        chapters: book.chapters + 1,
        largest: book.largest.max(needs::work_needed(g)),
        list: book.list + needs::list_needed(g),
    }
}

// The galley of the chapter with this number, from 1, which is the place of its refusal.
fn chapter_read(bytes: &[u8], number: u32) -> Reading
    ensures { result ≡ read_as number (galley_of bytes.now) }
{
    reading::read_galley(bytes).map_err(|refusal| Refusal {
        place: number,
        ..refusal
    })
}

// The book, once its first chapter is read: chapter by chapter, each from where the one before it ends.
fn read_later(chapters: Chapters<'_>, first: Galley) -> Result<Book, Refusal>
    requires { Opened chapters.galleys.now chapters.lengths.now first }
    ensures { result ≡ reading_of (chapters_of chapters.entry.galleys.now chapters.entry.lengths.now) }
{
    let none = Book {
        chapters: 0,
        largest: 0,
        list: 0,
    };
    let mut book = with_chapter(none, first);
    let mut at = chapters.lengths[0] as usize;
    for k in 1..chapters.lengths.len() {
        let place = book.chapters as u32 + 1;
        let to = at + chapters.lengths[k] as usize;
        let g = chapter_read(&chapters.galleys[at..to], place)?;
        if let Some(number) = unfit_after(first.spec, g) {
            return Err(Refusal { number, place });
        }
        book = with_chapter(book, g);
        at = to;
    }
    Ok(book)
}

// The book that any bytes and lengths hold, or one refusal.
pub fn read_book(galleys: &[u8], lengths: &[u32]) -> Result<Book, Refusal>
    ensures { result ≡ reading_of (book_of galleys.now lengths.now) }
{
    let chapters = Chapters { galleys, lengths };
    if !chapters.add_up() {
        return Err(Refusal {
            number: 28,
            place: 0,
        });
    }
    let to = lengths[0] as usize;
    let first = chapter_read(&galleys[..to], 1)?;
    read_later(chapters, first)
}

// The galley of a chapter of a book that was read.
pub fn galley_in(chapter: &[u8]) -> Galley
    requires { Reads chapter.now }
    ensures { galley_of chapter.now ≡ Ok result }
{
    reading::read_galley(chapter).unwrap()
}
