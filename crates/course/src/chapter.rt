// One chapter of a book made: the best list from its folio on that closes on a side, written and counted.
ghost use Rattle.course.specs.Chapter.{Makeable, Written, Made};

use galley::Galley;
use model::answer::Answer;

// The pages of that list written over the first words of the page list, and how many words they take.
fn write_chapter(s: &[u8], g: Galley, side: usize, work: &mut [u32], pages: &mut [u32]) -> usize
    requires { Makeable s.now g side work.old pages.old }
    ensures { Written s.now g side work.old pages.old result work.new pages.new }
{
    closings::fill_chapter(s, g, work);
    let last = closings::closing_stop(g, side);
    let p = walk::count_pages(g, work, closings::NOTHING_YET, last);
    walk::write_pages(g, work, last, p, pages);
    blocks::page_words(g) * p
}

// The list written and marked: marking answers with its counts.
pub fn make_chapter(s: &[u8], g: Galley, side: usize, work: &mut [u32], pages: &mut [u32]) -> Answer
    requires { Makeable s.now g side work.old pages.old }
    ensures { Made s.now g side work.old pages.old result work.new pages.new }
{
    let words = write_chapter(s, g, side, work, pages);
    marking::pages::mark_read(s, g, &pages[..words])
}
