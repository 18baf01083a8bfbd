// A whole book from its chapters, for programs in other languages.
ghost use Rattle.barleychime.specs.Book.{ExportedBook};

// The best pages of a book whose chapters are lent end to end: the answer in eight words of 64 bits, and what making the book leaves in the
// lent memory.
#[unsafe(no_mangle)]
pub extern "C" fn barleychime_book(
    galleys: &[u8],
    lengths: &[u32],
    work: &mut [u32],
    pages: &mut [u32],
    answer: &mut [u64; 8],
) -> u32
    ensures { ExportedBook
        galleys.now
        lengths.now
        work.old
        pages.old
        result
        work.new
        pages.new
        answer.new }
{
    let made = book::make_book(galleys, lengths, work, pages);
    match made.answer {
        Ok(counted) => {
            *answer = [
                0,
                0,
                counted.pages,
                counted.x,
                counted.y,
                counted.turns,
                counted.white,
                made.weighed,
            ];
            0
        }
        Err(refusal) => {
            *answer = [
                u64::from(refusal.number),
                u64::from(refusal.place),
                0,
                0,
                0,
                0,
                0,
                made.weighed,
            ];
            refusal.number
        }
    }
}
