// The C interface: making, marking and reports for programs in other languages. include/barleychime.h documents it.
#![tactic(auto)]

ghost use Rattle.std.specs.Prelude.{◌≡◌};
ghost use Rattle.marking.specs.Mark.{mark_of};
ghost use Rattle.barleychime.specs.Words.{number_of, answer_words, Exported, ExportedAfter};

pub mod beforehand; // beforehand.rt: what a galley asks for, told beforehand
pub mod section; // section.rt: the folding order of a section
pub mod term; // term.rt: the report on marks
pub mod trying; // trying.rt: the desk
pub mod whole; // whole.rt: a whole book from its chapters

// The version of this interface, 0.2.0: ten thousands for the major number, hundreds for the minor one, ones for the patch.
#[unsafe(no_mangle)]
pub extern "C" fn barleychime_version() -> u32
    ensures { result ≡ 200 }
{
    200
}

// The best pages of a galley: making's answer with the count of what is weighed, and what making leaves in the lent memory.
#[unsafe(no_mangle)]
pub extern "C" fn barleychime_make(
    galley: &[u8],
    work: &mut [u32],
    pages: &mut [u32],
    answer: &mut [u32; 9],
) -> u32
    ensures { Exported
        galley.now
        work.old
        pages.old
        result
        work.new
        pages.new
        answer.new }
{
    let made = making::make(galley, work, pages);
    let found = made.answer;
    telling::tell(found, made.weighed, answer)
}

// The best pages of a galley that begin with an opening already printed: the answer of making after it with the count of what is weighed,
// and what that leaves in the lent memory. The opening is only read.
#[unsafe(no_mangle)]
pub extern "C" fn barleychime_make_after(
    galley: &[u8],
    opening: &[u32],
    work: &mut [u32],
    pages: &mut [u32],
    answer: &mut [u32; 9],
) -> u32
    ensures { ExportedAfter
        galley.now
        opening.now
        work.old
        pages.old
        result
        work.new
        pages.new
        answer.new }
{
    let made = making::make_after(galley, opening, work, pages);
    let found = made.answer;
    telling::tell(found, made.weighed, answer)
}

// The marking of a page list: marking's answer; it weighs nothing. No lent memory but `answer` is written.
#[unsafe(no_mangle)]
pub extern "C" fn barleychime_mark(galley: &[u8], pages: &[u32], answer: &mut [u32; 9]) -> u32
    ensures { (result ≡ number_of (mark_of galley.now pages.now))
        × (answer.new ≡ answer_words (mark_of galley.now pages.now) 0) }
{
    let mark = marking::mark(galley, pages);
    telling::tell(mark, 0, answer)
}
