// The desk for programs in other languages: each call is a method of the lent desk, and what it answers is told in nine words.
ghost use Rattle.std.specs.Prelude.{◌++◌, ◌≡◌, drop};
ghost use Rattle.desk.specs.Pages.{pages_on, words_on, in_force};
ghost use Rattle.desk.specs.Opening.{open_desk};
ghost use Rattle.desk.specs.Desk.{ask_desk, commit_desk, number_in};
ghost use Rattle.desk.specs.Layouts.{save_desk, back_desk, drop_desk};
ghost use Rattle.barleychime.specs.Desk.{number_alone, pages_alone, LeftTold, LeftDone};

use desk::Desk;
use model::answer::Refusal;

// A number alone, which is 0 where nothing is refused, told in nine words.
fn tell_number(done: Result<(), Refusal>, words: &mut [u32; 9]) -> u32
    ensures { (result ≡ number_in done) × (words.new ≡ number_alone (number_in done)) }
{
    let number = match done {
        Ok(()) => 0,
        Err(refusal) => refusal.number,
    };
    *words = [number, 0, 0, 0, 0, 0, 0, 0, 0];
    number
}

// A desk opened on a galley and a list.
#[unsafe(no_mangle)]
pub extern "C" fn barleychime_desk_open(
    galley: &[u8],
    list: &[u32],
    desk: &mut Desk,
    answer: &mut [u32; 9],
) -> u32
    ensures { LeftTold (open_desk galley.now list.now desk.old) result desk.new answer.new }
{
    let told = desk.open(galley, list);
    telling::tell(told, 0, answer)
}

// Another end of a page, tried.
#[unsafe(no_mangle)]
pub extern "C" fn barleychime_desk_ask(
    galley: &[u8],
    page: u32,
    end: &[u32; 3],
    desk: &mut Desk,
    answer: &mut [u32; 9],
) -> u32
    ensures { LeftTold (ask_desk galley.now page end.now desk.old) result desk.new answer.new }
{
    let told = desk.ask(galley, page, *end);
    telling::tell(told, 0, answer)
}

// What is pending put in force.
#[unsafe(no_mangle)]
pub extern "C" fn barleychime_desk_commit(desk: &mut Desk, answer: &mut [u32; 9]) -> u32
    ensures { LeftDone (commit_desk desk.old) result desk.new answer.new }
{
    let done = desk.commit();
    tell_number(done, answer)
}

// The list in force.
#[unsafe(no_mangle)]
pub extern "C" fn barleychime_desk_list(
    desk: &Desk,
    pages: &mut [u32; 192],
    answer: &mut [u32; 9],
) -> u32
    ensures { (result ≡ 0)
        × (pages.new ≡ in_force desk.now ++ drop (words_on desk.now) pages.old)
        × (answer.new ≡ pages_alone (pages_on desk.now)) }
{
    let p = desk.list(pages);
    *answer = [0, 0, p, 0, 0, 0, 0, 0, 0];
    0
}

// The list in force kept under a name.
#[unsafe(no_mangle)]
pub extern "C" fn barleychime_desk_save(name: &[u8], desk: &mut Desk, answer: &mut [u32; 9]) -> u32
    ensures { LeftDone (save_desk name.now desk.old) result desk.new answer.new }
{
    let done = desk.save(name);
    tell_number(done, answer)
}

// The layout under a name put in force.
#[unsafe(no_mangle)]
pub extern "C" fn barleychime_desk_back(name: &[u8], desk: &mut Desk, answer: &mut [u32; 9]) -> u32
    ensures { LeftDone (back_desk name.now desk.old) result desk.new answer.new }
{
    let done = desk.back(name);
    tell_number(done, answer)
}

// A name freed.
#[unsafe(no_mangle)]
pub extern "C" fn barleychime_desk_drop(name: &[u8], desk: &mut Desk, answer: &mut [u32; 9]) -> u32
    ensures { LeftDone (drop_desk name.now desk.old) result desk.new answer.new }
{
    let done = desk.drop(name);
    tell_number(done, answer)
}
