// The desk: another end of a page is tried on a list that the marking accepts, and committed; and layouts are saved under names to
// come back to. Document 02, S-7 and S-8. A desk is plain data of any contents, and there is no galley in it: whoever asks gives the
// bytes again.
#![tactic(auto)]

ghost use Rattle.std.specs.Prelude.{◌++◌, ◌≡◌, drop, ok_or};
ghost use Rattle.model.specs.Answers.{refused};
ghost use Rattle.model.specs.Gather.{pick};
ghost use Rattle.layouts.specs.Names.{is_name, find_named};
ghost use Rattle.marking.specs.Mark.{mark_of};
ghost use Rattle.desk.specs.Pages.{pages_on, words_on, in_force};
ghost use Rattle.desk.specs.Desk.{cleared, pended, put_in, after_ask, ask_desk, commit_desk, Says, Does};
ghost use Rattle.desk.specs.Layouts.{save_desk, back_desk, drop_desk};
ghost use Rattle.desk.specs.Opening.{closed, Short, opened, open_on, open_desk};

use layouts::Layout;
use model::answer::{Answer, Refusal};

mod pages; // pages.rt: the pages of the list in force, and one of them with another end

// The count of pages and the words of a page, what is pending, which is a page and its new end, the list in force, and eight layouts.
// Count and words stand once: all lists of a desk have as many pages. C lends this memory, of any contents: so page 0 stands for
// none that is pending.
#[repr(C)]
#[derive(Clone, Copy)]
pub struct Desk {
    pub pages: u32,
    pub width: u32,
    pub page: u32,
    pub end: [u32; 3],
    pub list: [u32; 192],
    pub layouts: [Layout; 8],
}

// A refusal by its number alone.
fn alone(number: u32) -> Refusal
    ensures { result ≡ record { number = number; place = 0 } }
{
    Refusal { number, place: 0 }
}

// 25 refuses a name that has not 1 to 16 bytes.
fn named(name: &[u8]) -> Result<(), Refusal>
    ensures { result ≡ pick (is_name name.now) (Ok tt) (refused 25 0) }
{
    if layouts::names::is_name(name) {
        Ok(())
    } else {
        Err(alone(25))
    }
}

// One list over another, word by word: both may lie in one desk, and assigned whole they would be moved.
fn copy_list(from: &[u32; 192], into: &mut [u32; 192])
    ensures { into.new ≡ from.now }
{
    layouts::words::copy_words(from, 192, into);
}

impl Desk {
    // A new desk with a list of so many pages.
    #[tactic(auto, unfolding(crate::specs::Opening::opened))]
    fn of(list: &[u32], pages: u32) -> Desk
        requires { Short list.now }
        ensures { result ≡ opened list.now pages }
    {
        let width = pages::width_of(list.len(), pages);
        let mut all = [0; 192];
        layouts::words::copy_words(list, list.len(), &mut all);
        Desk {
            pages,
            width,
            page: 0,
            end: [0; 3],
            list: all,
            layouts: [Layout::free(); 8],
        }
    }

    // It has no pages: nothing else of it changes.
    fn close(&mut self)
        ensures { self.new ≡ closed self.old }
    {
        self.pages = 0;
    }

    // A page and its new end are pending; page 0 is none.
    fn pend(&mut self, page: u32, end: [u32; 3])
        ensures { self.new ≡ pended self.old page end }
    {
        self.page = page;
        self.end = end;
    }

    // Nothing is pending.
    fn clear(&mut self)
        ensures { self.new ≡ cleared self.old }
    {
        self.pend(0, self.end);
    }

    // Another list is in force, of as many pages, and nothing is pending.
    fn put(&mut self, list: [u32; 192])
        ensures { self.new ≡ put_in self.old list }
    {
        self.list = list;
        self.page = 0;
    }

    // Opened on a galley that reads: 22 where the marking does not accept the list, or it has more than 64 pages.
    #[tactic(auto, unfolding(crate::specs::Opening::open_on))]
    fn open_read(&mut self, galley: &[u8], list: &[u32]) -> Answer
        ensures { Says (open_on list.now self.old (mark_of galley.now list.now)) result self.new }
    {
        match marking::mark(galley, list) {
            Ok(n) if n.pages <= 64 => {
                *self = Desk::of(list, n.pages);
                Ok(n)
            }
            _ => {
                self.close();
                Err(alone(22))
            }
        }
    }

    // Opened on a galley and a list: a refused galley is refused as ever, then 22. A desk that is refused has no pages.
    #[tactic(auto, unfolding(crate::specs::Opening::open_read, crate::specs::Opening::open_desk))]
    pub fn open(&mut self, galley: &[u8], list: &[u32]) -> Answer
        ensures { Says (open_desk galley.now list.now self.old) result self.new }
    {
        if let Err(refusal) = reading::read_galley(galley) {
            self.close();
            return Err(refusal);
        }
        self.open_read(galley, list)
    }

    // What an ask leaves that the marking answered so: pending where it is accepted, and none pending where it is refused.
    #[tactic(auto, unfolding(crate::specs::Desk::after_ask))]
    fn after_ask(&mut self, page: u32, end: [u32; 3], answer: Answer)
        ensures { self.new ≡ after_ask self.old page end answer }
    {
        match answer {
            Ok(_) => self.pend(page, end),
            Err(_) => self.clear(),
        }
    }

    // Another end of a page, tried: 23 before the galley is read, then the marking of the altered list.
    #[tactic(auto, unfolding(crate::specs::Desk::altered, crate::specs::Desk::ask_desk))]
    pub fn ask(&mut self, galley: &[u8], page: u32, end: [u32; 3]) -> Answer
        ensures { Says (ask_desk galley.now page end self.old) result self.new }
    {
        if !self.is_inner(page) {
            self.clear();
            return Err(Refusal {
                number: 23,
                place: page,
            });
        }
        let altered = self.with_end(page, end);
        let words = self.words_on();
        let answer = marking::mark(galley, &altered[..words]);
        self.after_ask(page, end, answer);
        answer
    }

    // What is pending put in force: 24 where nothing is, and the desk stays as it is.
    #[tactic(auto, unfolding(crate::specs::Desk::commit_desk))]
    pub fn commit(&mut self) -> Result<(), Refusal>
        ensures { Does (commit_desk self.old) result self.new }
    {
        let page = self.page;
        if !self.is_inner(page) {
            return Err(alone(24));
        }
        let list = self.with_end(page, self.end);
        self.put(list);
        Ok(())
    }

    // The list in force over the first of the lent words, and its count of pages.
    #[tactic(auto, unfolding(crate::specs::Pages::in_force))]
    pub fn list(&self, pages: &mut [u32; 192]) -> u32
        ensures { (result ≡ pages_on self.now) × (pages.new ≡ in_force self.now ++ drop (words_on self.now) pages.old) }
    {
        let words = self.words_on();
        layouts::words::copy_words(&self.list, words, pages);
        self.pages_on()
    }

    // Where the layout under a name is: 25 a bad name, then 26 where it is not held.
    fn held(&self, name: &[u8]) -> Result<usize, Refusal>
        ensures { result ≡ pick (is_name name.now) (ok_or (find_named self.now.layouts name.now) (record { number = 26; place = 0 })) (refused 25 0) }
    {
        named(name)?;
        layouts::find(&self.layouts, name).ok_or(alone(26))
    }

    // The list in force kept under a name: 25 a bad name, then 27 where the name is not held and no layout is free. A refusal leaves the
    // desk as it is.
    #[tactic(auto, unfolding(crate::specs::Layouts::save_desk), using(layouts::specs::laws::Names::name_few))]
    pub fn save(&mut self, name: &[u8]) -> Result<(), Refusal>
        ensures { Does (save_desk name.now self.old) result self.new }
    {
        named(name)?;
        let at = layouts::room_for(&self.layouts, name).ok_or(alone(27))?;
        self.layouts[at] = Layout::under(name, self.list);
        Ok(())
    }

    // The layout under a name put in force, with nothing pending: 25 a bad name, then 26 where it is not held. A refusal leaves the desk
    // as it is.
    #[tactic(auto, unfolding(crate::specs::Layouts::back_desk))]
    pub fn back(&mut self, name: &[u8]) -> Result<(), Refusal>
        ensures { Does (back_desk name.now self.old) result self.new }
    {
        let at = self.held(name)?;
        copy_list(&self.layouts[at].list, &mut self.list);
        self.clear();
        Ok(())
    }

    // A name freed: 25 a bad name, then 26 where it is not held. On a desk of words that no call leaves, every layout under the name is. A
    // refusal leaves the desk as it is.
    #[tactic(auto, unfolding(crate::specs::Layouts::drop_desk))]
    pub fn drop(&mut self, name: &[u8]) -> Result<(), Refusal>
        ensures { Does (drop_desk name.now self.old) result self.new }
    {
        self.held(name)?;
        layouts::free(&mut self.layouts, name);
        Ok(())
    }
}
