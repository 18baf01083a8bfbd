// The pages of the list in force, and one of them with another end.
ghost use Rattle.std.specs.Prelude.{true, ◌≡◌, ◌≤◌};
ghost use Rattle.desk.specs.Pages.{pages_on, words_on, is_inner, width_of, page_at, with_end};

use crate::Desk;

// The words of a page, by those of all pages.
#[tactic(auto, unfolding(crate::specs::Pages::width_of))]
pub fn width_of(words: usize, pages: u32) -> u32
    ensures { result ≡ width_of words pages }
{
    if words == 2 * (pages as usize) {
        return 2;
    }
    3
}

impl Desk {
    // How many pages a desk has. Words that no call leaves are those of a desk without pages.
    #[tactic(auto, unfolding(crate::specs::Pages::pages_on))]
    pub fn pages_on(&self) -> u32
        ensures { result ≡ pages_on self.now }
    {
        if (self.pages <= 64) & (2 <= self.width) & (self.width <= 3) {
            return self.pages;
        }
        0
    }

    // How many words they take.
    #[tactic(auto, unfolding(crate::specs::Pages::words_on), using(crate::proofs::laws::Pages::words_few))]
    pub fn words_on(&self) -> usize
        ensures { (result ≡ words_on self.now) × (result ≤ 192) }
    {
        let pages = self.pages_on();
        pages as usize * self.width as usize
    }

    // Whether a page is one of the desk's, and not its last.
    #[tactic(auto, unfolding(crate::specs::Pages::is_inner))]
    pub fn is_inner(&self, page: u32) -> bool
        ensures { result ≡ is_inner self.now page }
    {
        let pages = self.pages_on();
        (1 <= page) & (page < pages)
    }

    // Where the words of a page begin: there is room for them.
    #[tactic(auto, using(crate::proofs::laws::Pages::inner_first, crate::proofs::laws::Pages::inner_room))]
    fn page_at(&self, page: u32) -> usize
        requires { is_inner self.now page ≡ true }
        ensures { (result ≡ page_at self.now.width page) × (result ≤ 186) }
    {
        let before = page as usize - 1;
        before * self.width as usize
    }

    // The list in force with another end of a page.
    #[tactic(auto, unfolding(crate::specs::Pages::with_end))]
    pub fn with_end(&self, page: u32, end: [u32; 3]) -> [u32; 192]
        requires { is_inner self.now page ≡ true }
        ensures { result ≡ with_end self.now.width self.now.list page end }
    {
        let mut list = self.list;
        let at = self.page_at(page);
        list[at] = end[0];
        list[at + 1] = end[1];
        if self.width == 3 {
            list[at + 2] = end[2];
        }
        list
    }
}
