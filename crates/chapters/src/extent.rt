// Where each chapter of a book stands in its bytes: the chapters are lent end to end.
ghost use Rattle.std.specs.Prelude.{◌≡◌, ◌≤◌, length};
ghost use Rattle.chapters.specs.Book.{all_bytes, adds_up, chapter_bytes};
ghost use Rattle.chapters.specs.Steps.{Stands};

use crate::Chapters;

// What lengths come to. So few of 32 bits do not pass 64 bits.
fn all_bytes(lengths: &[u32]) -> usize
    requires { length lengths.now ≤ 200 }
    ensures { result ≡ all_bytes lengths.now }
{
    let mut sum = 0;
    for i in 0..lengths.len() {
        sum += lengths[i] as usize;
    }
    sum
}

impl<'a> Chapters<'a> {
    // The bytes of chapter k, from 0.
    pub fn bytes_of(self, k: usize) -> &'a [u8]
        requires { Stands self.galleys.now self.lengths.now k }
        ensures { result.now ≡ chapter_bytes self.entry.galleys.now self.entry.lengths.now k }
    {
        let from = all_bytes(&self.lengths[..k]);
        let to = from + self.lengths[k] as usize;
        &self.galleys[from..to]
    }

    // Whether there are 1 to 200 of them, whose lengths add up to the bytes.
    pub fn add_up(self) -> bool
        ensures { result ≡ adds_up self.entry.galleys.now self.entry.lengths.now }
    {
        if self.lengths.is_empty() {
            return false;
        }
        if 200 < self.lengths.len() {
            return false;
        }
        all_bytes(self.lengths) == self.galleys.len()
    }
}
