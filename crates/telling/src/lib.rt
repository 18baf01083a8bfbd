// Answers told to a caller of the C interface, in words that are lent.
#![tactic(auto)]

ghost use Rattle.std.specs.Prelude.{◌≡◌};
ghost use Rattle.telling.specs.Words.{low, high, number_of, answer_words};

use model::answer::Answer;

// The low and the high word of a number of 64 bits.
pub fn halves(number: u64) -> (u32, u32)
    ensures { (result.0 ≡ low number) × (result.1 ≡ high number) }
{
    ((number % 4294967296) as u32, (number / 4294967296) as u32)
}

// An answer told to the caller: its numbers and the count of what is weighed in nine words, W the last, and its number, which is 0 for a
// success.
pub fn tell(answer: Answer, weighed: u64, words: &mut [u32; 9]) -> u32
    ensures { (result ≡ number_of answer) × (words.new ≡ answer_words answer weighed) }
{
    let n = model::answer::numbers_of(answer);
    let (low, high) = halves(weighed);
    *words = [
        n.number, n.place, n.pages, n.x, n.y, n.turns, low, high, n.white,
    ];
    n.number
}
