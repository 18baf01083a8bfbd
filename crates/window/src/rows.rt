// Rows of words in a slice: the sums of a line, the ends of a window, or an entry of a queue.
ghost use Rattle.std.specs.Prelude.{◌≡◌, ◌+◌, ◌*◌, ◌≤◌, length};
ghost use Rattle.std.proofs.lemmas.List.Edits.{sets};

// The rows that a queue has room for: one for each line of the longest text.
pub const ROOM: usize = 4000;

// The words of a row written as row `at` of rows of so many words.
pub fn put<const N: usize>(words: &mut [u32], at: usize, row: [u32; N])
    requires { N * at + N ≤ length words.old }
    ensures { words.new ≡ sets words.old (N * at) row.entry }
{
    places::put(words, N * at, row);
}
