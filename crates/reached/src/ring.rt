// Columns that were found to be reached stand in a ring of words, each with a hint of its first and of its last reached line: a look
// from there takes few steps, and every later column asks for them again.
ghost use Rattle.std.specs.Prelude.{◌≡◌, ◌≤◌};
ghost use Rattle.reached.specs.Ring.{hint_of, hint_name, hint_first, hint_last, HintIn, HintFor};

// The word of a column whose first and last reached lines are these: in eights, so that the first may come out earlier and the last later.
pub fn hint_of(column: usize, first: usize, last: usize) -> u32
    requires { (column ≤ 10250) × (first ≤ 4000) × (last ≤ 4000) }
    ensures { result ≡ hint_of column first last }
{
    (column as u32 + 1) * 262144 + first as u32 / 8 * 512 + (last as u32 + 7) / 8
}

// One more than the number of the column that a word names: the word 0 names none. It is a number and no Option, since it is the first
// column that a ring covers once the word is dropped.
pub fn name_of(hint: u32) -> usize
    ensures { result ≡ hint_name hint }
{
    (hint / 262144) as usize
}

// A line that the first reached one is not before.
pub fn first_of(hint: u32) -> usize
    ensures { result ≡ hint_first hint }
{
    (hint / 512 % 512 * 8) as usize
}

// A line that the last reached one is not after.
pub fn last_of(hint: u32) -> usize
    ensures { result ≡ hint_last hint }
{
    (hint % 512 * 8) as usize
}

// The first word of the ring that names a column.
fn hint_in(seen: &[u32], column: usize) -> Option<u32>
    requires { column ≤ 10250 }
    ensures { HintIn seen.now column result }
{
    let name = column + 1;
    for at in 0..seen.len() {
        let hint = seen[at];
        if name_of(hint) == name {
            return Some(hint);
        }
    }
    None
}

// A word that names no column, and leaves every line to look at: from the first to the last that can be written.
const EVERY_LINE: u32 = 511;

// What is known of a column where those from `since` on stand in the ring: its word, none where it is not reached, and before `since` the
// word that leaves every line to look at.
pub fn hint_for(seen: &[u32], column: usize, since: usize) -> Option<u32>
    requires { column ≤ 10250 }
    ensures { HintFor seen.now since column result }
{
    if column < since {
        return Some(EVERY_LINE);
    }
    hint_in(seen, column)
}
