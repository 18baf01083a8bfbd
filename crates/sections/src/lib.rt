// Stitched sections: the pages as they stand on the nested sheets, for sections of 4, 8, …, 64 pages. Document 02, folding order.
#![tactic(auto)]

ghost use Rattle.std.specs.Prelude.{◌≡◌, ◌≤◌, ◌++◌, length, drop};
ghost use Rattle.sections.specs.Folding.{start_of};
ghost use Rattle.sections.specs.Answer.{is_size, Size, answer_of, numbers_after, Answered};

use model::answer::Refusal;

pub mod table; // table.rt: the numbers of all sections

// Whether there are sections of so many pages.
fn is_size(size: u32) -> bool
    ensures { result ≡ is_size size }
{
    (4 <= size) & (size <= 64) & (size % 4 == 0)
}

// Where the numbers of a section begin in the table.
#[tactic(auto, using(crate::specs::laws::Size::starts_inside))]
fn start_of(pages: usize) -> usize
    requires { Size pages }
    ensures { (result ≡ start_of pages) × (result ≤ 480) }
{
    let sheets = pages / 4;
    2 * sheets * (sheets - 1)
}

// Numbers of a table over the first of the lent words.
fn copy_numbers(table: &[u8], numbers: &mut [u32])
    requires { length table.now ≤ length numbers.old }
    ensures { numbers.new ≡ table.now ++ drop (length table.now) numbers.old }
{
    for i in 0..table.len() {
        numbers[i] = u32::from(table[i]);
    }
}

// A section's numbers over the first of the lent words; nothing where there are no sections of that size.
#[tactic(auto, unfolding(crate::specs::Answer::numbers_after, crate::specs::Folding::part_of), using(crate::specs::laws::Size::size_facts, crate::specs::laws::Table::section_copied))]
fn write_numbers(size: u32, numbers: &mut [u32; 64])
    ensures { numbers.new ≡ numbers_after size numbers.old }
{
    if is_size(size) {
        let pages = size as usize;
        let start = start_of(pages);
        let table = table::numbers();
        copy_numbers(&table[start..start + pages], numbers);
    }
}

// The answer to a size, apart from the numbers.
#[tactic(auto, unfolding(crate::specs::Answer::answer_of))]
fn reply_of(size: u32) -> Result<(), Refusal>
    ensures { result ≡ answer_of size }
{
    if !is_size(size) {
        return Err(Refusal {
            number: 33,
            place: size,
        });
    }
    Ok(())
}

// A section's numbers in the table's order, in the first of the lent words; any other size is refused with 33, and nothing is
// written.
pub fn section(size: u32, numbers: &mut [u32; 64]) -> Result<(), Refusal>
    ensures { Answered size numbers.old result numbers.new }
{
    write_numbers(size, numbers);
    reply_of(size)
}
