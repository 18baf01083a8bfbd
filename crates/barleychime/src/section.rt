// The folding order of a section, for programs in other languages.
ghost use Rattle.barleychime.specs.Section.{Folded};

// A section's numbers in the first of the lent words, or a refusal that leaves them as they are.
#[unsafe(no_mangle)]
pub extern "C" fn barleychime_section(
    size: u32,
    numbers: &mut [u32; 64],
    answer: &mut [u32; 2],
) -> u32
    ensures { Folded size numbers.old result numbers.new answer.new }
{
    let (number, place) = match sections::section(size, numbers) {
        Ok(()) => (0, 0),
        Err(refusal) => (refusal.number, refusal.place),
    };
    *answer = [number, place];
    number
}
