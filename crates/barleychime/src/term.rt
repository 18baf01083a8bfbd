// The report on a term's marks for programs in other languages.
ghost use Rattle.std.specs.Prelude.{◌≡◌};
ghost use Rattle.report.specs.Report.{report_of, number_of, words_of};

use model::answer::Refusal;
use report::{Mark, Totals};

// A report told to the caller: its eleven words, and its number, which is 0 for a success.
fn tell(told: Result<Totals, Refusal>, words: &mut [u64; 11]) -> u32
    ensures { (result ≡ number_of told) × (words.new ≡ words_of told) }
{
    match told {
        Ok(f) => {
            *words = [
                0, 0, f.papers, f.pages, f.x, f.y, f.turns, f.least, f.greatest, f.excess, f.count,
            ];
            0
        }
        Err(Refusal { number, place }) => {
            *words = [
                u64::from(number),
                u64::from(place),
                0,
                0,
                0,
                0,
                0,
                0,
                0,
                0,
                0,
            ];
            number
        }
    }
}

// The report on marks. No lent memory but `words` is written.
#[unsafe(no_mangle)]
pub extern "C" fn barleychime_report(marks: &[Mark], words: &mut [u64; 11]) -> u32
    ensures { (result ≡ number_of (report_of marks.now))
        × (words.new ≡ words_of (report_of marks.now)) }
{
    let told = report::report_on(marks);
    tell(told, words)
}
