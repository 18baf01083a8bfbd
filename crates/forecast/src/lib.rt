// What a galley asks for, told beforehand: the words of lent memory, and a ceiling on the pages weighed. Document 02, S-5.
#![tactic(auto)]

ghost use Rattle.std.specs.Prelude.{◌≡◌};
ghost use Rattle.galley.specs.Whole.{galley_of};
ghost use Rattle.forecast.specs.Forecast.{forecast_of};

use galley::Galley;
use model::answer::Refusal;

mod ceiling; // ceiling.rt: the ceiling on the pages weighed
mod together; // together.rt: the most consecutive blocks that are not too high by themselves

// The words of work and of list that making needs, and the ceiling.
#[derive(Clone, Copy, PartialEq, Eq, Debug)]
pub struct Forecast {
    pub work: u32,
    pub list: u32,
    pub ceiling: u64,
}

// The forecast of a galley that was read.
fn forecast_read(s: &[u8], g: Galley) -> Forecast
    requires { galley_of s.now ≡ Ok g }
    ensures { Ok result ≡ forecast_of s.now }
{
    Forecast {
        work: needs::work_needed(g) as u32,
        list: needs::list_needed(g) as u32,
        ceiling: crate::ceiling::ceiling_of(s, g),
    }
}

// What making the galley that any bytes hold asks for, or one refusal. Nothing is lent, and nothing is made.
pub fn forecast_of(galley: &[u8]) -> Result<Forecast, Refusal>
    ensures { result ≡ forecast_of galley.now }
{
    let g = reading::read_galley(galley)?;
    Ok(forecast_read(galley, g))
}
