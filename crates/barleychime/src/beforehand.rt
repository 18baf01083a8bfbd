// What a galley asks for, told beforehand, for programs in other languages.
ghost use Rattle.std.specs.Prelude.{◌≡◌};
ghost use Rattle.forecast.specs.Forecast.{forecast_of};
ghost use Rattle.barleychime.specs.Forecast.{number_of, words_of};

use model::answer::Refusal;

// The forecast of a galley in six words, the ceiling in two, low and high. No lent memory but `forecast` is written.
#[unsafe(no_mangle)]
pub extern "C" fn barleychime_forecast(galley: &[u8], forecast: &mut [u32; 6]) -> u32
    ensures { (result ≡ number_of (forecast_of galley.now))
        × (forecast.new ≡ words_of (forecast_of galley.now)) }
{
    match forecast::forecast_of(galley) {
        Ok(told) => {
            let (low, high) = telling::halves(told.ceiling);
            *forecast = [0, 0, told.work, told.list, low, high];
            0
        }
        Err(Refusal { number, place }) => {
            *forecast = [number, place, 0, 0, 0, 0];
            number
        }
    }
}
