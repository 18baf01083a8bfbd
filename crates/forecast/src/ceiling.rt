// The ceiling on the pages weighed: two factors for each stream, in 64 bits.
ghost use Rattle.std.specs.Prelude.{◌≡◌, Bool, ℕ, ◌+◌, ◌*◌, ◌≤◌};
ghost use Rattle.model.specs.Galley as model;
ghost use Rattle.model.specs.Weighed.{ceiling};
ghost use Rattle.galley.specs.Model.{stream_of, model_of};
ghost use Rattle.galley.specs.Sound.{Sound, SoundStream};
ghost use Rattle.forecast.specs.Ceiling.{factors};

use galley::{Galley, Stream};

// The factors of one stream, multiplied: its blocks and one, the most of them together and one. An empty stream's are 1.
fn factors_of(s: &[u8], stream: Stream, limit: u32) -> u64
    requires { (SoundStream s.now stream) × (stream.count ≤ 4000) }
    ensures { ((g : model.Galley) (legal : ℕ → Bool) (cite : ℕ → ℕ) → g.spec.htmax ≡ limit → result ≡ factors g (stream_of s.now stream legal cite))
        × (result ≤ (stream.count + 1) * (stream.count + 1)) }
{
    let most = crate::together::most_together(s, stream, limit);
    (stream.count as u64 + 1) * (most as u64 + 1)
}

// The ceiling: six factors, of the lines, the figures and the tables. Without tables theirs are 1.
pub fn ceiling_of(s: &[u8], g: Galley) -> u64
    requires { Sound s.now g }
    ensures { result ≡ ceiling (model_of s.now g) }
{
    let lines = factors_of(s, g.text, g.spec.htmax);
    let figures = factors_of(s, g.figures, g.spec.htmax);
    let tables = factors_of(s, g.tables, g.spec.htmax);
    lines * (figures * tables)
}
