// The most consecutive blocks of a stream that are not too high by themselves.
ghost use Rattle.std.specs.Prelude.{◌≡◌, Bool, ℕ, ◌≤◌};
ghost use Rattle.model.specs.Galley as model;
ghost use Rattle.model.specs.Weighed.{most_together};
ghost use Rattle.galley.specs.Record.{least_at};
ghost use Rattle.galley.specs.Model.{stream_of};
ghost use Rattle.galley.specs.Sound.{SoundStream};
ghost use Rattle.blocks.specs.Heights.{added};
ghost use Rattle.forecast.specs.Together.{Adds};

use galley::Stream;

// What block k adds to a run at its tightest: its own height, and the space after block `gap` where that is in the run.
fn tight_of(s: &[u8], stream: Stream, k: usize, gap: usize, spaced: bool) -> u32
    requires { Adds s.now stream k gap spaced }
    ensures { (result ≡ added s.now stream least_at k gap spaced) × (result ≤ 200000) }
{
    let height = blocks::field(s, stream, k, galley::HEIGHT);
    if spaced {
        return height + blocks::field(s, stream, gap, galley::LEAST);
    }
    height
}

// The most consecutive blocks that are at most `limit` high, at their tightest. The run looked at, from block a + 1 to block b, never
// gets shorter: with each block it grows, or where it is then too high moves on.
pub fn most_together(s: &[u8], stream: Stream, limit: u32) -> usize
    requires { (SoundStream s.now stream) × (stream.count ≤ 4000) }
    ensures { ((g : model.Galley) (legal : ℕ → Bool) (cite : ℕ → ℕ) → g.spec.htmax ≡ limit → result ≡ most_together g (stream_of s.now stream legal cite))
        × (result ≤ stream.count) }
{
    let mut a = 0;
    let mut height = 0;
    for b in 0..stream.count {
        height += tight_of(s, stream, b + 1, b, a < b);
        if limit < height {
            a += 1;
            height -= tight_of(s, stream, a, a, a < b + 1);
        }
    }
    stream.count - a
}
