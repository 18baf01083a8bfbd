// What rules 14, 16 and 17 hold a page to, as marking and making ask it.
ghost use Rattle.std.specs.Prelude.{◌≡◌, List, ℕ, ◌≤◌};
ghost use Rattle.model.specs.Rules.{may_end, floor};
ghost use Rattle.galley.specs.Model.{stream_of, legal_of, floats_of, model_of};
ghost use Rattle.galley.specs.Sound.{SoundStream, Sound};
ghost use Rattle.blocks.specs.Counts.{Within};
ghost use Rattle.rules.specs.Parts.{cite_of, cited_from};

use blocks::Counts;
use galley::{Galley, Stream};

// 14, for one stream: a page may end before its first block, after its last, or in a space that allows it.
pub fn may_end(s: &[u8], stream: Stream, k: usize) -> bool
    requires { SoundStream s.now stream }
    ensures { (cite : ℕ → ℕ) → result ≡ may_end (stream_of s.now stream (legal_of s.now stream) cite) k }
{
    if (0 < k) & (k < stream.count) {
        return blocks::is_legal(s, stream, k);
    }
    true
}

// The line that cites float j of a stream; where there is no float 0, the line before the first, which every line has reached.
fn cite_of(s: &[u8], floats: Stream, j: usize) -> usize
    requires { (SoundStream s.now floats) × (j ≤ floats.count) }
    ensures { result ≡ cite_of (floats_of s.now floats) j }
{
    if 0 < j {
        return blocks::field(s, floats, j, galley::CITE) as usize;
    }
    0
}

// The line from which on 17 lets a page end with these floats, whatever lines it has: the last float placed of each stream is cited.
pub fn cited_from(s: &[u8], g: Galley, v: Counts) -> usize
    requires { (Sound s.now g) × (Within g v) }
    ensures { result ≡ cited_from s.now g v }
{
    let figure = cite_of(s, g.figures, v.figures);
    let table = cite_of(s, g.tables, v.tables);
    figure.max(table)
}

// What rule 16 holds the loosest height of a page to: htMin, and of the last page lastMin.
pub fn floor_of(g: Galley, last: bool) -> u32
    ensures { (bytes : List ℕ) → result ≡ floor (model_of bytes g) last }
{
    if last { g.spec.lastmin } else { g.spec.htmin }
}
