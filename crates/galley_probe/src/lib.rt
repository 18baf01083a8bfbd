// The reader of galleys, and the walk over the floats that wait, for tests in another language: what they find, as words.
#![tactic(auto)]

ghost use Rattle.std.specs.Prelude.{◌≡◌, ◌≤◌};
ghost use Rattle.galley.specs.Whole.{galley_of};
ghost use Rattle.galley.specs.Sound.{SoundStream};
ghost use Rattle.rules.specs.Waiting.{Walked};
ghost use Rattle.galley_probe.specs.Words.{words_of, stream_at, block_words, waiting_of};

use galley::{Galley, Stream};

// A refusal's number and place, or 0 and 0; then the specification with its edition, the first folio and the counts of lines,
// figures and tables.
#[tactic(auto, unfolding(crate::specs::Words::words_of))]
#[unsafe(no_mangle)]
pub extern "C" fn galley_probe_read(bytes: &[u8], out: &mut [u32; 15])
    ensures { out.new ≡ words_of (galley_of bytes.now) }
{
    match reading::read_galley(bytes) {
        Ok(g) => {
            let spec = g.spec;
            *out = [
                0,
                0,
                spec.htmin,
                spec.htmax,
                spec.smin,
                spec.smax,
                spec.sides,
                spec.alpha,
                spec.beta,
                spec.edition,
                spec.lastmin,
                g.folio,
                g.text.count as u32,
                g.figures.count as u32,
                g.tables.count as u32,
            ];
        }
        Err(refusal) => {
            *out = [
                refusal.number,
                refusal.place,
                0,
                0,
                0,
                0,
                0,
                0,
                0,
                0,
                0,
                0,
                0,
                0,
                0,
            ];
        }
    }
}

// The stream of a number: 0 is the text, 1 the figures, any other the tables.
fn stream_at(g: Galley, number: usize) -> Stream
    ensures { result ≡ stream_at g number }
{
    match number {
        0 => g.text,
        1 => g.figures,
        _ => g.tables,
    }
}

// The four fields of block k of a stream and whether a page may end after it, or zeros where there is none.
#[tactic(auto, unfolding(crate::specs::Words::block_words))]
#[unsafe(no_mangle)]
pub extern "C" fn galley_probe_block(bytes: &[u8], number: usize, k: usize, out: &mut [u32; 5])
    ensures { out.new ≡ block_words bytes.now number k (galley_of bytes.now) }
{
    let Ok(g) = reading::read_galley(bytes) else {
        *out = [0; 5];
        return;
    };
    let stream = stream_at(g, number);
    if k < 1 || stream.count < k {
        *out = [0; 5];
        return;
    }
    let legal = u32::from(blocks::is_legal(bytes, stream, k));
    *out = [
        blocks::field(bytes, stream, k, galley::HEIGHT),
        blocks::field(bytes, stream, k, galley::LEAST),
        blocks::field(bytes, stream, k, galley::MOST),
        blocks::field(bytes, stream, k, galley::CITE),
        legal,
    ];
}

// How many floats a walk for an earlier line finds; none where that line is not earlier.
fn known_from(s: &[u8], floats: Stream, earlier: usize, i: usize, j: usize) -> usize
    requires { (SoundStream s.now floats) × (j ≤ floats.count) }
    ensures { Walked s.now floats i j result }
{
    if earlier <= i {
        return rules::waiting::waiting_floats(s, floats, earlier, j, 0);
    }
    0
}

// How many floats of a stream wait with i lines and j of its floats placed, by a walk that goes on from one for an earlier line; 0
// where the galley is refused or the stream has fewer floats.
#[tactic(auto, unfolding(crate::specs::Words::waiting_of))]
#[unsafe(no_mangle)]
pub extern "C" fn galley_probe_waiting(
    bytes: &[u8],
    number: usize,
    earlier: usize,
    i: usize,
    j: usize,
) -> u32
    ensures { result ≡ waiting_of bytes.now number i j (galley_of bytes.now) }
{
    let Ok(g) = reading::read_galley(bytes) else {
        return 0;
    };
    let floats = stream_at(g, number);
    if floats.count < j {
        return 0;
    }
    let known = known_from(bytes, floats, earlier, i, j);
    rules::waiting::waiting_floats(bytes, floats, i, j, known) as u32
}
