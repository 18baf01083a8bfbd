// The blocks of a galley that was read, in whatever stream: any field of block k, in constant time, the heights of a page, block by
// block, and how many blocks of each stream are placed.
#![tactic(auto)]

ghost use Rattle.std.specs.Prelude.{◌≡◌, List, ℕ};
ghost use Rattle.galley.specs.Block.{Has, field_of};
ghost use Rattle.galley.specs.Model.{legal_of, model_of};
ghost use Rattle.model.specs.Galley.{streams};
ghost use Rattle.blocks.specs.Counts.{page_words};

use galley::{Galley, Stream};

pub mod heights; // heights.rt: the heights of a page, block by block

// The blocks of each stream placed so far. Where there are no tables a page has no word for them.
#[derive(Clone, Copy, PartialEq, Eq, Default, Debug)]
pub struct Counts {
    pub lines: usize,
    pub figures: usize,
    pub tables: usize,
}

// The words that a page takes in a page list: a count for each stream.
pub fn page_words(g: Galley) -> usize
    ensures { ((bytes : List ℕ) → result ≡ streams (model_of bytes g)) × (result ≡ page_words g) }
{
    if g.tables.count == 0 { 2 } else { 3 }
}

// The field of block k, k from 1, that stands so many bytes after its mark.
pub fn field(s: &[u8], stream: Stream, k: usize, at: usize) -> u32
    requires { Has s.now stream k at }
    ensures { result ≡ field_of s.now stream at k }
{
    galley::word::word_at(s, stream.first + (k - 1) * 18 + at)
}

// Whether a page may end in the space after block k: after a line that says so, and after a float that is not kept with the next.
#[tactic(auto, unfolding(galley::specs::Model::legal_of))]
pub fn is_legal(s: &[u8], stream: Stream, k: usize) -> bool
    requires { Has s.now stream k 14 }
    ensures { result ≡ legal_of s.now stream k }
{
    let mark = galley::word::mark_at(s, stream.first + (k - 1) * 18);
    if mark == galley::place::TL {
        return field(s, stream, k, galley::LEGAL) == 1;
    }
    mark != galley::place::FK
}
