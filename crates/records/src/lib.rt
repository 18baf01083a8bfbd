// The record at an offset of a galley: its mark, and its fields where they are in range. Document 01, "The galley file".
#![tactic(auto)]

ghost use Rattle.std.specs.Prelude.{◌≡◌, ◌+◌, ◌≤◌, length, ltb, false};
ghost use Rattle.galley.specs.Place.{kind_of};
ghost use Rattle.galley.specs.declared.Record.TheVariants as found;
ghost use Rattle.galley.specs.Record.{HasSpec, block_of, ranged, spec_of, spec_at, folio_at, line_at, float_of, float_at, fields_of, record_at};

use galley::place::{ED, FG, FK, FO, G2, GS, TB, TL};
use galley::{Block, Float, Line, Record, Spec, Unread};

// A record whose fields are in range, or 3.
fn ranged(fine: bool, found: Record, at: usize) -> Result<Record, Unread>
    ensures { result ≡ ranged fine found at }
{
    if fine {
        Ok(found)
    } else {
        Err(Unread {
            number: 3,
            place: at,
        })
    }
}

// The fields of a specification, of the second edition or the first; only the second states the least height of the last page.
pub fn spec_of(s: &[u8], at: usize, second: bool) -> Spec
    requires { HasSpec s.now at second }
    ensures { result ≡ spec_of second s.now at }
{
    Spec {
        htmin: galley::word::word_at(s, at + 2),
        htmax: galley::word::word_at(s, at + 6),
        smin: galley::word::word_at(s, at + 10),
        smax: galley::word::word_at(s, at + 14),
        sides: galley::word::word_at(s, at + 18),
        alpha: galley::word::word_at(s, at + 22),
        beta: galley::word::word_at(s, at + 26),
        edition: if second { 2 } else { 1 },
        lastmin: if second {
            galley::word::word_at(s, at + 30)
        } else {
            0
        },
    }
}

// A specification.
fn spec_at(s: &[u8], at: usize, second: bool) -> Result<Record, Unread>
    requires { HasSpec s.now at second }
    ensures { result ≡ spec_at second s.now at }
{
    let g = spec_of(s, at, second);
    ranged(galley::range::spec_in_range(g), Record::Spec(g), at)
}

// The folio of the first page.
fn folio_at(s: &[u8], at: usize) -> Result<Record, Unread>
    requires { at + 6 ≤ length s.now }
    ensures { result ≡ folio_at s.now at }
{
    let folio = galley::word::word_at(s, at + 2);
    ranged(1 <= folio && folio <= 9999, Record::Folio(folio), at)
}

// The heights of a block.
fn block_fields(s: &[u8], at: usize) -> Block
    requires { at + 18 ≤ length s.now }
    ensures { result ≡ block_of s.now at }
{
    Block {
        height: galley::word::word_at(s, at + galley::HEIGHT),
        least: galley::word::word_at(s, at + galley::LEAST),
        most: galley::word::word_at(s, at + galley::MOST),
    }
}

// A line.
fn line_at(s: &[u8], at: usize) -> Result<Record, Unread>
    requires { at + 18 ≤ length s.now }
    ensures { result ≡ line_at s.now at }
{
    let block = block_fields(s, at);
    let legal = galley::word::word_at(s, at + galley::LEGAL);
    let fine = galley::range::block_in_range(block) && legal <= 1;
    ranged(fine, Record::Line(Line { block, legal }), at)
}

// The fields of a float, kept with the next one or not.
fn float_of(s: &[u8], at: usize, kept: bool) -> Float
    requires { at + 18 ≤ length s.now }
    ensures { result ≡ float_of kept s.now at }
{
    Float {
        block: block_fields(s, at),
        cite: galley::word::word_at(s, at + galley::CITE),
        kept,
    }
}

// A figure; its citation is tested where its place is known.
fn figure_at(s: &[u8], at: usize, kept: bool) -> Result<Record, Unread>
    requires { at + 18 ≤ length s.now }
    ensures { result ≡ float_at found.Figure kept s.now at }
{
    let f = float_of(s, at, kept);
    ranged(
        galley::range::block_in_range(f.block),
        Record::Figure(f),
        at,
    )
}

// A table, which is never kept.
fn table_at(s: &[u8], at: usize) -> Result<Record, Unread>
    requires { at + 18 ≤ length s.now }
    ensures { result ≡ float_at found.Table false s.now at }
{
    let f = float_of(s, at, false);
    ranged(galley::range::block_in_range(f.block), Record::Table(f), at)
}

// What the fields after a mark say; an unknown mark is 2.
#[tactic(auto, using(galley::proofs::laws::Record::spec_room), unfolding(galley::specs::Record::fields_of, galley::specs::Place::kind_of))]
fn fields_of(mark: u32, s: &[u8], at: usize) -> Result<Record, Unread>
    requires { at + (kind_of mark).size ≤ length s.now }
    ensures { result ≡ fields_of mark s.now at }
{
    let second = mark == G2;
    if mark == GS || second {
        return spec_at(s, at, second);
    }
    match mark {
        FO => folio_at(s, at),
        TL => line_at(s, at),
        FG => figure_at(s, at, false),
        FK => figure_at(s, at, true),
        TB => table_at(s, at),
        ED => Ok(Record::End),
        _ => Err(Unread {
            number: 2,
            place: at,
        }),
    }
}

// Whether so few bytes are left that a record with this mark is not there whole. No record has more than 34 bytes, so that its size
// matters only near the end.
#[tactic(auto, using(galley::proofs::laws::Place::kind_sized))]
fn is_short(left: usize, mark: u32) -> bool
    ensures { result ≡ ltb left (kind_of mark).size }
{
    if 34 <= left {
        return false;
    }
    left < galley::place::kind_of(mark).size
}

// The record at any offset, also past the end: its mark is there, its fields are there and in range.
#[tactic(auto, unfolding(galley::specs::Record::record_at))]
pub fn record_at(s: &[u8], at: usize) -> Result<Record, Unread>
    ensures { result ≡ record_at s.now at }
{
    let left = s.len().saturating_sub(at);
    if left < 2 {
        return Err(Unread {
            number: 1,
            place: at,
        });
    }
    let mark = galley::word::mark_at(s, at);
    if is_short(left, mark) {
        return Err(Unread {
            number: 1,
            place: at,
        });
    }
    fields_of(mark, s, at)
}
