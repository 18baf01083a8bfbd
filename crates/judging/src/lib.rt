// The rules as marking asks them: 12 of a list, and of a page the first of 13 and 14 that it breaks, and of 16 and 17 for a height that is
// known. Document 01, "Marking".
#![tactic(auto)]

ghost use Rattle.std.specs.Prelude.{◌≡◌, Bool, ◌&&◌, ◌||◌, List, ℕ, ◌≤◌, length, leb, ltb};
ghost use Rattle.model.specs.Gather.{implies};
ghost use Rattle.model.specs.Rules.{forward, closes, floor, cited};
ghost use Rattle.model.specs.Answers.{counted};
ghost use Rattle.model.specs.Leaf.{ends};
ghost use Rattle.galley.specs.Model.{floats_of, sides_in, model_of};
ghost use Rattle.galley.specs.Sound.{SoundStream, Sound};
ghost use Rattle.blocks.specs.Counts.{place_of, Proper, Within};
ghost use Rattle.rules.specs.Parts.{kinds_on, fault_from, start_fault};

use blocks::Counts;
use galley::{Galley, Stream};
use model::page::Page;

// 12: there are words, whole pages of them, and no more pages than blocks.
pub fn is_counted(g: Galley, words: usize) -> bool
    requires { (g.text.count ≤ 4000) × (g.figures.count ≤ 200) × (g.tables.count ≤ 50) }
    ensures { (bytes ws : List ℕ) → length ws ≡ words → result ≡ counted (model_of bytes g) ws }
{
    let w = blocks::page_words(g);
    (0 < words)
        & (words % w == 0)
        & (words <= w * (g.text.count + g.figures.count + g.tables.count))
}

// 13: no count falls or passes its stream's, and the page is not empty.
fn is_forward(g: Galley, u: Counts, v: Counts) -> bool
    ensures { (bytes : List ℕ) → Proper g u → Proper g v → result ≡ forward (model_of bytes g) (place_of g u) (place_of g v) }
{
    let lines = (u.lines <= v.lines) & (v.lines <= g.text.count);
    let figures = (u.figures <= v.figures) & (v.figures <= g.figures.count);
    let tables = (u.tables <= v.tables) & (v.tables <= g.tables.count);
    let some = (u.lines < v.lines) | ((u.figures < v.figures) | (u.tables < v.tables));
    (lines & (figures & tables)) & some
}

// 14: a page may end where every stream lets it end.
pub fn may_close(s: &[u8], g: Galley, v: Counts) -> bool
    requires { (Sound s.now g) × (Proper g v) }
    ensures { result ≡ closes (model_of s.now g) (place_of g v) }
{
    rules::rules::may_end(s, g.text, v.lines)
        & (rules::rules::may_end(s, g.figures, v.figures)
            & rules::rules::may_end(s, g.tables, v.tables))
}

// 17, for one stream of floats: where it is asked, the last float placed is cited by a line already placed.
pub fn is_cited(s: &[u8], floats: Stream, asked: bool, i: usize, j: usize) -> bool
    requires { (SoundStream s.now floats) × (j ≤ floats.count) }
    ensures { result ≡ implies (asked && ltb 0 j) (leb ((floats_of s.now floats).cite j) i) }
{
    if asked & (0 < j) {
        return blocks::field(s, floats, j, galley::CITE) as usize <= i;
    }
    true
}

// 17: the last float placed of each stream is.
pub fn are_cited(s: &[u8], g: Galley, asked: bool, v: Counts) -> bool
    requires { (Sound s.now g) × (Within g v) }
    ensures { (q : ℕ) (last : Bool) → asked ≡ (ends (sides_in g) q || last) → result ≡ cited (model_of s.now g) q last (place_of g v) }
{
    is_cited(s, g.figures, asked, v.lines, v.figures)
        & is_cited(s, g.tables, asked, v.lines, v.tables)
}

// How many kinds a page from u to v has: of streams that it has a block of.
pub fn kinds_on(u: Counts, v: Counts) -> u32
    ensures { (result ≡ kinds_on u v) × (result ≤ 3) }
{
    u32::from(u.lines < v.lines)
        + (u32::from(u.figures < v.figures) + u32::from(u.tables < v.tables))
}

// The first that is broken of a rule and the one after it.
fn first_fault(rule: u32, kept: bool, next: bool) -> Option<u32>
    requires { rule ≤ 17 }
    ensures { result ≡ fault_from rule kept next }
{
    if !kept {
        return Some(rule);
    }
    if !next {
        return Some(rule + 1);
    }
    None
}

// The first of 13 and 14 that a page from u to v breaks.
pub fn start_fault(s: &[u8], g: Galley, u: Counts, v: Counts) -> Option<u32>
    requires { (Sound s.now g) × (Proper g u) × (Proper g v) }
    ensures { result ≡ start_fault (model_of s.now g) (place_of g u) (place_of g v) }
{
    let forward = is_forward(g, u, v);
    let closes = may_close(s, g, v);
    first_fault(13, forward, closes)
}

// The first of 16 and 17 that a page of this loosest height breaks.
pub fn end_fault(s: &[u8], g: Galley, loose: u32, page: Page, last: bool, v: Counts) -> Option<u32>
    requires { (Sound s.now g) × (Within g v) }
    ensures { result ≡ fault_from 16 (leb (floor (model_of s.now g) last) loose) (cited (model_of s.now g) page.0 last (place_of g v)) }
{
    let fills = rules::rules::floor_of(g, last) <= loose;
    let asked = model::page::ends_spread(g.spec.sides, g.folio, page) | last;
    let cited = are_cited(s, g, asked, v);
    first_fault(16, fills, cited)
}
