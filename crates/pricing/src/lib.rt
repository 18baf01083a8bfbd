// Whether a page may end at a place, and what it then costs: neither depends on where the page starts. What the floats say of it is
// the same for a whole column, and all but the side's part for both sides of a place: each is asked once.
#![tactic(auto)]

ghost use Rattle.std.specs.Prelude.{◌≡◌, List, ℕ};
ghost use Rattle.theorems.specs.turns.Waiting.{page_cost};
ghost use Rattle.theorems.specs.pages.Graph.{full};
ghost use Rattle.model.specs.Galley.{Sane};
ghost use Rattle.model.specs.Leaf.{ends};
ghost use Rattle.galley.specs.declared.Galley.{Galley};
ghost use Rattle.galley.specs.Model.{model_of, sides_in};
ghost use Rattle.galley.specs.Sound.{SoundStream};
ghost use Rattle.blocks.specs.declared.Counts.{Counts};
ghost use Rattle.blocks.specs.Counts.{place_of, Proper};
ghost use Rattle.rules.specs.Parts.{all_placed};
ghost use Rattle.pricing.specs.Stop.{floats_say, stop_from, stop_at, stops_at, ending_side, Stopping};
ghost use Rattle.pricing.specs.Price.{waits_at, Priceable};

use blocks::Counts;
use galley::Galley;

// What the floats placed say of a page that ends with them, whatever its last line: whether their spaces let it end, the line from
// which on the last of each stream is cited, and whether none is left.
#[derive(Clone, Copy)]
pub struct Floats {
    pub closes: bool,
    pub cited: usize,
    pub all: bool,
}

// What a place says of a page that ends there, on either side: whether rule 14 lets it, whether it keeps rule 17 should that be
// asked, and whether every block is placed.
#[derive(Clone, Copy)]
pub struct Stop {
    pub closes: bool,
    pub cited: bool,
    pub full: bool,
}

// What the floats of a column say.
pub fn floats_of(s: &[u8], g: Galley, top: Counts) -> Floats
    requires { Stopping s.now g top }
    ensures { result ≡ floats_say s.now g top }
{
    let figures = rules::rules::may_end(s, g.figures, top.figures);
    let tables = rules::rules::may_end(s, g.tables, top.tables);
    Floats {
        closes: figures & tables,
        cited: rules::rules::cited_from(s, g, top),
        all: (top.figures == g.figures.count) & (top.tables == g.tables.count),
    }
}

// What a place says, by its line and the floats of its column.
pub fn stop_at(s: &[u8], g: Galley, line: usize, floats: Floats) -> Stop
    requires { SoundStream s.now g.text }
    ensures { result ≡ stop_from s.now g line floats }
{
    Stop {
        closes: rules::rules::may_end(s, g.text, line) & floats.closes,
        cited: floats.cited <= line,
        full: (line == g.text.count) & floats.all,
    }
}

// The side whose pages end their leaf: in single-sided work the only one.
pub fn ending_side(g: Galley) -> usize
    ensures { result ≡ ending_side g }
{
    if g.spec.sides == 2 {
        return (g.folio % 2) as usize;
    }
    0
}

// Whether a page may end at a place: where a leaf (`turns`) or the list ends, no float is placed that is not cited.
pub fn may_stop(stop: Stop, turns: bool) -> bool
    ensures { (bytes : List ℕ) (g : Galley) (at : Counts) (c : ℕ) → Proper g at → stop ≡ stop_at bytes g at → turns ≡ ends (sides_in g) c → result ≡ stops_at (model_of bytes g) (place_of g at) c }
{
    stop.closes & (!(turns | stop.full) | stop.cited)
}

// What a page costs that ends at a place, with so many floats waiting: where it ends its leaf and is not the last, the floats that
// wait, by α, and the turn, by β.
pub fn price(g: Galley, last: bool, turns: bool, waiting: usize) -> u32
    requires { Priceable g waiting }
    ensures { (bytes : List ℕ) (at : Counts) (c : ℕ) → Proper g at → Sane (model_of bytes g) → last ≡ all_placed g at → turns ≡ ends (sides_in g) c → waiting ≡ waits_at bytes g at → result ≡ page_cost (model_of bytes g) c (full (model_of bytes g) (place_of g at)) (place_of g at) }
{
    if last {
        return 0;
    }
    if !turns {
        return 0;
    }
    g.spec.alpha * (waiting as u32) + g.spec.beta
}
