// The ranges of the fields.
ghost use Rattle.std.specs.Prelude.{◌≡◌};
ghost use Rattle.galley.specs.Range.{spec_in_range, block_in_range};

use crate::{Block, Spec};

// Whether a specification's fields are in range.
#[tactic(auto, unfolding(crate::specs::Range::spec_in_range))]
pub fn spec_in_range(g: Spec) -> bool
    ensures { result ≡ spec_in_range g }
{
    g.htmin <= g.htmax
        && 1 <= g.htmax
        && g.htmax <= 100000
        && g.smin <= g.smax
        && g.smax <= 100000
        && 1 <= g.sides
        && g.sides <= 2
        && g.alpha <= 1000
        && g.beta <= 1000
        && g.lastmin <= g.htmax
}

// Whether a block's heights are in range.
#[tactic(auto, unfolding(crate::specs::Range::block_in_range))]
pub fn block_in_range(b: Block) -> bool
    ensures { result ≡ block_in_range b }
{
    b.height <= 100000 && b.least <= b.most && b.most <= 100000
}
