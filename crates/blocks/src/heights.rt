// The heights of a page, block by block: a marking goes forward from the page's start, a search back from its end.
ghost use Rattle.std.specs.Prelude.{◌≡◌, ◌+◌};
ghost use Rattle.blocks.specs.Heights.{Joint, Room, Separable, put_on, with_block, block_before, separated};

use galley::{Galley, Stream};

// Heights with every space at its least, and with every space at its greatest.
#[derive(Clone, Copy, PartialEq, Eq, Debug)]
pub struct Heights {
    pub tight: u32,
    pub loose: u32,
}

// The heights with block k more, and with the space after block `gap` where that is on the page.
#[tactic(auto, unfolding(crate::specs::Heights::added, crate::specs::Heights::put_on))]
fn put_on(s: &[u8], stream: Stream, heights: Heights, k: usize, gap: usize, spaced: bool) -> Heights
    requires { Joint s.now stream heights k gap spaced }
    ensures { result ≡ put_on s.now stream heights k gap spaced }
{
    let height = crate::field(s, stream, k, galley::HEIGHT);
    if spaced {
        let least = crate::field(s, stream, gap, galley::LEAST);
        let most = crate::field(s, stream, gap, galley::MOST);
        return Heights {
            tight: heights.tight + (height + least),
            loose: heights.loose + (height + most),
        };
    }
    Heights {
        tight: heights.tight + height,
        loose: heights.loose + height,
    }
}

// Going forward: from heights with blocks a + 1 to k those with block k + 1 too.
pub fn with_block(s: &[u8], stream: Stream, heights: Heights, a: usize, k: usize) -> Heights
    requires { Room s.now stream heights (k + 1) }
    ensures { result ≡ with_block s.now stream heights a k }
{
    put_on(s, stream, heights, k + 1, k, a < k)
}

// Going back: from heights with blocks a + 2 to b those with block a + 1 too.
pub fn block_before(s: &[u8], stream: Stream, heights: Heights, a: usize, b: usize) -> Heights
    requires { Room s.now stream heights b }
    ensures { result ≡ block_before s.now stream heights a b }
{
    if b <= a {
        return heights;
    }
    put_on(s, stream, heights, a + 1, a + 1, a + 1 < b)
}

// The heights with so many separations more: a page of several kinds has one for each kind beyond the first.
#[tactic(auto, using(crate::specs::laws::Heights::separated_low))]
pub fn separated(g: Galley, n: u32, heights: Heights) -> Heights
    requires { Separable g.spec n heights }
    ensures { result ≡ separated g.spec n heights }
{
    Heights {
        tight: heights.tight + n * g.spec.smin,
        loose: heights.loose + n * g.spec.smax,
    }
}
