// What is added up page by page, and what a page adds to W.
ghost use Rattle.std.specs.Prelude.{◌≡◌, ◌≤◌};
ghost use Rattle.rules.specs.Sums.{white_at};

use galley::Galley;

// X and W so far.
#[derive(Clone, Copy, PartialEq, Eq, Default, Debug)]
pub struct Sums {
    pub x: u32,
    pub white: u32,
}

// What a page of this loosest height adds to W: what it lacks of htMax, and nothing where it is the last.
pub fn white_at(g: Galley, last: bool, loose: u32) -> u32
    ensures { (result ≡ white_at g last loose) × (result ≤ g.spec.htmax) }
{
    if last {
        0
    } else {
        g.spec.htmax.saturating_sub(loose)
    }
}
