// The ends of a window of starting lines, moved on as the page's last line moves on. Heights are compared as sums, never as
// differences.
ghost use Rattle.std.specs.Prelude.{◌≡◌, ◌+◌};
ghost use Rattle.window.specs.Slide.{reached_of, shut_at, too_tall, Readable, Reachable, Slidable, FirstBelow, Slid};

use crate::sums::{LOOSE, TIGHT};

// What a page has beside its lines, the heights that it must keep to, and the first line that it may start from: the lines before that
// one are no starts, and no window goes back to them.
#[derive(Clone, Copy)]
pub struct Load {
    pub tight: u32,
    pub loose: u32,
    pub htmin: u32,
    pub htmax: u32,
    pub first: usize,
}

// A window of starting lines: from `low` on pages are not too tall, before `split` they reach htMax at their loosest and have no
// white, and before `high` they are full enough.
#[derive(Clone, Copy)]
pub struct Window {
    pub low: usize,
    pub split: usize,
    pub high: usize,
}

// The window of no line, at the first that a page may start from.
pub fn shut(load: Load) -> Window
    ensures { result ≡ shut_at load }
{
    Window {
        low: load.first,
        split: load.first,
        high: load.first,
    }
}

// How far a page to line i reaches from the first line on, with `beside` added to its lines. `space` says which sums are taken, TIGHT
// or LOOSE.
pub fn reached(sums: &[u32], space: usize, beside: u32, i: usize) -> u32
    requires { Readable sums.now space beside i }
    ensures { result ≡ reached_of sums.now space beside i }
{
    crate::sums::bare(sums, space, i) + beside
}

// The first line from `from` on whose page to line i stays below `limit` with `beside` added to its lines; i where there is none.
pub fn first_below(
    sums: &[u32],
    space: usize,
    beside: u32,
    limit: u32,
    from: usize,
    i: usize,
) -> usize
    requires { Reachable sums.now space beside limit from i }
    ensures { FirstBelow sums.now space beside limit from i result }
{
    let far = reached(sums, space, beside, i);
    for a in from..i {
        if far < limit + crate::sums::spaced(sums, space, a) {
            return a;
        }
    }
    i
}

// Whether a page from line a to line i is too tall.
pub fn too_tall(sums: &[u32], load: Load, a: usize, i: usize) -> bool
    requires { Reachable sums.now 0 load.tight (load.htmax + 1) a i }
    ensures { result ≡ too_tall sums.now load a i }
{
    load.htmax + crate::sums::spaced(sums, TIGHT, a) < reached(sums, TIGHT, load.tight, i)
}

// The window of a page that ends with line i, from that of the line before.
pub fn slide(sums: &[u32], load: Load, window: Window, i: usize) -> Window
    requires { Slidable sums.now load window i }
    ensures { Slid sums.now load window i result }
{
    Window {
        low: first_below(sums, TIGHT, load.tight, load.htmax + 1, window.low, i),
        split: first_below(sums, LOOSE, load.loose, load.htmax, window.split, i),
        high: first_below(sums, LOOSE, load.loose, load.htmin, window.high, i),
    }
}
