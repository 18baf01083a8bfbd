// Heights of the text from its first line on, so that the height of any run of lines is what one sum has beyond another. A line has three
// words: how far the lines before it reach with the space after each of them, at the least spaces and at the greatest, and its height.
ghost use Rattle.std.specs.Prelude.{◌≡◌, ◌+◌, ◌*◌, ◌≤◌, length};
ghost use Rattle.galley.specs.Model.{text_of};
ghost use Rattle.window.specs.Sums.{spaced_at, bare_at, SumsRoom, Sums};

use galley::Stream;

// Which of a line's sums: with the spaces at their least, or at their greatest.
pub const TIGHT: usize = 0;

pub const LOOSE: usize = 1;

// How far the lines up to k reach with the space after line k. That is where the line after it begins.
pub fn spaced(sums: &[u32], space: usize, k: usize) -> u32
    requires { (space ≤ 1) × (3 * k + 6 ≤ length sums.now) }
    ensures { result ≡ spaced_at sums.now space k }
{
    sums[3 * k + 3 + space]
}

// The same without that space.
pub fn bare(sums: &[u32], space: usize, k: usize) -> u32
    requires { (space ≤ 1) × (3 * k + 3 ≤ length sums.now) × (bare_at sums.now space k ≤ 1000000000) }
    ensures { result ≡ bare_at sums.now space k }
{
    sums[3 * k + space] + sums[3 * k + 2]
}

// The sums of every line of the text, with zeros for the place before the first, and after the last how far it reaches.
pub fn gather(s: &[u8], text: Stream, sums: &mut [u32])
    requires { SumsRoom s.now text sums.old }
    ensures { Sums (text_of s.now text) text.count sums.new }
{
    crate::rows::put(sums, 0, [0, 0, 0]);
    let mut tight = 0;
    let mut loose = 0;
    for k in 0..text.count {
        let height = blocks::field(s, text, k + 1, galley::HEIGHT);
        let least = blocks::field(s, text, k + 1, galley::LEAST);
        let most = blocks::field(s, text, k + 1, galley::MOST);
        crate::rows::put(sums, k + 1, [tight, loose, height]);
        tight += height + least;
        loose += height + most;
    }
    crate::rows::put(sums, text.count + 1, [tight, loose, 0]);
}
