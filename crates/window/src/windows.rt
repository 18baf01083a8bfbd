// The windows of the lines of a column, kept from one side to the next: they depend on heights alone.
ghost use Rattle.window.specs.Windows.{Windowable, WindowFound};

use crate::rows::ROOM;
use crate::slide::{Load, Window};

// The rows before those of windows: the room of two queues.
const KEPT: usize = 2 * ROOM;

// The window of line i, from that of the line before. On side 0 it is found, and kept as row KEPT + i, behind the room of two
// queues; on a further side it is what was kept.
pub fn window_of(
    sums: &[u32],
    load: Load,
    words: &mut [u32],
    before: Window,
    i: usize,
    c: usize,
) -> Window
    requires { Windowable sums.now load words.old before i }
    ensures { WindowFound sums.now load words.old before i c result words.new }
{
    if 0 < c {
        let at = 3 * (i + KEPT);
        return Window {
            low: galley::word::size(words[at]),
            split: galley::word::size(words[at + 1]),
            high: galley::word::size(words[at + 2]),
        };
    }
    let window = crate::slide::slide(sums, load, before, i);
    let ends = [window.low as u32, window.split as u32, window.high as u32];
    crate::rows::put(words, i + KEPT, ends);
    window
}
