// The columns that were last found to be reached stand in a ring of words, so that the lines of others need no look, and few of their own
// do. Few columns are, where the search is limited, and each is asked for again by every later column.
ghost use Rattle.std.specs.Prelude.{◌≤◌, ◌<◌, length};
ghost use Rattle.candidates.specs.Cells.{ColumnRoom};
ghost use Rattle.reached.specs.Ring.{hint_of, Named};
ghost use Rattle.reached.specs.Recall.{Remembered, Noted};

use crate::look::Reach;
use galley::Galley;

// From column `since` on every column that is reached stands in the ring, and the next one takes word `head`.
#[derive(Clone, Copy)]
pub struct Recall {
    pub since: usize,
    pub head: usize,
}

// Column j put in the ring, with its first and its last reached line. It takes the place of the one that has stood there longest, and up to
// that one nothing is known from now on.
fn remember(seen: &mut [u32], recall: Recall, j: usize, reach: Reach) -> Recall
    requires { (recall.head < length seen.old) × (j ≤ 10250) × (reach.first ≤ 4000) × (reach.last ≤ 4000) }
    ensures { Remembered seen.old seen.new recall (hint_of j reach.first reach.last) result }
{
    let at = recall.head;
    let dropped = crate::ring::name_of(seen[at]);
    seen[at] = crate::ring::hint_of(j, reach.first, reach.last);
    Recall {
        since: recall.since.max(dropped),
        head: (at + 1) % seen.len(),
    }
}

// Column j, which is filled, put in the ring if a line of it from `from` on is reached.
pub fn note(
    g: Galley,
    work: &[u32],
    seen: &mut [u32],
    recall: Recall,
    j: usize,
    from: usize,
) -> Recall
    requires { ColumnRoom g work.now j × (recall.head < length seen.old) × Named seen.old j }
    ensures { Noted g work.now seen.old seen.new recall j from result }
{
    let Some(reach) = crate::look::reach_of(g, work, j, from, g.text.count + 1) else {
        return recall;
    };
    remember(seen, recall, j, reach)
}
