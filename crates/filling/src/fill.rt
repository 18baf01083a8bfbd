// The work area filled with the entry of every place, column by column: document 01, "Making".
ghost use Rattle.std.specs.Prelude.{◌≡◌, false, suc, ◌+◌, ◌≤◌, IfSome};
ghost use Rattle.galley.specs.Model.{model_of};
ghost use Rattle.galley.specs.Sound.{SoundStream};
ghost use Rattle.candidates.specs.Cells.{ColumnRoom, Blank};
ghost use Rattle.candidates.specs.Read.{columns_in};
ghost use Rattle.filling.specs.Fill.{fill_column, fill_columns, filled};
ghost use Rattle.filling.specs.Next.{end_from, line_or, Begun, Onward, LastNext, TableNext, Fillable};
ghost use Rattle.filling.specs.Recall.{ColumnTurn, ColumnFilled};

use blocks::Counts;
use blocks::heights::Heights;
use entries::side::{End, Task, Windows};
use galley::Galley;
use places::Origin;
use pricing::Floats;
use reached::recall::Recall;
use rules::waiting::Waiting;
use starts::sweep::Begin;

// Where a page ends, from what waits there and what the floats placed say of it. Its sides are told apart later.
fn end_at(s: &[u8], g: Galley, at: Counts, column: usize, floats: Floats, waiting: Waiting) -> End
    requires { SoundStream s.now g.text × (waiting.figures + waiting.tables ≤ 250) }
    ensures { result ≡ end_from s.now g at column floats waiting }
{
    let stop = pricing::stop_at(s, g, at.lines, floats);
    End {
        at,
        column,
        side: 0,
        turns: false,
        waiting: waiting.figures + waiting.tables,
        stop,
    }
}

// The line that a column is filled to at least: `last`, until that is above `low`, from which on pages are not too tall, and then the
// first from there on that is reached or has a start in an earlier column, where there is one. A line is looked at only once, since `low`
// never falls.
fn next_start(g: Galley, work: &[u32], j: usize, low: usize, last: usize) -> Option<usize>
    requires { ColumnRoom g work.now j × (low ≤ g.text.count) × (last ≤ g.text.count) }
    ensures onward { Onward g work.now j low last (line_or g result) }
    ensures within { IfSome result (λ r. r ≤ g.text.count) }
{
    if low <= last {
        return Some(last);
    }
    reached::look::first_line(g, work, j, low)
}

// The places of column j, from its first line that has a start to the last line that a page can reach, each of which holds its best
// start in an earlier column. A start in the column itself has its entry there by the time that a queue takes it up, and no line before
// the first is one. Where every start stands so far up that a page from there is too tall, nothing more is reached, and the lines below
// are left as they are. All have the figures and tables of the column's top.
fn last_sweep(
    s: &[u8],
    task: Task,
    work: &mut [u32],
    sums: &[u32],
    words: &mut [u32],
    j: usize,
    first: usize,
)
    requires { LastNext s.now task work.old sums.now words.old j first }
    ensures { work.new ≡ fill_column (model_of s.now task.galley) task.origin j (suc task.galley.text.count) 0 work.old }
{
    let g = task.galley;
    let least = rules::rules::floor_of(g, false);
    let begin = task.origin.place.line as usize;
    let load = candidates::read::load_of(g, 0, Heights { tight: 0, loose: 0 }, least, begin);
    let top = candidates::read::counts_at(g, 0, j);
    let floats = pricing::floats_of(s, g, top);
    let mut waiting = Waiting {
        figures: 0,
        tables: 0,
    };
    let shut = window::slide::shut(load);
    let mut span = window::slide::slide(sums, load, shut, first);
    let mut ends = [0, 0, 4000, 4000, 8000, 8000, 12000, 12000];
    let mut last = first;
    for i in first..g.text.count + 1 {
        let from = span;
        span = window::slide::slide(sums, load, from, i);
        let Some(onto) = next_start(g, work, j, span.low, last) else {
            return;
        };
        last = onto;
        let at = Counts { lines: i, ..top };
        waiting = rules::waiting::waiting_after(s, g, at, waiting);
        let windows = Windows { from, to: span };
        let end = end_at(s, g, at, j, floats, waiting);
        entries::side::fill_place(s, task, work, sums, words, &mut ends, windows, end);
    }
}

// The first line of column j that a page may reach: in the origin's column that of the origin, else the first from there on that has a
// start in an earlier column, where one has. Where no such column is reached there is nothing to look for.
fn first_start(task: Task, work: &[u32], j: usize, any: bool) -> Option<usize>
    requires { ColumnRoom task.galley work.now j × (task.origin.place.line ≤ task.galley.text.count) × (any ≡ false → Blank task.galley work.now j) }
    ensures begun { Begun task work.now j (line_or task.galley result) }
    ensures within { IfSome result (λ r. r ≤ task.galley.text.count) }
{
    let line = task.origin.place.line as usize;
    if j == task.origin.place.column as usize {
        return Some(line);
    }
    if !any {
        return None;
    }
    reached::look::first_line(task.galley, work, j, line)
}

// Column j: first the starts in the columns before it, then those in the column itself. Where there is neither it is left unreached.
// The columns that are reached are kept in the ring `seen`.
fn fill_column(
    s: &[u8],
    task: Task,
    work: &mut [u32],
    sums: &[u32],
    words: &mut [u32],
    j: usize,
    seen: &mut [u32],
    recall: Recall,
) -> Recall
    requires { ColumnTurn s.now task work.old sums.now words.old seen.old j recall }
    ensures { ColumnFilled s.now task work.old work.new seen.new j result }
{
    let line = task.origin.place.line as usize;
    let origin = candidates::read::counts_at(task.galley, line, task.origin.place.column as usize);
    let begin = Begin {
        origin,
        since: recall.since,
    };
    let any = starts::sweep::sweep_column(s, task.galley, work, sums, words, seen, j, begin);
    let Some(first) = first_start(task, work, j, any) else {
        return recall;
    };
    last_sweep(s, task, work, sums, words, j, first);
    reached::recall::note(task.galley, work, seen, recall, j, first)
}

// All columns from that of the origin on: nothing in an earlier one is past the origin, so that no page reaches it.
fn fill_columns(s: &[u8], task: Task, work: &mut [u32], sums: &[u32], words: &mut [u32])
    requires { TableNext s.now task work.old sums.now words.old }
    ensures { work.new ≡ fill_columns (model_of s.now task.galley) task.origin (columns_in task.galley) 0 work.old }
{
    let columns = candidates::read::columns_of(task.galley);
    // The last columns that are reached. Where more are, those before them are looked at each time.
    let mut seen = [0u32; 68];
    let begin = task.origin.place.column as usize;
    let mut recall = Recall {
        since: begin,
        head: 0,
    };
    for j in begin..columns {
        recall = fill_column(s, task, work, sums, words, j, &mut seen, recall);
    }
}

// The whole table from an origin on, whatever the work area held before: that is cleared at once, which is faster than column by column.
pub fn fill(s: &[u8], g: Galley, origin: Origin, work: &mut [u32])
    requires { Fillable s.now g origin work.old }
    ensures { work.new ≡ filled (model_of s.now g) origin work.old }
{
    // For 4,000 lines: three words to a line for their sums, with a line before and one after them, and three words to a line for each
    // side's two queues, or for two queues, the windows and the bounds.
    let mut sums = [0u32; 12006];
    let mut words = [0u32; 48000];
    window::sums::gather(s, g.text, &mut sums);
    let columns = candidates::read::columns_of(g);
    places::clear(work, 0, places::words_needed(g.text.count, columns));
    fill_columns(s, Task { galley: g, origin }, work, &sums, &mut words);
}
