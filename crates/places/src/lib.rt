// The work area of lent memory, in which each place's least cost is kept: document 01, "Making".
//
// A place has ten words, five for each side of the page that ends there: the tag, which is 1 where the place is reached, the cost
// in two words, the low one first, and the line and column that the page starts at. Places stand column by column.
#![tactic(auto)]

ghost use Rattle.std.specs.Prelude.{◌≡◌, ◌+◌, ◌≤◌, length, take, replicate};
ghost use Rattle.std.proofs.lemmas.List.Edits.{sets};
ghost use Rattle.places.specs.Entry.{low_of, high_of, joined, entry_at, stored, cleared};
ghost use Rattle.places.specs.Address.{address, words_needed, Inside, Small, Limited, Stands};
ghost use Rattle.places.specs.Table.{table_of};

// Where a page starts, and where it ends: the lines placed so far, and the column, which is the number of the figures and tables
// placed so far.
#[derive(Clone, Copy, PartialEq, Eq, PartialOrd, Ord)]
pub struct Place {
    pub line: u32,
    pub column: u32,
}

// The least cost of a place, with the side of the page ending there; with the cost goes the start of that page. A cost is one
// number: turns by 2³², and white, so that turns decide and then white.
#[derive(Clone, Copy, PartialEq, Eq)]
pub struct Least {
    pub cost: u64,
    pub start: Place,
}

// A place is either unreached or has a least cost.
pub type Entry = Option<Least>;

// A limit that no list passes: the dearest costs 1,066,499,000 turns and 424,900,000 of white.
pub const BOUNDLESS: u64 = 4600000000000000000;

// What the high word of a cost counts. std has no conversion of a number to its two words and back, hence the three functions below.
const WORD: u64 = 4294967296;

// Where a search begins: the place, the pages before it, and what they cost; and how far it goes: what the pages after it may cost in all
// to be looked for.
#[derive(Clone, Copy)]
pub struct Origin {
    pub place: Place,
    pub pages: u32,
    pub cost: u64,
    pub limit: u64,
}

// The place of so many lines and a column.
pub fn place_of(line: usize, column: usize) -> Place
    requires { Small line column }
    ensures { result ≡ record { line = line; column = column } }
{
    Place {
        line: line as u32,
        column: column as u32,
    }
}

// The low word of a cost.
pub fn low_of(cost: u64) -> u32
    ensures { result ≡ low_of cost }
{
    (cost % WORD) as u32
}

// Its high word.
pub fn high_of(cost: u64) -> u32
    ensures { result ≡ high_of cost }
{
    (cost / WORD) as u32
}

// The cost of these two words.
pub fn joined(low: u32, high: u32) -> u64
    ensures { result ≡ joined low high }
{
    u64::from(high) * WORD + u64::from(low)
}

// Where the five words start of a place on a side, in columns of `tall` places.
fn address_of(tall: usize, place: Place, side: usize) -> usize
    requires { Inside tall place side }
    ensures { result ≡ address tall place.line place.column side }
{
    (place.column as usize * tall + place.line as usize) * 10 + side * 5
}

// The entry whose five words start at `at`.
fn entry_at(work: &[u32], at: usize) -> Entry
    requires { at + 5 ≤ length work.now }
    ensures { result ≡ entry_at work.now at }
{
    if work[at] == 1 {
        let cost = joined(work[at + 1], work[at + 2]);
        let start = Place {
            line: work[at + 3],
            column: work[at + 4],
        };
        Some(Least { cost, start })
    } else {
        None
    }
}

// The entry of a place on a side.
pub fn entry_of(work: &[u32], tall: usize, place: Place, side: usize) -> Entry
    requires { Stands work.now tall place side }
    ensures { result ≡ table_of tall work.now place.line place.column side }
{
    entry_at(work, address_of(tall, place, side))
}

// So many words written from `at` on.
pub fn put<const N: usize>(words: &mut [u32], at: usize, row: [u32; N])
    requires { at + N ≤ length words.old }
    ensures { words.new ≡ sets words.old at row.entry }
{
    for k in 0..N {
        words[at + k] = row[k];
    }
}

// The entry of a place on a side stored.
pub fn store(work: &mut [u32], tall: usize, place: Place, side: usize, entry: Entry)
    requires { Stands work.old tall place side }
    ensures { work.new ≡ stored work.old (address tall place.line place.column side) entry }
{
    let at = address_of(tall, place, side);
    match entry {
        None => put(work, at, [0; 5]),
        Some(Least { cost, start }) => {
            let words = [1, low_of(cost), high_of(cost), start.line, start.column];
            put(work, at, words);
        }
    }
}

// The first `n` words made zeros, where those before word `from` are zeros already.
pub fn clear(work: &mut [u32], from: usize, n: usize)
    requires { (from ≤ n) × (n ≤ length work.old) × (take from work.old ≡ replicate from 0) }
    ensures { work.new ≡ cleared n work.old }
{
    for k in from..n {
        work[k] = 0;
    }
}

// The words that a galley of so many lines and columns needs.
pub fn words_needed(lines: usize, columns: usize) -> usize
    requires { Limited lines columns }
    ensures { result ≡ words_needed lines columns }
{
    10 * ((lines + 1) * columns)
}
