// The reader that goes through a galley: the lent bytes and the offset of the record that is due. Document 01, "Matching
// forms to places". Its methods are thin: the work is `record_at`'s, on slice and number, and callers use `read_record`.
ghost use Rattle.std.specs.Prelude.{◌≡◌};
ghost use Rattle.galley.specs.Record.{record_at};

use galley::{Record, Unread};

// The lent bytes, and an offset in them or past their end.
#[derive(Clone, Copy)]
pub struct Reader<'a> {
    pub src: &'a [u8],
    pub at: usize,
}

impl<'a> Reader<'a> {
    // A reader before the first record.
    pub fn new(src: &'a [u8]) -> Reader<'a>
        ensures { (result.src ≡ src.entry) × (result.at ≡ 0) }
    {
        Reader { src, at: 0 }
    }

    // The record that is due.
    pub fn next(self) -> Result<Record, Unread>
        ensures { result ≡ record_at self.entry.src.now self.entry.at }
    {
        records::record_at(self.src, self.at)
    }

    // The reader moved on to an offset, over the same bytes.
    pub fn moved(self, at: usize) -> Reader<'a>
        ensures { (result.src ≡ self.entry.src) × (result.at ≡ at) }
    {
        Reader { src: self.src, at }
    }
}

// The record at an offset, read by a reader that was moved there.
pub fn read_record(s: &[u8], at: usize) -> Result<Record, Unread>
    ensures { result ≡ record_at s.now at }
{
    Reader::new(s).moved(at).next()
}
