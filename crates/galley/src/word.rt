// Bytes, fields of four bytes and marks of two.
ghost use Rattle.std.specs.Prelude.{◌≡◌, ◌+◌, ◌≤◌, length};
ghost use Rattle.galley.specs.Word.{word_at, mark_at};

// The field at an offset.
#[tactic(auto, unfolding(crate::specs::Word::word_at))]
pub fn word_at(s: &[u8], at: usize) -> u32
    requires { at + 4 ≤ length s.now }
    ensures { result ≡ word_at s.now at }
{
    u32::from_be_bytes([s[at], s[at + 1], s[at + 2], s[at + 3]])
}

// The mark at an offset.
#[tactic(auto, unfolding(crate::specs::Word::mark_at))]
pub fn mark_at(s: &[u8], at: usize) -> u32
    requires { at + 2 ≤ length s.now }
    ensures { result ≡ mark_at s.now at }
{
    u32::from(u16::from_be_bytes([s[at], s[at + 1]]))
}

// A field as a count.
pub fn size(x: u32) -> usize
    ensures { result ≡ x }
{
    x as usize
}
