// The layouts of a desk, by their names. Document 02, S-8.
#![tactic(auto)]

ghost use Rattle.std.specs.Prelude.{map, ◌≡◌, ◌≤◌, length};
ghost use Rattle.layouts.specs.Names.{free_layout, is_named, freed, find_named, room_for, layout_of};

pub mod names; // names.rt: the names of layouts
pub mod words; // words.rt: words copied over the first of others

// A list under a name: the bytes of the name, how many there are, and the words of the list. A layout whose name has no bytes is
// free. C lends this memory, of any contents: so a length stands beside the bytes.
#[repr(C)]
#[derive(Clone, Copy)]
pub struct Layout {
    pub len: u32,
    pub name: [u8; 16],
    pub list: [u32; 192],
}

impl Layout {
    // A layout without a name.
    pub fn free() -> Layout
        ensures { result ≡ free_layout }
    {
        Layout {
            len: 0,
            name: [0; 16],
            list: [0; 192],
        }
    }

    // A list under a name.
    pub fn under(name: &[u8], list: [u32; 192]) -> Layout
        requires { length name.now ≤ 16 }
        ensures { result ≡ layout_of name.now list }
    {
        let len = name.len() as u32;
        let name = names::pad(name);
        Layout { len, name, list }
    }

    // Whether it is under a name: as many bytes, and the same. Under no bytes it is free.
    pub fn is_named(&self, name: &[u8]) -> bool
        ensures { result ≡ is_named self.now name.now }
    {
        if self.len as usize != name.len() || 16 < name.len() {
            return false;
        }
        for i in 0..name.len() {
            if self.name[i] != name[i] {
                return false;
            }
        }
        true
    }

    // It is no longer under a name; where it was under another it stays as it was.
    fn drop_name(&mut self, name: &[u8])
        ensures { self.new ≡ freed name.now self.old }
    {
        if self.is_named(name) {
            self.len = 0;
        }
    }
}

// The number of the first layout under a name, counted from 0.
pub fn find(layouts: &[Layout; 8], name: &[u8]) -> Option<usize>
    ensures { result ≡ find_named layouts.now name.now }
{
    for at in 0..layouts.len() {
        if layouts[at].is_named(name) {
            return Some(at);
        }
    }
    None
}

// Where a list is kept under a name: where the name is held, else the first layout that is free.
pub fn room_for(layouts: &[Layout; 8], name: &[u8]) -> Option<usize>
    ensures { result ≡ room_for layouts.now name.now }
{
    find(layouts, name).or_else(|| find(layouts, &[]))
}

// A name freed: no layout is under it.
pub fn free(layouts: &mut [Layout; 8], name: &[u8])
    ensures { layouts.new ≡ map (freed name.now) layouts.old }
{
    for at in 0..layouts.len() {
        layouts[at].drop_name(name);
    }
}
