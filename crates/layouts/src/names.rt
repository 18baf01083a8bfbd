// The names of layouts: 1 to 16 bytes.
ghost use Rattle.std.specs.Prelude.{◌≡◌, ◌≤◌, length};
ghost use Rattle.layouts.specs.Names.{is_name, padded};

// Whether bytes can be a name.
pub fn is_name(name: &[u8]) -> bool
    ensures { result ≡ is_name name.now }
{
    (1 <= name.len()) & (name.len() <= 16)
}

// A name in 16 bytes, zeros after it.
pub fn pad(name: &[u8]) -> [u8; 16]
    requires { length name.now ≤ 16 }
    ensures { result ≡ padded name.now }
{
    let mut all = [0; 16];
    for i in 0..name.len() {
        all[i] = name[i];
    }
    all
}
