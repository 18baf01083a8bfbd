// Words copied over the first of others.
ghost use Rattle.std.specs.Prelude.{◌++◌, ◌≡◌, take, drop};
ghost use Rattle.layouts.specs.Words.{Room};

// So many words over the first of those that are lent.
pub fn copy_words(from: &[u32], count: usize, into: &mut [u32])
    requires { Room from.now count into.old }
    ensures { into.new ≡ take count from.now ++ drop count into.old }
{
    for i in 0..count {
        into[i] = from[i];
    }
}
