// The folios on which the chapters of a book open, from the folio after the last back to that of the first.
ghost use Rattle.std.specs.Prelude.{◌≡◌, ◌+◌, drop};
ghost use Rattle.course.specs.Trace.{followed, Followable};

// They go by where each route comes from: of chapter k, from 0, and next folio o the word 2·k + o − 1 says it.
pub fn trace(from: &[u32], chapters: usize, last: u32, folios: &mut [u32])
    requires { Followable from.now chapters last folios.old }
    ensures { folios.new ≡ followed from.now chapters last (drop (chapters + 1) folios.old) }
{
    folios[chapters] = last;
    for k in (0..chapters).rev() {
        let next = folios[k + 1] as usize;
        folios[k] = from[2 * k + next - 1];
    }
}
