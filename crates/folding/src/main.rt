// The program: the folding order of every section, one number a line. Document 02, folding order.
#![tactic(auto)]

use std::io;

fn main(rt: HostRuntime) -> io::Result<()> {
    for number in &sections::table::numbers() {
        println!(&rt; "{number}")?;
    }
    Ok(())
}
