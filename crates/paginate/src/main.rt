// The program: a galley from standard input, its pages to standard output. Document 01, "The program".
#![tactic(auto)]

ghost use Rattle.std.specs.Prelude.{◌+◌, ◌≤◌, ◌<◌, ◌≡◌, length, IfOk, IfSome};
ghost use Rattle.model.specs.Galley.{streams};
ghost use Rattle.galley.specs.declared.Galley.{Galley};
ghost use Rattle.galley.specs.Whole.{galley_of};
ghost use Rattle.galley.specs.Model.{model_of};

use std::io;
use std::io::Read;

// How many words a page has in the list: one for each stream of the galley. A galley that is refused has no list.
fn words_of(galley: &[u8]) -> Option<usize>
    ensures { IfSome result (λ words. (2 ≤ words) × (words ≤ 3))
        × ((g : Galley) → galley_of galley.now ≡ Ok g → result ≡ Some (streams (model_of galley.now g))) }
{
    match reading::read_galley(galley) {
        Ok(g) => Some(blocks::page_words(g)),
        Err(_) => None,
    }
}

// Page q with the lines, figures and, where there are any, tables placed so far, in one write.
fn print_page(rt: &impl Print, q: usize, ends: &[u32]) -> io::Result<()>
    requires { (2 ≤ length ends.now) × (length ends.now ≤ 3) }
{
    match ends {
        [lines, figures] => println!(rt; "{q} {lines} {figures}"),
        [lines, figures, tables] => println!(rt; "{q} {lines} {figures} {tables}"),
        _ => unreachable!(),
    }
}

// Every page, of so many words: there is room for no more than the list has words.
fn print_pages(rt: &impl Print, pages: u32, list: &[u32; 400], words: usize) -> io::Result<()>
    requires { (2 ≤ words) × (words ≤ 3) }
{
    for (i, ends) in list.chunks_exact(words).take(pages as usize).enumerate() {
        print_page(rt, i + 1, ends)?;
    }
    Ok(())
}

// Standard input into the first of the lent bytes, until they are full or it ends, and how many bytes came.
fn read_input(rt: &impl Input, input: &mut [u8; 8193]) -> io::Result<usize>
    ensures { IfOk result (λ got. got ≤ 8193) }
{
    let mut reader = rt.reader();
    let mut got: usize = 0;
    // How many bytes a read brings only the read tells, so no range counts the turns.
    while got < 8193 {
        let more = reader.read(&mut input[got..])?;
        if more == 0 {
            return Ok(got);
        }
        got += more;
    }
    Ok(got)
}

fn main(rt: HostRuntime) -> io::Result<()> {
    let mut input = [0u8; 8193];
    let got = read_input(&rt, &mut input)?;
    if 8192 < got {
        return println!(&rt; "R 19 8192");
    }
    let mut work = [0u32; 10248];
    let mut list = [0u32; 400];
    let made = making::make(&input[..got], &mut work, &mut list);
    match made.answer {
        Ok(n) => {
            println!(&rt; "{} {} {} {} {}", n.pages, n.x, n.y, n.turns, n.white)?;
            match words_of(&input[..got]) {
                Some(words) => print_pages(&rt, n.pages, &list, words),
                None => Ok(()),
            }
        }
        Err(refusal) => println!(&rt; "R {} {}", refusal.number, refusal.place),
    }
}
