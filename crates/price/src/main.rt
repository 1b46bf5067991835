// Prices words under each channel. A line that begins with a name sets prices, marks or shifts; every other line is a word.
// Lines are bytes, not text.
#![tactic(auto)]

mod shown;

use desk::Desk;
use shown::Shown;
use std::io;
use std::io::{BufRead, BufReader, Write};

fn main(rt: HostRuntime) -> io::Result<()> {
    let mut desk = Desk::new(rt.alloc());
    for line in BufReader::new(rt.alloc(), rt.stdin())?.split(rt.alloc(), b'\n') {
        let line = line?;
        if let Some(reply) = desk.line(rt.alloc(), line.as_slice())? {
            rt.stdout().write_all(line.as_slice())?;
            println!(rt; ":{}", Shown(reply))?;
        }
    }
    Ok(())
}
