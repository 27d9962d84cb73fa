// Lists the files that the arguments name, as `listing` does, and reads each again with tables of all lengths that matter.
#![tactic(auto)]

use std::fs::File;
use std::io::Read;
use std::{env, io};

// As much of a file is read.
const SIZE: usize = 4_096;

// Shows a source under its name.
fn show(rt: &HostRuntime, name: &str) -> io::Result<()>
    ensures { Unit {0} }
{
    // With this room the first read asks for all of it. The file is closed before anything is printed.
    let src = {
        let mut file = File::open(rt, name)?.take(SIZE as u64);
        let mut src = Vec::with_capacity(rt.alloc(), SIZE)?;
        file.read_to_end(&mut src)?;
        src
    };
    println!(rt; "{name}")?;
    listed::listing(rt, &src)?;
    listed::lengths::readings(rt, &src)?;
    listed::lengths::bodies(rt, &src)
}

fn main(rt: HostRuntime) -> io::Result<()> {
    for name in env::args(&rt)?.skip(1) {
        show(&rt, name.as_str())?;
    }
    Ok(())
}
