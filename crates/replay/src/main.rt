// Runs the calls again on the inputs whose answers were recorded of the Rust (data/README.md), and compares. What is printed no contract can say:
// the functions that print promise nothing.
#![tactic(auto)]

use records::agree::Call;
use std::fs::File;
use std::io;
use std::io::Read;

// As much of a file is read: more than each has.
const SIZE: usize = 524_288;

// In this order, each with the name of its file.
const CALLS: [(Call, &str); 7] = [
    (Call::Tokens, "tokens"),
    (Call::Lines, "lines"),
    (Call::Unescape, "unescape"),
    (Call::Lookup, "lookup"),
    (Call::Paste, "paste"),
    (Call::Read, "read"),
    (Call::Body, "body"),
];

// Replays the records of a call, and prints how many there are, all the same, or the first that differs.
fn replay(rt: &HostRuntime, call: Call, name: &str) -> io::Result<()>
    ensures { Unit {0} }
{
    let file = {
        let mut from = File::open(rt, name)?.take(SIZE as u64);
        let mut file = Vec::with_capacity(rt.alloc(), SIZE)?;
        from.read_to_end(&mut file)?;
        file
    };
    match records::compare(call, &file) {
        Ok(records) => println!(rt; "{name},same,{records}"),
        Err(differs) => println!(rt; "{name},{differs}"),
    }
}

fn main(rt: HostRuntime) -> io::Result<()> {
    for (call, name) in CALLS {
        replay(&rt, call, name)?;
    }
    Ok(())
}
