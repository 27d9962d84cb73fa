// A source read and shown, in the format of document 01's program `listing`; and read again with tables of all lengths that matter.
// What is printed no contract can say: the functions that only print promise nothing, and answer with the error where printing failed.
#![tactic(auto)]

pub mod lengths;
pub mod print;

ghost use Rattle.std.specs.Prelude.{length};
ghost use Rattle.reading.specs.Promise.{ReadsSource};

use std::io;
use tables::{ENTRY, Reading};

// The longest source that is listed.
pub const LONGEST: usize = 512;

// Reads a source with these tables, and prints the reading: what it read, and whether it was printed. A pair: the first holds whatever the second is.
pub fn list<P: Print>(
    rt: &P,
    src: &[u8],
    entries: &mut [u32],
    errors: &mut [u32],
    lines: &mut [u32],
) -> (Reading, io::Result<()>)
    ensures { ReadsSource src.now (length entries.old) (length errors.old) (length lines.old) result.0 entries.new errors.new lines.new }
{
    let got = shader_reader::shader_read(src, entries, errors, lines);
    let printed = print::reading(rt, got, entries, errors, lines);
    (got, printed)
}

// Prints the listing of a source, or that it is too long for one. In every run n bytes had at most 2n+1 entries and
// n errors, which is not proved: a reading that needed more would be refused and listed as such.
pub fn listing<P: Print>(rt: &P, src: &[u8]) -> io::Result<()>
    ensures { Unit {0} }
{
    if LONGEST < src.len() {
        return println!(rt; "long");
    }
    let mut entries = [0; (2 * LONGEST + 1) * ENTRY];
    let mut errors = [0; LONGEST * print::ERROR];
    let mut lines = [0; LONGEST + 1];
    list(rt, src, &mut entries, &mut errors, &mut lines).1
}
