// The lines of a listing: a word, and numbers behind commas.
ghost use Rattle.std.specs.Prelude.{◌≡◌, ◌<◌, ◌∷◌, flat_map, take, Some};
ghost use Rattle.std.specs.Fmt.{decimal};

use std::{fmt, io};
use tables::{ENTRY, Reading};

// How many numbers an error has.
pub const ERROR: usize = 10;

// The form of an entry that is a leaf, as a program reads it in the lent table (C interface).
const LEAF: u32 = 0;

// Numbers, each behind a comma.
#[derive(Clone, Copy)]
pub struct Fields<'a>(pub &'a [u32]);

impl<'a> fmt::Display for Fields<'a> {
    ghost output = { λ fields. Some (flat_map (λ n. 44 ∷ decimal n) fields.0.now) };

    fn fmt<W: fmt::Write>(&self, f: &mut fmt::Formatter<W>) -> fmt::Result {
        for n in self.0 {
            write!(f, ",{n}")?;
        }
        Ok(())
    }
}

// The first n numbers of a table, or as many as it has.
fn used(t: &[u32], n: usize) -> &[u32]
    ensures { result.now ≡ take n t.now }
{
    t.get(..n).unwrap_or(t)
}

// Prints the rows of a table, each behind the same word.
fn rows<P: Print>(rt: &P, word: &str, t: &[u32], width: usize) -> io::Result<()>
    requires { 0 < width }
    ensures { Unit {0} }
{
    for row in t.chunks_exact(width) {
        let fields = Fields(row);
        println!(rt; "{word}{fields}")?;
    }
    Ok(())
}

// Prints entries, each behind the word for its form. (One function with `rows` would be no plainer: only an entry's word stands in its row.)
fn entry_rows<P: Print>(rt: &P, t: &[u32]) -> io::Result<()>
    ensures { Unit {0} }
{
    let (rows, _) = t.as_chunks::<ENTRY>();
    for row in rows {
        let word = if row[0] == LEAF { "leaf" } else { "node" };
        let fields = Fields(&row[1..]);
        println!(rt; "{word}{fields}")?;
    }
    Ok(())
}

// Prints an answer, and what it counts in the tables.
pub fn reading<P: Print>(
    rt: &P,
    got: Reading,
    entries: &[u32],
    errors: &[u32],
    lines: &[u32],
) -> io::Result<()>
    ensures { Unit {0} }
{
    let counts = [got.refusal, got.entries, got.errors, got.lines];
    let answer = Fields(&counts);
    println!(rt; "answer{answer}")?;
    entry_rows(rt, used(entries, got.entries as usize * ENTRY))?;
    let met = used(errors, got.errors as usize * ERROR);
    rows(rt, "error", met, ERROR)?;
    rows(rt, "line", used(lines, got.lines as usize), 1)
}
