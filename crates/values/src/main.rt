// Prints the values of the expressions in the files of data/, one a line behind its expression. A file is a text, a list of names in it, and
// expressions, each on a line. What is printed no contract can say: the functions that print promise nothing.
#![tactic(auto)]

mod lines;

use std::fs::File;
use std::io;
use std::io::Read;

// As much of a file is read,
const SIZE: usize = 65_536;

// and so many bytes of an expression or of the text, and numbers of the list.
const MOST: usize = 4_096;

// The files, in this order.
const FILES: [&str; 21] = [
    "literals",
    "trivia",
    "tokens",
    "shape",
    "names",
    "defined",
    "operators",
    "precedence",
    "range",
    "first",
    "levels",
    "bytes",
    "none",
    "marks",
    "equal",
    "unfinished",
    "outside",
    "empty",
    "split",
    "others",
    "broken",
];

// Shows an expression: its line, and the refusal and the value.
fn show(rt: &HostRuntime, line: &[u8], list: &[u32], text: &[u8]) -> io::Result<()>
    ensures { Unit {0} }
{
    let expression = lines::first_bytes(rt.alloc(), line, MOST)?;
    let got = condition::value(&expression, list, text);
    rt.write_all(line)?;
    println!(rt; ",{},{}", got.refusal, got.value)
}

// Shows the expressions of these lines, behind the lines of a text and of a list.
fn show_lines(rt: &HostRuntime, text: &[u8], list: &[u8], lines: &[u8]) -> io::Result<()>
    ensures { Unit {0} }
{
    let named = lines::first_bytes(rt.alloc(), text, MOST)?;
    let numbers: Vec<u32> = list
        .split(|b| *b == b' ')
        .skip(1)
        .take(MOST)
        .map(lines::listed)
        .collect(rt.alloc())?;
    for line in lines.split_inclusive(|b| *b == b'\n') {
        let line = line.strip_suffix(b"\n").unwrap_or(line);
        show(rt, line, &numbers, &named)?;
    }
    Ok(())
}

// Shows those of a file that begins with a text and a list, which are printed as they stand.
fn show_file(rt: &HostRuntime, s: &[u8]) -> io::Result<()>
    ensures { Unit {0} }
{
    let mut parts = s.splitn(3, |b| *b == b'\n');
    let (Some(text), Some(list), Some(lines)) = (parts.next(), parts.next(), parts.next()) else {
        return Ok(());
    };
    rt.write_all(text)?;
    rt.write_all(b"\n")?;
    rt.write_all(list)?;
    rt.write_all(b"\n")?;
    show_lines(rt, text, list, lines)
}

// Shows a file under its name, which is printed when it has been read.
fn show_named(rt: &HostRuntime, name: &str) -> io::Result<()>
    ensures { Unit {0} }
{
    let file = {
        let mut from = File::open(rt, name)?.take(SIZE as u64);
        let mut file = Vec::with_capacity(rt.alloc(), SIZE)?;
        from.read_to_end(&mut file)?;
        file
    };
    println!(rt; "{name}")?;
    show_file(rt, &file)
}

fn main(rt: HostRuntime) -> io::Result<()> {
    for name in FILES {
        show_named(&rt, name)?;
    }
    Ok(())
}
