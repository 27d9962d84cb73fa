// Readings with tables of all lengths that matter, full of rubbish before the call. Of each a line is printed: words, the answer, and how many numbers of
// each table are not 0 afterwards.
ghost use Rattle.std.specs.Prelude.{◌≡◌, ◌≤◌};
ghost use Rattle.definition.specs.Calls.{reading, reading_body};
ghost use Rattle.records.specs.Rubbish.{most};
ghost use Rattle.listed.specs.Answer.{nonzero as Answer·nonzero, Answers, Counts};

use crate::print::ERROR;
use records::rubbish::{MOST, NUMBER, Rooms};
use std::io;
use tables::{ENTRY, Reading};
use text::Counted;

// How many numbers of a table are not 0.
fn nonzero(t: &[u32]) -> usize
    ensures { result ≡ Answer·nonzero t.now }
{
    t.iter().filter(|x| **x != 0).count()
}

// Prints the line of a reading.
fn left<P: Print>(
    rt: &P,
    words: &str,
    got: Reading,
    entries: &[u32],
    errors: &[u32],
    lines: &[u32],
) -> io::Result<()>
    ensures { Unit {0} }
{
    print!(rt;
        "{words},{},{},{},{}",
        got.refusal, got.entries, got.errors, got.lines
    )?;
    println!(rt;
        ",{},{},{}",
        nonzero(entries),
        nonzero(errors),
        nonzero(lines)
    )
}

// Reads a source with three tables of these lengths, which are made here since they are lent and read behind the call. A pair: what was read holds
// whether it was printed or not.
fn read<P: Print>(rt: &P, words: &str, src: &[u8], rooms: Rooms) -> (Reading, io::Result<()>)
    ensures { Answers (reading src.now rooms.entries rooms.errors rooms.lines) result.0 }
{
    let mut entries = [NUMBER; MOST];
    let mut errors = [NUMBER; MOST];
    let mut lines = [NUMBER; MOST];
    let entries = &mut entries[..rooms.entries];
    let errors = &mut errors[..rooms.errors];
    let lines = &mut lines[..rooms.lines];
    let got = shader_reader::shader_read(src, entries, errors, lines);
    let printed = left(rt, words, got, entries, errors, lines);
    (got, printed)
}

// The same of a define body with one table: with another answer, one function for both would be no plainer.
fn body<P: Print>(rt: &P, words: &str, src: &[u8], room: usize) -> (Counted, io::Result<()>)
    requires { room ≤ most }
    ensures { Counts (reading_body src.now room) result.0 }
{
    let mut entries = [NUMBER; MOST];
    let entries = &mut entries[..room];
    let got = shader_reader::shader_define_body(src, entries);
    let printed = println!(rt;
        "{words},{},{},{}",
        got.refusal,
        got.count,
        nonzero(entries)
    );
    (got, printed)
}

// Each table one number short, alone,
fn alone<P: Print>(rt: &P, src: &[u8], rooms: Rooms) -> io::Result<()>
    ensures { Unit {0} }
{
    let Rooms {
        entries,
        errors,
        lines,
    } = rooms;
    let fewer_entries = Rooms::at_most(entries.saturating_sub(1), errors, lines);
    read(rt, "entries short", src, fewer_entries).1?;
    let fewer_lines = Rooms::at_most(entries, errors, lines.saturating_sub(1));
    read(rt, "lines short", src, fewer_lines).1?;
    if errors != 0 {
        let fewer_errors = Rooms::at_most(entries, errors - 1, lines);
        read(rt, "errors short", src, fewer_errors).1?;
    }
    Ok(())
}

// with others, and no table at all.
fn together<P: Print>(rt: &P, src: &[u8], rooms: Rooms) -> io::Result<()>
    ensures { Unit {0} }
{
    let entries = rooms.entries.saturating_sub(1);
    let errors = rooms.errors.saturating_sub(1);
    let lines = rooms.lines.saturating_sub(1);
    read(rt, "all short", src, Rooms::at_most(entries, errors, lines)).1?;
    read(rt, "none", src, Rooms::at_most(0, 0, 0)).1?;
    if rooms.errors != 0 {
        let both = Rooms::at_most(rooms.entries, errors, lines);
        read(rt, "errors and lines short", src, both).1?;
    }
    Ok(())
}

// Reads a source with tables that are long enough, just long enough, and short.
pub fn readings<P: Print>(rt: &P, src: &[u8]) -> io::Result<()>
    ensures { Unit {0} }
{
    let (got, printed) = read(rt, "long enough", src, Rooms::at_most(MOST, MOST, MOST));
    printed?;
    // The refusal of a call is a number (C interface).
    if got.refusal != 0 {
        return read(rt, "none", src, Rooms::at_most(0, 0, 0)).1;
    }
    let rooms = Rooms::at_most(
        got.entries as usize * ENTRY,
        got.errors as usize * ERROR,
        got.lines as usize,
    );
    read(rt, "just enough", src, rooms).1?;
    alone(rt, src, rooms)?;
    together(rt, src, rooms)
}

// Reads it as a define body; with one table and another answer, one function for both would be no plainer.
pub fn bodies<P: Print>(rt: &P, src: &[u8]) -> io::Result<()>
    ensures { Unit {0} }
{
    let (got, printed) = body(rt, "body", src, MOST);
    printed?;
    // The refusal of a call is a number (C interface).
    if got.refusal != 0 {
        return body(rt, "body none", src, 0).1;
    }
    let room = MOST.min(got.count as usize * ENTRY);
    body(rt, "body just enough", src, room).1?;
    body(rt, "body short", src, room.saturating_sub(1)).1
}
