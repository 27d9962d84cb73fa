// The tables of a reading as it leaves them: cleared if it is refused, else cleared behind their last numbers.
#![tactic(auto)]

pub mod body;

ghost use Rattle.std.specs.Prelude.{◌≡◌, ◌≤◌, length};
ghost use Rattle.definition.specs.Calls.{refusal};
ghost use Rattle.text.specs.Refusal.{number, code};
ghost use Rattle.tables.specs.Decided.{ended_checks, Refused, cleared_behind, Fit, Finished};

use text::refusal::Refusal;

// The answer of a reading: the refusal number, 0 if none, and how many entries, errors and lines it wrote.
#[repr(C)]
#[derive(Clone, Copy)]
pub struct Reading {
    pub refusal: u32,
    pub entries: u32,
    pub errors: u32,
    pub lines: u32,
}

// How many numbers an entry has.
pub const ENTRY: usize = 5;

// Where a reading ended: whether a body held too many ##, and the places behind the last entry, the last error and the last line; past the
// table's end if they don't fit. The tables are the caller's, and each place is compared with its table's length; the places are known where a body
// held too many ## too.
#[derive(Clone, Copy)]
pub struct Ends {
    pub over: bool,
    pub entries: usize,
    pub errors: usize,
    pub lines: usize,
}

// The refusal of a reading that ended there, with tables of these lengths, if there is one.
#[tactic(auto, unfolding(definition::specs::Calls::refusal))]
pub fn shortage(ends: Ends, entries: usize, errors: usize, lines: usize) -> Result<(), Refusal>
    ensures { code result ≡ refusal (ended_checks ends entries errors lines) }
{
    if ends.over {
        return Err(Refusal::Concats);
    }
    if entries < ends.entries {
        return Err(Refusal::Entries);
    }
    if errors < ends.errors {
        return Err(Refusal::Errors);
    }
    if lines < ends.lines {
        return Err(Refusal::Lines);
    }
    Ok(())
}

// A reading refused by a number, that of a `Refusal` or any other: all tables are cleared, one by one, since what is written in a loop
// over them is not known behind it.
pub fn refused_number(
    entries: &mut [u32],
    errors: &mut [u32],
    lines: &mut [u32],
    refusal: u32,
) -> Reading
    ensures { Refused refusal (length entries.old) (length errors.old) (length lines.old) result entries.new errors.new lines.new }
{
    table::clear(entries);
    table::clear(errors);
    table::clear(lines);
    Reading {
        refusal,
        entries: 0,
        errors: 0,
        lines: 0,
    }
}

// A refused reading.
pub fn refused(
    entries: &mut [u32],
    errors: &mut [u32],
    lines: &mut [u32],
    refusal: Refusal,
) -> Reading
    ensures { Refused (number refusal) (length entries.old) (length errors.old) (length lines.old) result entries.new errors.new lines.new }
{
    refused_number(entries, errors, lines, refusal.into())
}

// Clears a table from n on: it stays lent whole.
pub fn clear_behind(t: &mut [u32], n: usize)
    requires { n ≤ length t.old }
    ensures { t.new ≡ cleared_behind n t.old }
{
    table::clear(&mut t[n..]);
}

// A reading that is not refused: the errors get their lines and columns, and the tables are cleared behind their last numbers.
pub fn finished(entries: &mut [u32], errors: &mut [u32], lines: &mut [u32], ends: Ends) -> Reading
    requires { Fit ends entries.old errors.old lines.old }
    ensures { Finished ends entries.old errors.old lines.old result entries.new errors.new lines.new }
{
    let count = error::count(ends.errors);
    error::lines::resolve(&mut errors[..ends.errors], &lines[..ends.lines]);
    clear_behind(entries, ends.entries);
    clear_behind(errors, ends.errors);
    clear_behind(lines, ends.lines);
    Reading {
        refusal: 0,
        entries: (ends.entries / ENTRY) as u32,
        errors: count as u32,
        lines: ends.lines as u32,
    }
}
