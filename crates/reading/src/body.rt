// The tree of a define body, written as far as the table goes.
ghost use Rattle.std.specs.Prelude.{◌≡◌, ◌≤◌, ◌<◌, length, IfOk, IfErr};
ghost use Rattle.definition.specs.Calls.{longest_source};
ghost use Rattle.table.specs.Row.{far};
ghost use Rattle.text.specs.Refusal.{number};
ghost use Rattle.reading.specs.Parsed.{ParsedBody, body_due, AcceptedBody};

use parser::source::Source;
use pre::class;
use rows::BodyRow;
use text::refusal::Refusal;
use text::source;
use tree::level;

// Writes the tree of a define body, as far as the table goes.
pub fn write(src: &[u8], entries: &mut [u32]) -> BodyRow
    requires { (length src.now ≤ longest_source) × (length entries.old < far) }
    ensures { ParsedBody src.now entries.old entries.new result }
{
    let classes = class::class_table();
    let mut levels = level::levels();
    let source = Source {
        src,
        classes: &classes,
    };
    rows::body::body_alone(source, entries, &mut levels)
}

// Reads a define body into a table that is long enough for it, or says why it is refused; gives the place behind its last entry.
pub fn read(src: &[u8], entries: &mut [u32]) -> Result<usize, Refusal>
    ensures refused { IfErr result (λ r. number r ≡ body_due src.now (length entries.old)) }
    ensures accepted { IfOk result (λ n. AcceptedBody src.now entries.old entries.new n) }
{
    source::check(src)?;
    let row = write(src, entries);
    let pen = row.pen;
    tables::body::shortage(row.over, pen.n, entries.len())?;
    Ok(pen.n)
}
