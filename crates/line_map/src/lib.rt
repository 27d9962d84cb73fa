// The line table of a source, and looking an offset up in one (line_map.rs).
#![tactic(auto)]

ghost use Rattle.std.specs.Prelude.{◌≡◌, ◌≤◌, ◌⊎◌, true, length, replicate, IfOk, IfErr};
ghost use Rattle.definition.specs.LineMap.{line_starts, line_table};
ghost use Rattle.definition.specs.Calls.{longest_source, building_lines, looking_up};
ghost use Rattle.line_map.specs.Lookup.{looked, LooksUp, rising, Lies};
ghost use Rattle.line_map.specs.Quiet.{Quiet};
ghost use Rattle.table.specs.Fills.{Fills, Written};
ghost use Rattle.text.specs.Refusal.{code};

use text::refusal::Refusal;
use text::{Counted, newline, source, stretch};

// How many bytes are looked at together. Each look has a length of its own: a better one for this is not one for the others.
const STEP: usize = 64;

// Behind the bytes at a place that begin no newline, up to one that does. No bound as in `pre::comment`, which would stop at every tab of an indented line.
// Only where fewer than STEP bytes are left is each of them looked at: before, the look has found its byte.
fn next_low(src: &[u8], at: usize) -> usize
    requires { at ≤ length src.now }
    ensures { Quiet src.now at result }
{
    let quiet = |b: u8| b != b'\n' && b != b'\r';
    let steps = stretch::pass_to::<STEP, _>(src, at, &quiet);
    if stretch::stand(src, steps, STEP) {
        return steps;
    }
    stretch::pass_each(src, steps, &quiet)
}

// Writes the line starts into a table, as far as it goes, and counts them all. The place goes on by one byte and the quiet bytes behind it, which no for
// counts, or by a newline of two bytes alone: what stands behind that begins with a look at its first byte. Each length has an arm of its own, since a
// processor foresees which arm is taken, and would wait for a length that is added.
pub fn fill(src: &[u8], lines: &mut [u32]) -> usize
    requires { length src.now ≤ longest_source }
    ensures { Written (line_starts src.now) lines.old result lines.new }
{
    table::put(lines, 0, 0);
    let mut n: usize = 1;
    let mut i = 0;
    while i < src.len() {
        match newline::newline_at(src, i) {
            0 => i = next_low(src, i + 1),
            1 => {
                i += 1;
                table::put(lines, n, i as u32);
                n += 1;
                i = next_low(src, i);
            }
            w => {
                i += w;
                table::put(lines, n, i as u32);
                n += 1;
            }
        }
    }
    n
}

// Writes the line starts into a cleared table, or says why the call is refused: the table is then as it came, or cleared again if it was too short.
fn starts_into(src: &[u8], lines: &mut [u32]) -> Result<u32, Refusal>
    ensures code { code result ≡ (building_lines src.now (length lines.old)).refused }
    ensures written { IfOk result (λ n. Written (line_starts src.now) lines.old n lines.new) }
    ensures fits { IfOk result (λ n. n ≤ length lines.new) }
    ensures refused { IfErr result (λ r. (lines.new ≡ lines.old) ⊎ (lines.new ≡ replicate (length lines.old) 0)) }
{
    source::check(src)?;
    let n = fill(src, lines);
    if lines.len() < n {
        table::clear(lines);
        return Err(Refusal::Lines);
    }
    Ok(n as u32)
}

// The line table of a source.
pub fn build(src: &[u8], lines: &mut [u32]) -> Counted
    ensures { Fills (building_lines src.now (length lines.old)) result lines.new }
{
    table::clear(lines);
    Counted::from(starts_into(src, lines))
}

// Whether each number is above the one before it.
fn rises(lines: &[u32]) -> bool
    ensures { result ≡ rising lines.now }
{
    lines.is_sorted_by(|a, b| a < b)
}

// Whether a table starts at 0 and rises strictly. A type of such tables would be made and taken apart in the same call.
#[tactic(auto, using(crate::proofs::Rising::zero_first, crate::proofs::Rising::other_first, crate::proofs::Rising::none_first))]
fn is_line_table(lines: &[u32]) -> bool
    ensures { result ≡ line_table lines.now }
{
    matches!(lines, [0, ..]) && rises(lines)
}

// The line of an offset in a line table: the last whose start is not above it.
pub fn line_of(lines: &[u32], offset: u32) -> usize
    requires { line_table lines.now ≡ true }
    ensures { Lies lines.now offset result }
{
    lines.partition_point(|start| *start <= offset) - 1
}

// Looks an offset up: its line and its column.
fn find(lines: &[u32], offset: u32) -> Result<(u32, u32), Refusal>
    ensures { looked result ≡ looking_up lines.now offset }
{
    if !is_line_table(lines) {
        return Err(Refusal::Lookup);
    }
    let line = line_of(lines, offset);
    Ok((line as u32, offset - lines[line]))
}

// The answer of a lookup: the refusal number, 0 if none, and the line and the column, both from 0.
#[repr(C)]
#[derive(Clone, Copy)]
pub struct Place {
    pub refusal: u32,
    pub line: u32,
    pub column: u32,
}

impl From<Result<(u32, u32), Refusal>> for Place {
    ghost use Rattle.line_map.specs.Lookup.{Places};

    ghost from_gives = { Places };

    fn from(found: Result<(u32, u32), Refusal>) -> Place {
        match found {
            Ok((line, column)) => Place {
                refusal: 0,
                line,
                column,
            },
            Err(refusal) => Place {
                refusal: refusal.into(),
                line: 0,
                column: 0,
            },
        }
    }
}

// The line and the column of an offset, past the end of the source too.
pub fn get_line_and_col(lines: &[u32], offset: u32) -> Place
    ensures { LooksUp (looking_up lines.now offset) result }
{
    Place::from(find(lines, offset))
}
