// The lines and the columns of errors, filled in from the finished line table.
ghost use Rattle.std.specs.Prelude.{◌≡◌, ◌+◌, ◌/◌, ◌≤◌, true, length};
ghost use Rattle.definition.specs.Tree.{Width};
ghost use Rattle.definition.specs.LineMap.{line_table};
ghost use Rattle.error.specs.Lines.{located, resolved};

use crate::{COLUMN, LINE, START, WIDTH};
use line_map::line_of;

// Fills in the line and the column of the error at n.
fn locate(errors: &mut [u32], n: usize, lines: &[u32])
    requires n_in_bounds { n + Width.error ≤ length errors.old }
    requires starts { line_table lines.now ≡ true }
    ensures { errors.new ≡ located lines.now errors.old n }
{
    let start = errors[n + START];
    let line = line_of(lines, start);
    errors[n + LINE] = line as u32;
    errors[n + COLUMN] = start - lines[line];
}

// Fills in the lines and the columns of all errors of a table from a line table. By places: what was written through `chunks_exact_mut` is not known behind it.
pub fn resolve(errors: &mut [u32], lines: &[u32])
    requires { line_table lines.now ≡ true }
    ensures { errors.new ≡ resolved lines.now errors.old 0 (length errors.old / Width.error) }
{
    for k in 0..errors.len() / WIDTH {
        locate(errors, WIDTH * k, lines);
    }
}
