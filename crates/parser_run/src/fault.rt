// The errors that directives meet, by their sorts (`error.rs`).
ghost use Rattle.std.specs.Prelude.{◌≡◌, ◌≤◌, length};
ghost use Rattle.definition.specs.Calls.{longest_source};
ghost use Rattle.parser_run.specs.Faults.{unexpected_fault, end_fault, named_fault, named_numbers, missing_fault};

use error::numbered::Numbers;
use error::{ErrorKind, Fault};
use parser::Seen;

// Another leaf than those expected, of kind a or b, 0 if only a.
fn unexpected(x: Seen, a: u8, b: u8) -> Fault
    ensures { result ≡ unexpected_fault x a b }
{
    Fault {
        sort: ErrorKind::Unexpected,
        start: x.start,
        end: x.end,
        actual: parser::wide(x.kind),
        expected1: parser::wide(a),
        expected2: parser::wide(b),
        first: 0,
        past: 0,
    }
}

// The end of the source where a leaf of kind a or b was expected, at a range.
pub fn end_of_input(start: u32, end: u32, a: u8, b: u8) -> Fault
    ensures { result ≡ end_fault start end a b }
{
    Fault {
        sort: ErrorKind::EndOfInput,
        start,
        end,
        actual: 0,
        expected1: parser::wide(a),
        expected2: parser::wide(b),
        first: 0,
        past: 0,
    }
}

// An error that names its directive, at a range; w: its word.
pub fn named_error(sort: ErrorKind, start: u32, end: u32, w: Seen) -> Fault
    ensures { result ≡ named_fault sort start end w }
{
    Fault {
        sort,
        start,
        end,
        actual: 0,
        expected1: 0,
        expected2: 0,
        first: w.start,
        past: w.end,
    }
}

// The same of any sort, by its number.
pub fn named_numbers(sort: u32, start: u32, end: u32, w: Seen) -> Numbers
    ensures { result ≡ named_numbers sort start end w }
{
    Numbers {
        sort,
        start,
        end,
        actual: 0,
        expected1: 0,
        expected2: 0,
        first: w.start,
        past: w.end,
    }
}

// A leaf of kind a or b, 0 if only a, is missing where x is seen.
pub fn missing(src: &[u8], x: Seen, a: u8, b: u8) -> Fault
    requires { length src.now ≤ longest_source }
    ensures { result ≡ missing_fault (length src.now) x a b }
{
    if x.kind == 0 {
        let n = src.len() as u32;
        return end_of_input(n, n, a, b);
    }
    unexpected(x, a, b)
}
