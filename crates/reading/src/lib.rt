// Reading a source, and a define body (`Parser::parse`, `Parser::parse_define_body`).
#![tactic(auto)]

pub mod body;
pub mod parse;

ghost use Rattle.std.specs.Prelude.{length};
ghost use Rattle.reading.specs.Promise.{ReadsSource, ReadsDefineBody};

use tables::Reading;
use text::Counted;

// Reads a source: its entries, its errors and its lines. The tables are handed on as the call lends them (C interface).
pub fn read(src: &[u8], entries: &mut [u32], errors: &mut [u32], lines: &mut [u32]) -> Reading
    ensures { ReadsSource src.now (length entries.old) (length errors.old) (length lines.old) result entries.new errors.new lines.new }
{
    match parse::read(src, entries, errors, lines) {
        Ok(ends) => tables::finished(entries, errors, lines, ends),
        Err(refusal) => tables::refused(entries, errors, lines, refusal),
    }
}

// Reads a define body: its entries, up to the first newline. Apart from `read`: with one table in place of three and another answer, one function for
// both would be no plainer.
pub fn define_body(src: &[u8], entries: &mut [u32]) -> Counted
    ensures { ReadsDefineBody src.now (length entries.old) result entries.new }
{
    match body::read(src, entries) {
        Ok(n) => tables::body::finished(entries, n),
        Err(refusal) => tables::body::refused(entries, refusal),
    }
}
