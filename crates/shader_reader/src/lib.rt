// The calls as host programs in C and Rust see them. A slice passes as a pointer and a length; an answer comes back by value.
// Each contract equates the answer, and every number of a lent table afterwards, with the call's outcome in the definition.
#![tactic(auto)]

ghost use Rattle.std.specs.Prelude.{length};
ghost use Rattle.definition.specs.Calls.{listing_tokens, building_lines, unescaping, looking_up, pasting};
ghost use Rattle.table.specs.Fills.{Fills};
ghost use Rattle.line_map.specs.Lookup.{LooksUp};
ghost use Rattle.reading.specs.Promise.{ReadsSource, ReadsDefineBody};
ghost use Rattle.syntax_kind.specs.Pastes.{Pastes};

use line_map::Place;
use syntax_kind::paste::Pasted;
use tables::Reading;
use text::Counted;

// Reads a source: its tree as entries, its errors, and where its lines start. The contract is the three demands, in named fields.
pub fn shader_read(
    src: &[u8],
    entries: &mut [u32],
    errors: &mut [u32],
    lines: &mut [u32],
) -> Reading
    ensures { ReadsSource src.now (length entries.old) (length errors.old) (length lines.old) result entries.new errors.new lines.new }
{
    reading::read(src, entries, errors, lines)
}

// Reads a define body: its tree as entries, up to the first newline.
pub fn shader_define_body(src: &[u8], entries: &mut [u32]) -> Counted
    ensures { ReadsDefineBody src.now (length entries.old) result entries.new }
{
    reading::define_body(src, entries)
}

// Lists the tokens of a source: kind, start and end of each, angle strings never expected.
pub fn shader_tokens(src: &[u8], tokens: &mut [u32]) -> Counted
    ensures { Fills (listing_tokens src.now (length tokens.old)) result tokens.new }
{
    tokens::list(src, tokens)
}

// Builds the line table of a source.
pub fn shader_line_table(src: &[u8], lines: &mut [u32]) -> Counted
    ensures { Fills (building_lines src.now (length lines.old)) result lines.new }
{
    line_map::build(src, lines)
}

// Unescapes a text.
pub fn shader_unescape(text: &[u8], output: &mut [u8]) -> Counted
    ensures { Fills (unescaping text.now (length output.old)) result output.new }
{
    unescaped::unescape(text, output)
}

// Looks an offset up in a line table.
pub fn shader_lookup(lines: &[u32], offset: u32) -> Place
    ensures { LooksUp (looking_up lines.now offset) result }
{
    line_map::get_line_and_col(lines, offset)
}

// Pastes two kinds.
pub fn shader_paste(lhs: u32, rhs: u32) -> Pasted
    ensures { Pastes (pasting lhs rhs) result }
{
    syntax_kind::paste::paste(lhs, rhs)
}
