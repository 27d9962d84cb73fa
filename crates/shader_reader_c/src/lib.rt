// The calls of `shader_reader` under their C names: the static library that hosts link. Each has the clauses of the call that it makes.
#![tactic(auto)]

ghost use Rattle.std.specs.Prelude.{length};
ghost use Rattle.definition.specs.Calls.{listing_tokens, building_lines, unescaping, looking_up, pasting};
ghost use Rattle.table.specs.Fills.{Fills};
ghost use Rattle.line_map.specs.Lookup.{LooksUp};
ghost use Rattle.reading.specs.Promise.{ReadsSource, ReadsDefineBody};
ghost use Rattle.syntax_kind.specs.Pastes.{Pastes};

use line_map::Place;
use syntax_kind::paste::Pasted;
use tables::Reading;
use text::Counted;

// Reads a source: its tree as entries, its errors, and where its lines start. The contract is the three demands, in named fields.
#[unsafe(no_mangle)]
pub extern "C" fn shader_read(
    src: &[u8],
    entries: &mut [u32],
    errors: &mut [u32],
    lines: &mut [u32],
) -> Reading
    ensures { ReadsSource src.now (length entries.old) (length errors.old) (length lines.old) result entries.new errors.new lines.new }
{
    shader_reader::shader_read(src, entries, errors, lines)
}

// Reads a define body: its tree as entries, up to the first newline.
#[unsafe(no_mangle)]
pub extern "C" fn shader_define_body(src: &[u8], entries: &mut [u32]) -> Counted
    ensures { ReadsDefineBody src.now (length entries.old) result entries.new }
{
    shader_reader::shader_define_body(src, entries)
}

// Lists the tokens of a source: kind, start and end of each, angle strings never expected.
#[unsafe(no_mangle)]
pub extern "C" fn shader_tokens(src: &[u8], tokens: &mut [u32]) -> Counted
    ensures { Fills (listing_tokens src.now (length tokens.old)) result tokens.new }
{
    shader_reader::shader_tokens(src, tokens)
}

// Builds the line table of a source.
#[unsafe(no_mangle)]
pub extern "C" fn shader_line_table(src: &[u8], lines: &mut [u32]) -> Counted
    ensures { Fills (building_lines src.now (length lines.old)) result lines.new }
{
    shader_reader::shader_line_table(src, lines)
}

// Unescapes a text.
#[unsafe(no_mangle)]
pub extern "C" fn shader_unescape(text: &[u8], output: &mut [u8]) -> Counted
    ensures { Fills (unescaping text.now (length output.old)) result output.new }
{
    shader_reader::shader_unescape(text, output)
}

// Looks an offset up in a line table.
#[unsafe(no_mangle)]
pub extern "C" fn shader_lookup(lines: &[u32], offset: u32) -> Place
    ensures { LooksUp (looking_up lines.now offset) result }
{
    shader_reader::shader_lookup(lines, offset)
}

// Pastes two kinds.
#[unsafe(no_mangle)]
pub extern "C" fn shader_paste(lhs: u32, rhs: u32) -> Pasted
    ensures { Pastes (pasting lhs rhs) result }
{
    shader_reader::shader_paste(lhs, rhs)
}
