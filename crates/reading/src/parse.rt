// The tree and the errors of a source, written as far as the tables go.
ghost use Rattle.std.specs.Prelude.{◌≡◌, ◌≤◌, ◌<◌, length, IfOk, IfErr};
ghost use Rattle.definition.specs.Calls.{longest_source};
ghost use Rattle.table.specs.Row.{far};
ghost use Rattle.text.specs.Refusal.{number};
ghost use Rattle.parser_run.specs.Parses.{source_of};
ghost use Rattle.reading.specs.Parsed.{Begins, Lent, Parsed, Rooted, Ended, due, Accepted};

use parser::source::Source;
use parser_run::{Parser, ParserRun};
use pre::class;
use syntax_kind::number::Kind;
use tables::Ends;
use text::refusal::Refusal;
use text::source;
use tree::level::OPEN_LEVELS;
use tree::{Pen, level};

// At the front of a source, with nothing written.
fn begin(source: Source) -> ParserRun
    ensures { Begins source.entry.src.now result }
{
    let seen = parser::see(source, 0, false);
    let run = parser::run_of(seen, Pen::new());
    ParserRun {
        run,
        errs: 0,
        over: false,
    }
}

// The items of a source, under ROOT.
fn items(p: &mut Parser)
    requires begins { Begins (source_of p.old) p.old.state }
    requires lent { Lent p.old.table.now p.old.levels.now }
    ensures { Rooted p.old p.new }
{
    p.start_node();
    file::file(p);
    p.finish_node(Kind::ROOT);
}

// The same with tables that are lent.
fn root(
    source: Source,
    entries: &mut [u32],
    levels: &mut [usize; OPEN_LEVELS],
    errors: &mut [u32],
    state: ParserRun,
) -> ParserRun
    requires begins { Begins source.src.now state }
    requires lent { Lent entries.old levels.old }
    ensures { Parsed source.entry.src.now entries.old errors.old entries.new errors.new result }
{
    let mut p = Parser {
        source,
        table: entries,
        levels,
        errors,
        state,
    };
    items(&mut p);
    p.state
}

// Writes the tree of a source and its errors, as far as the tables go.
pub fn parse(src: &[u8], entries: &mut [u32], errors: &mut [u32]) -> ParserRun
    requires { (length src.now ≤ longest_source) × (length entries.old < far) }
    ensures { Parsed src.now entries.old errors.old entries.new errors.new result }
{
    let classes = class::class_table();
    let mut levels = level::levels();
    let source = Source {
        src,
        classes: &classes,
    };
    let state = begin(source);
    root(source, entries, &mut levels, errors, state)
}

// Writes the full reading of a source, as far as the tables go; the errors get their lines and columns later.
pub fn write(src: &[u8], entries: &mut [u32], errors: &mut [u32], lines: &mut [u32]) -> Ends
    requires { (length src.now ≤ longest_source) × (length entries.old < far) }
    ensures { Ended src.now entries.old errors.old lines.old result entries.new errors.new lines.new }
{
    let state = parse(src, entries, errors);
    let n = line_map::fill(src, lines);
    let run = state.run;
    let pen = run.pen;
    Ends {
        over: state.over,
        entries: pen.n,
        errors: state.errs,
        lines: n,
    }
}

// Reads a source into tables that are long enough for it, or says why it is refused.
pub fn read(
    src: &[u8],
    entries: &mut [u32],
    errors: &mut [u32],
    lines: &mut [u32],
) -> Result<Ends, Refusal>
    ensures refused { IfErr result (λ r. number r ≡ due src.now (length entries.old) (length errors.old) (length lines.old)) }
    ensures accepted { IfOk result (λ x. Accepted src.now entries.old errors.old lines.old x entries.new errors.new lines.new) }
{
    source::check(src)?;
    let ends = write(src, entries, errors, lines);
    tables::shortage(ends, entries.len(), errors.len(), lines.len())?;
    Ok(ends)
}
