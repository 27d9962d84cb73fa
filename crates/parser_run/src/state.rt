// The same steps over a state that is handed by value, each with only the tables that it needs: for a caller that has no error table to lend, or no
// open levels, and so no `Parser`.
ghost use Rattle.std.specs.Prelude.{◌≡◌, false, ◌||◌};
ghost use Rattle.definition.specs.Tree.{body_kind};
ghost use Rattle.definition.specs.Parser as reader;
ghost use Rattle.tree.specs.Machine.{Open, Shut};
ghost use Rattle.error.specs.Log.{met, numbered};
ghost use Rattle.parser.specs.Rest.{Reading};
ghost use Rattle.parser_run.specs.Reads.{with_run as Reads·with_run, Quiet, Took, Moves, Logs};
ghost use Rattle.parser_run.specs.Expects.{Expects};

use crate::node::is_expected;
use crate::{ParserRun, fault};
use error::Fault;
use error::numbered::Numbers;
use parser::source::Source;
use parser::{Run, Seen};
use pre::class::Classes;
use tree::level::OPEN_LEVELS;

// The leaf that is seen.
pub fn peek(state: ParserRun) -> Seen
    ensures { result ≡ state.run.seen }
{
    let run = state.run;
    parser::same(run.seen)
}

// The same with the parser elsewhere.
pub fn with_run(state: ParserRun, run: Run) -> ParserRun
    ensures { result ≡ Reads·with_run state run }
{
    let moved = parser::run_of(run.seen, run.pen);
    ParserRun {
        run: moved,
        errs: state.errs,
        over: state.over,
    }
}

// Whether something went wrong before, or does now.
pub fn worse(before: bool, now: bool) -> bool
    ensures { result ≡ (before || now) }
{
    before || now
}

// Takes the leaf that is seen.
pub fn bump(src: &[u8], classes: &Classes, table: &mut [u32], state: ParserRun) -> ParserRun
    requires { Reading src.now classes.now state.run.seen }
    ensures { Took src.now reader.bump table.old state table.new result }
{
    let source = Source { src, classes };
    let run = parser::bump(source, table, state.run);
    with_run(state, run)
}

// Takes the trivia that comes next.
pub fn skip_trivia(src: &[u8], classes: &Classes, table: &mut [u32], state: ParserRun) -> ParserRun
    requires { Reading src.now classes.now state.run.seen }
    ensures { Took src.now reader.skip_trivia table.old state table.new result }
{
    let source = Source { src, classes };
    let run = parser::skip_trivia(source, table, state.run);
    with_run(state, run)
}

// Takes the rest of the line, up to its NEWLINE or the end.
pub fn skip_inline(src: &[u8], classes: &Classes, table: &mut [u32], state: ParserRun) -> ParserRun
    requires { Reading src.now classes.now state.run.seen }
    ensures { Took src.now (reader.skip reader.inline) table.old state table.new result }
{
    let source = Source { src, classes };
    let run = parser::skip_inline(source, table, state.run);
    with_run(state, run)
}

// Takes the leaf that is seen, but no NEWLINE.
pub fn bump_inline(src: &[u8], classes: &Classes, table: &mut [u32], state: ParserRun) -> ParserRun
    requires { Reading src.now classes.now state.run.seen }
    ensures { Took src.now (reader.maybe reader.inline reader.bump) table.old state table.new result }
{
    let x = peek(state);
    if parser::ends_row(x.kind) {
        return state;
    }
    bump(src, classes, table, state)
}

// A node begins.
pub fn start_node(
    table: &mut [u32],
    levels: &mut [usize; OPEN_LEVELS],
    state: ParserRun,
) -> ParserRun
    ensures { Moves Open table.old levels.old state table.new levels.new result }
{
    let run = state.run;
    let pen = tree::start_node(table, levels, run.pen);
    with_run(state, parser::run_of(run.seen, pen))
}

// The innermost open node ends; it has this kind.
pub fn finish_node(
    table: &mut [u32],
    levels: &mut [usize; OPEN_LEVELS],
    state: ParserRun,
    kind: u8,
) -> ParserRun
    ensures { Moves (Shut kind) table.old levels.old state table.new levels.new result }
{
    let run = state.run;
    let pen = tree::finish_node(table, levels, run.pen, parser::wide(kind));
    with_run(state, parser::run_of(run.seen, pen))
}

// An error is met, of any sort.
pub fn push_error(errors: &mut [u32], state: ParserRun, e: Numbers) -> ParserRun
    ensures { Logs (numbered e) errors.old state errors.new result }
{
    let n = error::numbered::push_numbers(errors, state.errs, e);
    let run = state.run;
    ParserRun {
        run,
        errs: n,
        over: state.over,
    }
}

// One of the sorts that are named.
fn push_fault(errors: &mut [u32], state: ParserRun, e: Fault) -> ParserRun
    ensures { Logs (met e) errors.old state errors.new result }
{
    let n = error::push_error(errors, state.errs, e);
    let run = state.run;
    ParserRun {
        run,
        errs: n,
        over: state.over,
    }
}

// A node of this kind over the leaf that is seen.
pub fn node_bump(
    src: &[u8],
    classes: &Classes,
    table: &mut [u32],
    levels: &mut [usize; OPEN_LEVELS],
    state: ParserRun,
    kind: u8,
) -> ParserRun
    requires { (Reading src.now classes.now state.run.seen) × (body_kind kind ≡ false) }
    ensures { Quiet src.now (reader.wrap kind reader.bump) table.old levels.old state table.new levels.new result }
{
    let a = start_node(table, levels, state);
    let b = bump(src, classes, table, a);
    finish_node(table, levels, b, kind)
}

// The answer of `expect_any`: what follows, and whether the leaf was expected.
#[derive(Clone, Copy)]
pub struct Expected {
    pub state: ParserRun,
    pub found: bool,
}

// A leaf of kind a or b, 0 if only a (`expect_any`): another is taken too, but a NEWLINE is not.
pub fn expect_any(
    src: &[u8],
    classes: &Classes,
    table: &mut [u32],
    errors: &mut [u32],
    state: ParserRun,
    a: u8,
    b: u8,
) -> Expected
    requires { Reading src.now classes.now state.run.seen }
    ensures { Expects src.now a b table.old errors.old state table.new errors.new result.state result.found }
{
    let x = peek(state);
    let s = bump_inline(src, classes, table, state);
    if is_expected(x.kind, a, b) {
        return Expected {
            state: s,
            found: true,
        };
    }
    let r = push_fault(errors, s, fault::missing(src, x, a, b));
    Expected {
        state: r,
        found: false,
    }
}
