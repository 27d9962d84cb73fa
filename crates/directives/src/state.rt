// The same bodies over a state that is handed by value: for a caller that has no error table to lend, and so no `Parser`.
ghost use Rattle.std.specs.Prelude.{◌≡◌, true, length};
ghost use Rattle.definition.specs.Tree.{body_kind};
ghost use Rattle.definition.specs.Syntax.{pp_body as Syntax·pp_body, pp_include as Syntax·pp_include, relexed};
ghost use Rattle.parser.specs.Rest.{Reading};
ghost use Rattle.parser_run.specs.Reads.{Quiet};
ghost use Rattle.directives.specs.Again.{Again};

use parser::Seen;
use parser::source::Source;
use parser_run::ParserRun;
use parser_run::state::{with_run, worse};
use pre::class::Classes;
use syntax_kind::number::Kind;
use tree::level::OPEN_LEVELS;

// Sees a leaf once more, where an angle string is expected (`set_expect_angle_string`).
fn again(src: &[u8], classes: &Classes, x: Seen) -> Seen
    requires { Reading src.now classes.now x }
    ensures { Again src.now x result }
{
    if x.kind == 0 {
        return x;
    }
    let source = Source { src, classes };
    parser::see(source, x.start, true)
}

// Trivia, and a body of kind k.
pub fn pp_body(
    src: &[u8],
    classes: &Classes,
    table: &mut [u32],
    levels: &mut [usize; OPEN_LEVELS],
    state: ParserRun,
    k: u8,
) -> ParserRun
    requires { (Reading src.now classes.now state.run.seen) × (body_kind k ≡ true) }
    ensures { Quiet src.now (Syntax·pp_body k) table.old levels.old state table.new levels.new result }
{
    let source = Source { src, classes };
    let b = rows::body::pp_body(source, table, levels, state.run, k);
    let run = b.run;
    ParserRun {
        run,
        errs: state.errs,
        over: worse(state.over, b.over),
    }
}

// `include`: the path, where an angle string is expected.
pub fn pp_include(
    src: &[u8],
    classes: &Classes,
    table: &mut [u32],
    levels: &mut [usize; OPEN_LEVELS],
    state: ParserRun,
) -> ParserRun
    requires { Reading src.now classes.now state.run.seen }
    ensures { Quiet src.now (Syntax·pp_include (length src.now) relexed) table.old levels.old state table.new levels.new result }
{
    let run = state.run;
    let x = again(src, classes, run.seen);
    let a = with_run(state, parser::run_of(x, run.pen));
    pp_body(src, classes, table, levels, a, Kind::PP_INCLUDE_PATH)
}
