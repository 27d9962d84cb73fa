// Bodies, as directives end with them (`pp_line`, `pp_error`, `pp_pragma`, `pp_if`, `pp_include` of `syntax.rs`).
ghost use Rattle.std.specs.Prelude.{◌≡◌, true, length};
ghost use Rattle.definition.specs.Tree.{body_kind};
ghost use Rattle.definition.specs.Syntax.{pp_body as Syntax·pp_body, pp_include as Syntax·pp_include, relexed};
ghost use Rattle.parser_run.specs.Parses.{source_of, Parses};
ghost use Rattle.directives.specs.Again.{Again};

use parser::Seen;
use parser_run::Parser;
use syntax_kind::number::Kind;

// Sees the leaf that is seen once more, where an angle string is expected (`set_expect_angle_string`).
#[tactic(auto, using(crate::proofs::Bodies::again_none, crate::proofs::Bodies::again_seen))]
fn again(p: &Parser) -> Seen
    ensures { Again (source_of p.now) p.now.state.run.seen result }
{
    let x = p.peek();
    if x.kind == 0 {
        return x;
    }
    parser::see(p.source, x.start, true)
}

// Trivia, and a body of kind k.
pub fn pp_body(p: &mut Parser, k: u8)
    requires { body_kind k ≡ true }
    ensures { Parses (Syntax·pp_body k) p.old p.new }
{
    let b = rows::body::pp_body(p.source, p.table, p.levels, p.state.run, k);
    p.state.run = b.run;
    p.state.over |= b.over;
}

// `include`: the path, where an angle string is expected.
pub fn pp_include(p: &mut Parser)
    ensures { Parses (Syntax·pp_include (length (source_of p.old)) relexed) p.old p.new }
{
    p.state.run.seen = again(p);
    pp_body(p, Kind::PP_INCLUDE_PATH);
}
