// `define` (`pp_define` of `syntax.rs`).
ghost use Rattle.std.specs.Prelude.{length};
ghost use Rattle.definition.specs.Syntax.{pp_define as Syntax·pp_define};
ghost use Rattle.parser_run.specs.Parses.{source_of, Parses};
ghost use Rattle.directives.specs.Next.{define_head as Next·define_head};

use crate::body;
use parser_run::Parser;
use syntax_kind::number::Kind;

// The name of a macro, and its arguments if LPAREN follows with no trivia.
fn define_head(p: &mut Parser)
    ensures { Parses (Next·define_head (length (source_of p.old))) p.old p.new }
{
    crate::expect_next(p, Kind::IDENT_KW);
    if p.peek().kind == Kind::LPAREN {
        args::define_args(p);
    }
}

// `define`: the name with its arguments, and a body.
pub fn pp_define(p: &mut Parser)
    ensures { Parses (Syntax·pp_define (length (source_of p.old))) p.old p.new }
{
    define_head(p);
    body::pp_body(p, Kind::PP_DEFINE_BODY);
}
