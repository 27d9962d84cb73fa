// The end of a directive's line (`finish` of `syntax.rs`).
#![tactic(auto)]

ghost use Rattle.std.specs.Prelude.{◌≡◌, false};
ghost use Rattle.definition.specs.Syntax.{finish};
ghost use Rattle.theorems.specs.BodyRows.{ends};
ghost use Rattle.parser.specs.Rest.{leaf_seen, Held};
ghost use Rattle.parser_run.specs.Parses.{source_of, Parses};
ghost use Rattle.line.specs.Line.{tail_errors, extra_row, ErrorRow};

use error::ErrorKind;
use parser::Seen;
use parser_run::{Parser, fault};
use syntax_kind::number::Kind;

// The rest of the line in an ERROR node, from a leaf on that is no NEWLINE.
fn error_row(p: &mut Parser)
    requires { ends p.old.state.run.seen.kind ≡ false }
    ensures { ErrorRow p.old p.new }
{
    p.start_node();
    p.skip_inline();
    p.finish_node(Kind::ERROR);
}

// Extra leaves up to the end of the line. known: the directive is, and they are an error; w: its word.
fn extra(p: &mut Parser, w: Seen, known: bool)
    requires more { ends p.old.state.run.seen.kind ≡ false }
    requires held { Held (source_of p.old) w }
    requires word { w.kind ≡ 0 → ⊥ }
    ensures { Parses (extra_row (source_of p.old) known (leaf_seen (source_of p.old) w) p.old.state.run.seen) p.old p.new }
{
    let x = p.peek();
    error_row(p);
    if known {
        let end = p.state.run.pen.pos;
        p.push_error(fault::named_error(ErrorKind::ExtraTokens, x.start, end, w));
    }
}

// The end of a directive's line. known: the directive is; w: its word.
pub fn finish(p: &mut Parser, w: Seen, known: bool)
    requires held { Held (source_of p.old) w }
    requires word { w.kind ≡ 0 → ⊥ }
    ensures { Parses (finish (tail_errors known (leaf_seen (source_of p.old) w))) p.old p.new }
{
    if !parser::ends_row(p.state.run.seen.kind) {
        extra(p, w, known);
    }
    p.bump();
}
