// The argument list of a `define` (`syntax.rs`).
#![tactic(auto)]

ghost use Rattle.std.specs.Prelude.{◌≡◌, true, length};
ghost use Rattle.definition.specs.Syntax.{wanted, args, define_args as Syntax·define_args};
ghost use Rattle.parser_run.specs.Parses.{source_of, Parses};
ghost use Rattle.args.specs.Args.{opening, closing, place, Lists};

use parser_run::Parser;
use syntax_kind::number::Kind;

// What an argument list waits for beside RPAREN: an identifier, or else a comma.
fn wanted(first: bool) -> u8
    ensures { result ≡ wanted first }
{
    if first { Kind::IDENT_KW } else { Kind::COMMA }
}

// Whether a leaf of this kind is an argument; first: in an identifier's place.
fn opens(first: bool, kind: u8) -> bool
    ensures { result ≡ opening first kind }
{
    first && kind == Kind::IDENT_KW
}

// Whether an argument list ends at a leaf of this kind.
fn closes(kind: u8) -> bool
    ensures { result ≡ closing kind }
{
    parser::ends_row(kind) || kind == Kind::RPAREN
}

// One place of the list: an argument in its node, or a comma, or the end. Whether there was an error.
fn place(p: &mut Parser, first: bool) -> bool
    ensures { Lists (place (length (source_of p.old)) first) p.old p.new result }
{
    let x = p.peek();
    if opens(first, x.kind) {
        p.node_bump(Kind::PP_DEFINE_ARG);
        return false;
    }
    !p.expect_any(wanted(first), Kind::RPAREN)
}

// The argument list behind its LPAREN: identifiers and commas in turn, up to RPAREN, a NEWLINE or the end. Whether there was an error.
fn args(p: &mut Parser) -> bool
    ensures { Lists (args (length (source_of p.old)) true) p.old p.new result }
{
    let mut first = true;
    let mut bad = false;
    loop {
        p.skip_trivia();
        let x = p.peek();
        bad |= place(p, first);
        if closes(x.kind) {
            return bad;
        }
        first = !first;
    }
}

// One node over the argument list, from its LPAREN on: ERROR if it has an error.
pub fn define_args(p: &mut Parser)
    ensures { Parses (Syntax·define_args (length (source_of p.old))) p.old p.new }
{
    p.start_node();
    p.bump();
    let kind = if args(p) {
        Kind::ERROR
    } else {
        Kind::PP_DEFINE_ARGS
    };
    p.finish_node(kind);
}
