// The directives, each from behind its word (`syntax.rs`).
#![tactic(auto)]

pub mod body;
pub mod define;
pub mod rest;
pub mod state;

ghost use Rattle.std.specs.Prelude.{◌≡◌, false, length};
ghost use Rattle.definition.specs.Tree.{body_kind};
ghost use Rattle.definition.specs.Syntax.{pp_if_ident as Syntax·pp_if_ident, pp_version as Syntax·pp_version, pp_extension as Syntax·pp_extension};
ghost use Rattle.parser_run.specs.Parses.{source_of, Parses};
ghost use Rattle.directives.specs.Next.{expect_next as Next·expect_next, expect_node as Next·expect_node};

use parser_run::Parser;
use syntax_kind::number::Kind;

// Trivia, and a leaf of kind k.
fn expect_next(p: &mut Parser, k: u8)
    requires { k ≡ 0 → ⊥ }
    ensures { Parses (Next·expect_next (length (source_of p.old)) k) p.old p.new }
{
    p.skip_trivia();
    p.expect_one(k);
}

// Trivia, and a node over a leaf of kind k.
fn expect_node(p: &mut Parser, k: u8, node: u8)
    requires leaf { k ≡ 0 → ⊥ }
    requires plain { body_kind node ≡ false }
    ensures { Parses (Next·expect_node (length (source_of p.old)) k node) p.old p.new }
{
    p.skip_trivia();
    p.start_node();
    p.expect_one(k);
    p.finish_node(node);
}

// `undef`, `ifdef`, `ifndef`: an identifier.
pub fn pp_if_ident(p: &mut Parser)
    ensures { Parses (Syntax·pp_if_ident (length (source_of p.old))) p.old p.new }
{
    expect_node(p, Kind::IDENT_KW, Kind::PP_IDENT);
}

// `version`: a number, maybe a profile.
pub fn pp_version(p: &mut Parser)
    ensures { Parses (Syntax·pp_version (length (source_of p.old))) p.old p.new }
{
    expect_node(p, Kind::DIGITS, Kind::PP_VERSION_NUMBER);
    p.skip_trivia();
    let profile = p.peek().kind == Kind::IDENT_KW;
    if profile {
        p.node_bump(Kind::PP_VERSION_PROFILE);
    }
}

// `extension`: a name, a colon, a behaviour.
pub fn pp_extension(p: &mut Parser)
    ensures { Parses (Syntax·pp_extension (length (source_of p.old))) p.old p.new }
{
    expect_next(p, Kind::IDENT_KW);
    p.skip_trivia();
    if p.expect_any(Kind::COLON, 0) {
        expect_next(p, Kind::IDENT_KW);
    }
}
