// Groups: brackets behind a HASH (`pp_rs_ident` of `syntax.rs`).
#![tactic(auto)]

pub mod state;

ghost use Rattle.std.specs.Prelude.{◌≡◌, ◌≤◌, length};
ghost use Rattle.definition.specs.SyntaxKind.{Kind as SyntaxKind};
ghost use Rattle.definition.specs.Calls.{longest_source};
ghost use Rattle.definition.specs.Syntax.{control_line, relexed};
ghost use Rattle.parser.specs.Rest.{unread, Held};
ghost use Rattle.parser_run.specs.Parses.{source_of};
ghost use Rattle.group.specs.Group.{brackets, group_at, closed, nodeless, Gathers};

use parser::Seen;
use parser::source::Source;
use parser_run::Parser;
use syntax_kind::number::Kind;

// How many brackets are open behind a leaf of this kind.
fn brackets(kind: u8, count: u32) -> u32
    requires { count ≤ longest_source }
    ensures { result ≡ brackets kind count }
{
    match kind {
        Kind::LPAREN => count + 1,
        Kind::RPAREN => count.saturating_sub(1),
        _ => count,
    }
}

// Takes a group from its LPAREN on, which is seen, up to the matching RPAREN or the end.
pub fn pp_rs_ident(p: &mut Parser)
    requires { p.old.state.run.seen.kind ≡ SyntaxKind.LPAREN }
    ensures { Gathers (group_at (source_of p.old) p.old.state.run.seen) p.old p.new }
{
    let mut count: u32 = 0;
    while p.state.run.seen.kind != 0 {
        let x = p.peek();
        count = brackets(x.kind, count);
        p.state.run.pen = parser::leaf(p.table, p.state.run.pen, x);
        p.state.run.seen = parser::see(p.source, x.end, x.angle);
        if count == 0 {
            return;
        }
    }
}

// Whether the group from its LPAREN on, x, closes.
fn closes(source: Source, x: Seen) -> bool
    requires held { Held source.src.now x }
    requires opened { x.kind ≡ SyntaxKind.LPAREN }
    ensures { result ≡ closed (group_at source.entry.src.now x (unread source.entry.src.now x)) }
{
    let mut y = x;
    let mut count: u32 = 0;
    while y.kind != 0 {
        count = brackets(y.kind, count);
        if count == 0 {
            return true;
        }
        y = parser::see(source, y.end, y.angle);
    }
    false
}

// Whether a closed group follows a HASH and its trivia: it has no node.
#[tactic(auto, using(crate::proofs::Lines::is_group, crate::proofs::Lines::no_group))]
pub fn is_group(source: Source, x: Seen) -> bool
    requires { Held source.src.now x }
    ensures { result ≡ nodeless (control_line (length source.entry.src.now) relexed (unread source.entry.src.now x)) }
{
    x.kind == Kind::LPAREN && closes(source, x)
}
