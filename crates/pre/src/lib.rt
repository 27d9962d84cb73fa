// The pre-lexer: tokens of one or more characters, before operators are glued (`pre.rs`).
#![tactic(auto)]

pub mod backslash;
pub mod character;
pub mod class;
pub mod comment;
pub mod digits;
pub mod ident;
pub mod name;
pub mod punct;
pub mod string;
pub mod token;
pub mod whitespace;

ghost use Rattle.std.specs.Prelude.{◌≡◌, false, ◌<◌, ◌+◌, length, get_or};
ghost use Rattle.definition.specs.Pre.{begin, flag};
ghost use Rattle.pre.specs.Table.{class_table};
ghost use Rattle.pre.specs.Scan.{from, told, pre_next, stepped};

use crate::class::{Classes, class_of};
use crate::token::Token;
use syntax_kind::kind::SyntaxKind;
use text::newline;

// The token that starts at `at`.
fn token_at(src: &[u8], table: &Classes, at: usize, angle: bool) -> Token
    requires { (table.now ≡ class_table) × (at < length src.now) }
    ensures { told result ≡ from (begin angle (get_or src.now at 0)) (get_or src.now at 0) (at + 1) src.now }
{
    let b = src[at];
    let kind = class_of(table, b);
    match kind {
        SyntaxKind::IDENT_KW => ident::ident(src, table, at + 1),
        SyntaxKind::WS => whitespace::whitespace(src, table, at + 1),
        SyntaxKind::DIGITS => digits::digits(src, table, at + 1),
        SyntaxKind::NEWLINE => Token {
            kind,
            end: at + newline::newline_at(src, at),
        },
        _ => punct::punct(src, table, at, b, kind, angle),
    }
}

// Whether an angle string is still expected after a token that begins with b.
fn keeps(table: &Classes, angle: bool, b: u8) -> bool
    requires { table.now ≡ class_table }
    ensures { result ≡ flag angle b }
{
    angle
        && match class_of(table, b) {
            SyntaxKind::NEWLINE => false,
            _ => b != b'"' && b != b'<',
        }
}

// Where the pre-lexer stands, and whether `<` opens a string.
#[derive(Clone, Copy)]
pub struct PreLexer {
    pub at: usize,
    pub angle: bool,
}

// The kind of a token, and the state behind it, where the token ends.
#[derive(Clone, Copy)]
pub struct PreStep {
    pub kind: SyntaxKind,
    pub next: PreLexer,
}

impl PreLexer {
    pub fn new() -> Self
        ensures { (result.at ≡ 0) × (result.angle ≡ false) }
    {
        Self {
            at: 0,
            angle: false,
        }
    }

    // The token where the pre-lexer stands, and the state behind it.
    pub fn next(self, src: &[u8], table: &Classes) -> Option<PreStep>
        requires { table.now ≡ class_table }
        ensures { stepped result ≡ pre_next self src.now }
    {
        let at = self.at;
        if src.len() <= at {
            return None;
        }
        let token = token_at(src, table, at, self.angle);
        let kind = name::name(src, at, token.end, token.kind);
        let angle = keeps(table, self.angle, src[at]);
        let next = Self {
            at: token.end,
            angle,
        };
        Some(PreStep { kind, next })
    }
}
