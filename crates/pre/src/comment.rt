// Comments, and the slash before them (`State::Slash`, `State::SingleComment`, `State::MultiComment`).
ghost use Rattle.std.specs.Prelude.{◌≡◌, drop};
ghost use Rattle.definition.specs.Pre as state;
ghost use Rattle.pre.specs.Table.{class_table};
ghost use Rattle.pre.specs.Scan.{told, from, width_at as Scan·width_at};
ghost use Rattle.pre.specs.Passes.{Passes};

use crate::class::{Classes, class_of};
use crate::token::Token;
use syntax_kind::kind::SyntaxKind;
use text::{newline, stretch};

// How many bytes to pass with the character at `at`: those of a newline, else its first byte.
fn width_at(src: &[u8], at: usize) -> usize
    ensures { result ≡ Scan·width_at (drop at src.now) }
{
    newline::newline_at(src, at).max(1)
}

// How many bytes of a single-line comment are looked at together.
const LINE_STEP: usize = 64;

// Bytes below this may begin a newline; no other byte does. One comparison for both newline characters: tabs, which it stops at too, are rare in comments.
const QUIET: u8 = 14;

// Behind the bytes at a place that go on with a single-line comment, as far as LINE_STEP bytes stand.
fn pass_quiet(src: &[u8], at: usize) -> usize
    ensures { Passes state.single_comment src.now at result }
{
    stretch::pass_to::<LINE_STEP, _>(src, at, &|b: u8| QUIET <= b && b != b'\\')
}

// The rest of a single-line comment, from `at` on: a backslash takes the next character. The place goes on by one byte, or by two and more.
pub fn single_comment(src: &[u8], table: &Classes, at: usize) -> Token
    requires { table.now ≡ class_table }
    ensures { told result ≡ from state.single_comment 0 at src.now }
{
    let mut i = pass_quiet(src, at);
    while i < src.len() {
        let b = src[i];
        if let SyntaxKind::NEWLINE = class_of(table, b) {
            break;
        }
        i += 1;
        if b == b'\\' && i < src.len() {
            i += width_at(src, i);
        }
    }
    Token {
        kind: SyntaxKind::COMMENT,
        end: i,
    }
}

// How many bytes of a comment are looked at together; each look has a length of its own.
const STEP: usize = 16;

// Behind the bytes at a place that are no stars, as far as they are none in whole steps.
fn pass_no_star(src: &[u8], at: usize) -> usize
    ensures { Passes state.multi_comment src.now at result }
{
    stretch::pass_steps::<STEP, _>(src, at, &|b: u8| b != b'*')
}

// The rest of a comment, from `at` on: a star takes the next character. The place goes on by one byte, or behind a star by two and more.
pub fn multi_comment(src: &[u8], at: usize) -> Token
    ensures { told result ≡ from state.multi_comment 0 at src.now }
{
    let mut i = pass_no_star(src, at);
    while i < src.len() {
        if src[i] == b'*' && i + 1 < src.len() {
            if src[i + 1] == b'/' {
                return Token {
                    kind: SyntaxKind::COMMENT,
                    end: i + 2,
                };
            }
            i = pass_no_star(src, i + 2);
        } else {
            i += 1;
        }
    }
    Token {
        kind: SyntaxKind::ERROR,
        end: i,
    }
}

// What a slash begins that stands before `at`.
pub fn slash(src: &[u8], table: &Classes, at: usize) -> Token
    requires { table.now ≡ class_table }
    ensures { told result ≡ from state.slash 0 at src.now }
{
    match newline::byte_at(src, at) {
        b'/' => single_comment(src, table, at + 1),
        b'*' => multi_comment(src, at + 1),
        _ => Token {
            kind: SyntaxKind::SLASH,
            end: at,
        },
    }
}
