// Digit sequences (`State::Digits`).
ghost use Rattle.std.specs.Prelude.{◌≡◌, false};
ghost use Rattle.definition.specs.Pre as state;
ghost use Rattle.pre.specs.Table.{class_table};
ghost use Rattle.pre.specs.Scan.{from, told, takes_point};

use crate::class::{Classes, class_of};
use crate::token::Token;
use syntax_kind::kind::SyntaxKind;
use text::newline;

// Whether a dot, or a sign behind an e, goes on with a number.
fn takes(b: u8, e: bool, dot: bool) -> bool
    ensures { result ≡ takes_point b e dot }
{
    match b {
        b'.' => !dot,
        b'+' | b'-' => e,
        _ => false,
    }
}

// The rest of a digit sequence, from `at` on. The place goes on by more than one where a newline is passed over. One test
// after another: a match on the kind asks first whether it is one of many others.
#[inline(always)]
pub fn digits(src: &[u8], table: &Classes, at: usize) -> Token
    requires { table.now ≡ class_table }
    ensures { told result ≡ from (state.digits false false) 0 at src.now }
{
    let mut i = at;
    let mut e = false;
    let mut dot = false;
    while i < src.len() {
        let b = src[i];
        let class = class_of(table, b);
        if let SyntaxKind::DIGITS = class {
            i += 1;
        } else if let SyntaxKind::IDENT_KW = class {
            e = matches!(b, b'e' | b'E');
            i += 1;
        } else if takes(b, e, dot) {
            dot |= b == b'.';
            i += 1;
        } else if b == b'\\' {
            let w = newline::newline_at(src, i + 1);
            if w == 0 {
                return Token {
                    kind: SyntaxKind::BACKSLASH,
                    end: i + 1,
                };
            }
            i = i + 1 + w;
        } else {
            break;
        }
    }
    Token {
        kind: SyntaxKind::DIGITS,
        end: i,
    }
}
