// Strings (`State::QuoteString`, `State::AngleString`).
ghost use Rattle.std.specs.Prelude.{◌≡◌};
ghost use Rattle.definition.specs.Pre as state;
ghost use Rattle.syntax_kind.specs.Number.{number};
ghost use Rattle.pre.specs.Scan.{told, from};
ghost use Rattle.pre.specs.Strings.{Quoted};

use crate::token::Token;
use syntax_kind::kind::SyntaxKind;

// The rest of a string of this kind, which a byte closes, from `at` on.
fn string(src: &[u8], at: usize, close: u8, kind: SyntaxKind) -> Token
    ensures { (q : state.State) → Quoted q close (number kind) → told result ≡ from q 0 at src.now }
{
    for i in at..src.len() {
        if src[i] == close {
            return Token { kind, end: i + 1 };
        }
    }
    Token {
        kind: SyntaxKind::ERROR,
        end: at.max(src.len()),
    }
}

// The rest of a string, from `at` on.
pub fn quote_string(src: &[u8], at: usize) -> Token
    ensures { told result ≡ from state.quote_string 0 at src.now }
{
    string(src, at, b'"', SyntaxKind::QUOTE_STRING)
}

// The rest of an angle string, from `at` on.
pub fn angle_string(src: &[u8], at: usize) -> Token
    ensures { told result ≡ from state.angle_string 0 at src.now }
{
    string(src, at, b'>', SyntaxKind::ANGLE_STRING)
}
