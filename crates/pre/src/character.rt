// Characters of several bytes.
ghost use Rattle.std.specs.Prelude.{◌≡◌, ◌≤◌};
ghost use Rattle.definition.specs.Pre.{done};
ghost use Rattle.syntax_kind.specs.Number.{number};
ghost use Rattle.pre.specs.Scan.{token, told, from};

use crate::token::{NumberedToken, Token};
use syntax_kind::kind::SyntaxKind;

// A token of one character that begins with b: the rest of the character, from `at` on.
#[tactic(auto, using(crate::proofs::Characters::wide_low, crate::proofs::Characters::wide_high))]
pub fn rest_of_character(src: &[u8], at: usize, b: u8, kind: SyntaxKind) -> Token
    requires { 192 ≤ b }
    ensures { told result ≡ from (done (number kind)) b at src.now }
{
    for i in at..src.len() {
        let 128..=191 = src[i] else {
            return Token { kind, end: i };
        };
    }
    Token {
        kind,
        end: at.max(src.len()),
    }
}

// The same of a kind by its number, whatever the number: where the character ends does not hang on it.
pub fn rest_of_character_number(src: &[u8], at: usize, b: u8, kind: u8) -> NumberedToken
    requires { 192 ≤ b }
    ensures { token result.kind result.end ≡ from (done kind) b at src.now }
{
    let end = rest_of_character(src, at, b, SyntaxKind::ERROR).end;
    NumberedToken { kind, end }
}
