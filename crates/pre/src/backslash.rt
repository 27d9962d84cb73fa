// A backslash that stands alone (`State::Backslash`).
ghost use Rattle.std.specs.Prelude.{◌≡◌, ◌≤◌, length};
ghost use Rattle.definition.specs.Pre as state;
ghost use Rattle.pre.specs.Scan.{told, from};

use crate::token::Token;
use syntax_kind::kind::SyntaxKind;

// What a backslash begins that stands before `at`: a continuation, or the backslash alone.
pub fn backslash(src: &[u8], at: usize) -> Token
    requires { at ≤ length src.now }
    ensures { told result ≡ from (state.backslash state.alone) 0 at src.now }
{
    match text::newline::newline_at(src, at) {
        0 => Token {
            kind: SyntaxKind::BACKSLASH,
            end: at,
        },
        w => Token {
            kind: SyntaxKind::LINECONT,
            end: at + w,
        },
    }
}
