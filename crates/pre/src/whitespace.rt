// Blanks (`State::Whitespace`).
ghost use Rattle.std.specs.Prelude.{◌≡◌};
ghost use Rattle.definition.specs.Pre as state;
ghost use Rattle.pre.specs.Table.{class_table};
ghost use Rattle.pre.specs.Scan.{from, told};

use crate::class::{Classes, class_of};
use crate::token::Token;
use syntax_kind::kind::SyntaxKind;

// The rest of a row of blanks, from `at` on.
pub fn whitespace(src: &[u8], table: &Classes, at: usize) -> Token
    requires { table.now ≡ class_table }
    ensures { told result ≡ from state.whitespace 0 at src.now }
{
    for i in at..src.len() {
        let SyntaxKind::WS = class_of(table, src[i]) else {
            return Token {
                kind: SyntaxKind::WS,
                end: i,
            };
        };
    }
    Token {
        kind: SyntaxKind::WS,
        end: at.max(src.len()),
    }
}
