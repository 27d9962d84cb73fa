// Tokens that begin with punctuation (`State::Init`).
ghost use Rattle.std.specs.Prelude.{◌≡◌, ◌<◌, ◌+◌, length};
ghost use Rattle.definition.specs.Pre.{begin};
ghost use Rattle.syntax_kind.specs.Number.{number};
ghost use Rattle.pre.specs.Table.{class_table, class_number, IsPunct};
ghost use Rattle.pre.specs.Scan.{from, told};

use crate::class::Classes;
use crate::token::Token;
use crate::{backslash, character, comment, ident, string};
use syntax_kind::kind::SyntaxKind;

// From this byte on, a byte begins a character of several bytes.
const LEADING: u8 = 192;

// A token that begins at `at` with the punctuation b, whose entry in the table is `kind`.
pub fn punct(src: &[u8], table: &Classes, at: usize, b: u8, kind: SyntaxKind, angle: bool) -> Token
    requires { (table.now ≡ class_table) × ((at < length src.now) × (IsPunct kind × (number kind ≡ class_number b))) }
    ensures { told result ≡ from (begin angle b) b (at + 1) src.now }
{
    match b {
        b'_' => ident::ident(src, table, at + 1),
        b'/' => comment::slash(src, table, at + 1),
        b'"' => string::quote_string(src, at + 1),
        b'<' => {
            if angle {
                string::angle_string(src, at + 1)
            } else {
                Token { kind, end: at + 1 }
            }
        }
        b'\\' => backslash::backslash(src, at + 1),
        _ if b < LEADING => Token { kind, end: at + 1 },
        _ => character::rest_of_character(src, at + 1, b, kind),
    }
}
