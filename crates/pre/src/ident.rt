// Identifiers and keywords (`State::Ident`).
ghost use Rattle.std.specs.Prelude.{◌≡◌};
ghost use Rattle.definition.specs.Pre as state;
ghost use Rattle.pre.specs.Table.{class_table};
ghost use Rattle.pre.specs.Scan.{from, told};
ghost use Rattle.pre.specs.Words.{in_word as Words·in_word};

use crate::class::{Classes, class_of};
use crate::token::Token;
use syntax_kind::kind::SyntaxKind;
use text::{newline, stretch};

// The rest of an identifier, from `at` on. The place goes on by more than one where a newline is passed over.
#[inline(always)]
pub fn ident(src: &[u8], table: &Classes, at: usize) -> Token
    requires { table.now ≡ class_table }
    ensures { told result ≡ from state.ident 0 at src.now }
{
    let mut i = at;
    while i < src.len() {
        let b = src[i];
        match class_of(table, b) {
            // DEFINED is no entry of the table: with it the three are told by one comparison.
            SyntaxKind::IDENT_KW | SyntaxKind::DEFINED | SyntaxKind::DIGITS => i += 1,
            _ if b == b'_' => i += 1,
            _ if b == b'\\' => {
                let w = newline::newline_at(src, i + 1);
                if w == 0 {
                    return Token {
                        kind: SyntaxKind::BACKSLASH,
                        end: i + 1,
                    };
                }
                i = i + 1 + w;
            }
            _ => break,
        }
    }
    Token {
        kind: SyntaxKind::IDENT_KW,
        end: i,
    }
}

// How many bytes are looked at together.
const STEP: usize = 32;

// Whether a byte goes on with an identifier, whatever follows. It is told by numbers: a compiler looks at no entries of a table together.
#[tactic(auto, unfolding(crate::specs::Words::in_word))]
fn in_word(b: u8) -> bool
    ensures { result ≡ Words·in_word b }
{
    b.is_ascii_alphabetic() || b.is_ascii_digit() || b == b'_'
}

// The same, where it ends looked for at once: in text a processor does not foresee the end of a loop over an identifier.
pub fn word(src: &[u8], table: &Classes, at: usize) -> Token
    requires { table.now ≡ class_table }
    ensures { told result ≡ from state.ident 0 at src.now }
{
    if stretch::stand(src, at, STEP) {
        match stretch::first_failing::<STEP, _>(src, at, &in_word) {
            Some(k) if src[at + k] != b'\\' => {
                return Token {
                    kind: SyntaxKind::IDENT_KW,
                    end: at + k,
                };
            }
            _ => {}
        }
    }
    ident(src, table, at)
}
