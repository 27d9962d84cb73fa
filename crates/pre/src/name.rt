// The keyword `defined`.
ghost use Rattle.std.specs.Prelude.{◌≡◌, ◌≤◌, ◌<◌, ◌-◌, length, drop, take};
ghost use Rattle.definition.specs.Text.{same};
ghost use Rattle.definition.specs.Glue.{defined};
ghost use Rattle.definition.specs.Unescaped.{unescaped};
ghost use Rattle.syntax_kind.specs.Number.{number};
ghost use Rattle.theorems.specs.Walk.{name_kind};

use syntax_kind::kind::SyntaxKind;
use syntax_kind::number::Kind;

// How many letters `defined` has, and its first.
const LETTERS: usize = 7;

const FIRST: u8 = b'd';

// Whether a text is `defined`, unescaped. The literal is made anew where it is named, so most texts are told from it before.
fn is_defined(text: &[u8]) -> bool
    ensures { result ≡ same (unescaped text.now) defined }
{
    unescaped::may_be(text, LETTERS, FIRST) && unescaped::eq(text, b"defined")
}

// The kind of a token, `defined` told from other identifiers.
pub fn name(src: &[u8], at: usize, end: usize, kind: SyntaxKind) -> SyntaxKind
    requires { (at < end) × (end ≤ length src.now) }
    ensures { number result ≡ name_kind (number kind) (take (end - at) (drop at src.now)) }
{
    match kind {
        SyntaxKind::IDENT_KW if is_defined(&src[at..end]) => SyntaxKind::DEFINED,
        _ => kind,
    }
}

// The same of a kind by its number, whatever the number: only that of an identifier may change.
pub fn name_number(src: &[u8], at: usize, end: usize, kind: u8) -> u8
    requires { (at < end) × (end ≤ length src.now) }
    ensures { result ≡ name_kind kind (take (end - at) (drop at src.now)) }
{
    match kind {
        Kind::IDENT_KW => name(src, at, end, SyntaxKind::IDENT_KW).into(),
        _ => kind,
    }
}
