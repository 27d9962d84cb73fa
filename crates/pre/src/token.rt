// A token of the pre-lexer as it is read: its kind, and where it ends (`pre/token.rs`).
use syntax_kind::kind::SyntaxKind;

#[derive(Clone, Copy, PartialEq, Eq, Debug)]
pub struct Token {
    pub kind: SyntaxKind,
    pub end: usize,
}

// The same with the number of a kind, or any other number, in place of a kind.
#[derive(Clone, Copy)]
pub struct NumberedToken {
    pub kind: u8,
    pub end: usize,
}
