// The kinds of tokens and nodes, by their numbers (`syntax_kind.rs`).
ghost use Rattle.std.specs.Prelude.{◌≡◌};
ghost use Rattle.syntax_kind.specs.Number.{number, numbered_kinds};
ghost use Rattle.syntax_kind.specs.Decodes.{Decodes};

use text::refusal::Refusal;

#[derive(Clone, Copy, PartialEq, Eq, Debug)]
pub enum SyntaxKind {
    // Identifier or keyword
    IDENT_KW = 1,
    // defined preprocessor keyword
    DEFINED = 2,
    // Digit sequence
    DIGITS = 3,
    // .
    PERIOD = 4,
    // +
    PLUS = 5,
    // -
    DASH = 6,
    // /
    SLASH = 7,
    // *
    ASTERISK = 8,
    // %
    PERCENT = 9,
    // <
    LANGLE = 10,
    // >
    RANGLE = 11,
    // [
    LBRACKET = 12,
    // ]
    RBRACKET = 13,
    // (
    LPAREN = 14,
    // )
    RPAREN = 15,
    // {
    LBRACE = 16,
    // }
    RBRACE = 17,
    // ^
    CARET = 18,
    // |
    BAR = 19,
    // &
    AMPERSAND = 20,
    // ~
    TILDE = 21,
    // =
    EQUAL = 22,
    // !
    BANG = 23,
    // :
    COLON = 24,
    // ;
    SEMICOLON = 25,
    // ,
    COMMA = 26,
    // ?
    QUESTION = 27,
    // #
    HASH = 28,
    // "string"
    QUOTE_STRING = 29,
    // <string>
    ANGLE_STRING = 30,
    // \
    BACKSLASH = 31,
    // Whitespace
    WS = 32,
    // Newline
    NEWLINE = 33,
    // Comment (single-line or multi-line)
    COMMENT = 34,
    // Line continuation, a token alone: the leaf is a WS
    LINECONT = 35,
    // Invalid token
    ERROR = 36,
    // <<
    LEFT_OP = 37,
    // >>
    RIGHT_OP = 38,
    // ++
    INC_OP = 39,
    // --
    DEC_OP = 40,
    // <=
    LE_OP = 41,
    // >=
    GE_OP = 42,
    // ==
    EQ_OP = 43,
    // !=
    NE_OP = 44,
    // &&
    AND_OP = 45,
    // ||
    OR_OP = 46,
    // ^^
    XOR_OP = 47,
    // *=
    MUL_ASSIGN = 48,
    // /=
    DIV_ASSIGN = 49,
    // +=
    ADD_ASSIGN = 50,
    // %=
    MOD_ASSIGN = 51,
    // <<=
    LEFT_ASSIGN = 52,
    // >>=
    RIGHT_ASSIGN = 53,
    // &=
    AND_ASSIGN = 54,
    // ^=
    XOR_ASSIGN = 55,
    // |=
    OR_ASSIGN = 56,
    // -=
    SUB_ASSIGN = 57,
    // ##
    PP_CONCAT_OP = 58,
    // Concatenation expression
    PP_CONCAT = 59,
    // #
    PP_EMPTY = 60,
    // #include
    PP_INCLUDE = 61,
    // #include path
    PP_INCLUDE_PATH = 62,
    // #define
    PP_DEFINE = 63,
    // #define arguments
    PP_DEFINE_ARGS = 64,
    // #define argument
    PP_DEFINE_ARG = 65,
    // #define body
    PP_DEFINE_BODY = 66,
    // #undef
    PP_UNDEF = 67,
    // Identifier of a directive
    PP_IDENT = 68,
    // #if
    PP_IF = 69,
    // #if expression
    PP_IF_EXPR = 70,
    // #ifdef
    PP_IFDEF = 71,
    // #ifndef
    PP_IFNDEF = 72,
    // #else
    PP_ELSE = 73,
    // #elif
    PP_ELIF = 74,
    // #endif
    PP_ENDIF = 75,
    // #error
    PP_ERROR = 76,
    // #error body
    PP_ERROR_BODY = 77,
    // #pragma
    PP_PRAGMA = 78,
    // #pragma body
    PP_PRAGMA_BODY = 79,
    // #extension
    PP_EXTENSION = 80,
    // #version
    PP_VERSION = 81,
    // #version number
    PP_VERSION_NUMBER = 82,
    // #version profile
    PP_VERSION_PROFILE = 83,
    // #line
    PP_LINE = 84,
    // #line body
    PP_LINE_BODY = 85,
    // AST root
    ROOT = 86,
}

// The number of a kind.
impl From<SyntaxKind> for u8 {
    ghost from_gives = { λ k n. n ≡ number k };

    fn from(k: SyntaxKind) -> u8 {
        k as u8
    }
}

// The number of a kind, as it stands in a table.
impl From<SyntaxKind> for u32 {
    ghost from_gives = { λ k n. n ≡ number k };

    fn from(k: SyntaxKind) -> u32 {
        k as u32
    }
}

// The kinds in the order of their numbers, from 1.
const KINDS: [SyntaxKind; 86] = [
    SyntaxKind::IDENT_KW,
    SyntaxKind::DEFINED,
    SyntaxKind::DIGITS,
    SyntaxKind::PERIOD,
    SyntaxKind::PLUS,
    SyntaxKind::DASH,
    SyntaxKind::SLASH,
    SyntaxKind::ASTERISK,
    SyntaxKind::PERCENT,
    SyntaxKind::LANGLE,
    SyntaxKind::RANGLE,
    SyntaxKind::LBRACKET,
    SyntaxKind::RBRACKET,
    SyntaxKind::LPAREN,
    SyntaxKind::RPAREN,
    SyntaxKind::LBRACE,
    SyntaxKind::RBRACE,
    SyntaxKind::CARET,
    SyntaxKind::BAR,
    SyntaxKind::AMPERSAND,
    SyntaxKind::TILDE,
    SyntaxKind::EQUAL,
    SyntaxKind::BANG,
    SyntaxKind::COLON,
    SyntaxKind::SEMICOLON,
    SyntaxKind::COMMA,
    SyntaxKind::QUESTION,
    SyntaxKind::HASH,
    SyntaxKind::QUOTE_STRING,
    SyntaxKind::ANGLE_STRING,
    SyntaxKind::BACKSLASH,
    SyntaxKind::WS,
    SyntaxKind::NEWLINE,
    SyntaxKind::COMMENT,
    SyntaxKind::LINECONT,
    SyntaxKind::ERROR,
    SyntaxKind::LEFT_OP,
    SyntaxKind::RIGHT_OP,
    SyntaxKind::INC_OP,
    SyntaxKind::DEC_OP,
    SyntaxKind::LE_OP,
    SyntaxKind::GE_OP,
    SyntaxKind::EQ_OP,
    SyntaxKind::NE_OP,
    SyntaxKind::AND_OP,
    SyntaxKind::OR_OP,
    SyntaxKind::XOR_OP,
    SyntaxKind::MUL_ASSIGN,
    SyntaxKind::DIV_ASSIGN,
    SyntaxKind::ADD_ASSIGN,
    SyntaxKind::MOD_ASSIGN,
    SyntaxKind::LEFT_ASSIGN,
    SyntaxKind::RIGHT_ASSIGN,
    SyntaxKind::AND_ASSIGN,
    SyntaxKind::XOR_ASSIGN,
    SyntaxKind::OR_ASSIGN,
    SyntaxKind::SUB_ASSIGN,
    SyntaxKind::PP_CONCAT_OP,
    SyntaxKind::PP_CONCAT,
    SyntaxKind::PP_EMPTY,
    SyntaxKind::PP_INCLUDE,
    SyntaxKind::PP_INCLUDE_PATH,
    SyntaxKind::PP_DEFINE,
    SyntaxKind::PP_DEFINE_ARGS,
    SyntaxKind::PP_DEFINE_ARG,
    SyntaxKind::PP_DEFINE_BODY,
    SyntaxKind::PP_UNDEF,
    SyntaxKind::PP_IDENT,
    SyntaxKind::PP_IF,
    SyntaxKind::PP_IF_EXPR,
    SyntaxKind::PP_IFDEF,
    SyntaxKind::PP_IFNDEF,
    SyntaxKind::PP_ELSE,
    SyntaxKind::PP_ELIF,
    SyntaxKind::PP_ENDIF,
    SyntaxKind::PP_ERROR,
    SyntaxKind::PP_ERROR_BODY,
    SyntaxKind::PP_PRAGMA,
    SyntaxKind::PP_PRAGMA_BODY,
    SyntaxKind::PP_EXTENSION,
    SyntaxKind::PP_VERSION,
    SyntaxKind::PP_VERSION_NUMBER,
    SyntaxKind::PP_VERSION_PROFILE,
    SyntaxKind::PP_LINE,
    SyntaxKind::PP_LINE_BODY,
    SyntaxKind::ROOT,
];

fn kinds() -> [SyntaxKind; 86]
    ensures { result ≡ numbered_kinds }
{
    KINDS
}

// The kind of a number; 0, 35 (a token alone) and those above 86 are no kinds that are pasted.
impl TryFrom<u32> for SyntaxKind {
    type Error = Refusal;

    ghost try_from_gives = { Decodes };

    fn try_from(k: u32) -> Result<Self, Refusal> {
        if k == 0 || k == SyntaxKind::LINECONT as u32 || (SyntaxKind::ROOT as u32) < k {
            return Err(Refusal::Kind);
        }
        let all = kinds();
        Ok(all[k as usize - 1])
    }
}
