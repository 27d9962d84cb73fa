// The kinds by their numbers, as the parser holds them: 0 stands for no leaf there, and for no kind where two are glued.
ghost use Rattle.std.specs.Prelude.{◌≡◌};
ghost use Rattle.definition.specs.SyntaxKind.{Kind as Numbers};
ghost use Rattle.theorems.specs.Step.{glued_kind};
ghost use Rattle.syntax_kind.specs.Number.{maybe};

use crate::kind::SyntaxKind;
use crate::operators;

#[derive(Clone, Copy)]
pub struct Kind {
    pub number: u8,
}

impl Kind {
    pub const IDENT_KW: u8 = SyntaxKind::IDENT_KW as u8;

    pub const DEFINED: u8 = SyntaxKind::DEFINED as u8;

    pub const DIGITS: u8 = SyntaxKind::DIGITS as u8;

    pub const PERIOD: u8 = SyntaxKind::PERIOD as u8;

    pub const PLUS: u8 = SyntaxKind::PLUS as u8;

    pub const DASH: u8 = SyntaxKind::DASH as u8;

    pub const SLASH: u8 = SyntaxKind::SLASH as u8;

    pub const ASTERISK: u8 = SyntaxKind::ASTERISK as u8;

    pub const PERCENT: u8 = SyntaxKind::PERCENT as u8;

    pub const LANGLE: u8 = SyntaxKind::LANGLE as u8;

    pub const RANGLE: u8 = SyntaxKind::RANGLE as u8;

    pub const LBRACKET: u8 = SyntaxKind::LBRACKET as u8;

    pub const RBRACKET: u8 = SyntaxKind::RBRACKET as u8;

    pub const LPAREN: u8 = SyntaxKind::LPAREN as u8;

    pub const RPAREN: u8 = SyntaxKind::RPAREN as u8;

    pub const LBRACE: u8 = SyntaxKind::LBRACE as u8;

    pub const RBRACE: u8 = SyntaxKind::RBRACE as u8;

    pub const CARET: u8 = SyntaxKind::CARET as u8;

    pub const BAR: u8 = SyntaxKind::BAR as u8;

    pub const AMPERSAND: u8 = SyntaxKind::AMPERSAND as u8;

    pub const TILDE: u8 = SyntaxKind::TILDE as u8;

    pub const EQUAL: u8 = SyntaxKind::EQUAL as u8;

    pub const BANG: u8 = SyntaxKind::BANG as u8;

    pub const COLON: u8 = SyntaxKind::COLON as u8;

    pub const SEMICOLON: u8 = SyntaxKind::SEMICOLON as u8;

    pub const COMMA: u8 = SyntaxKind::COMMA as u8;

    pub const QUESTION: u8 = SyntaxKind::QUESTION as u8;

    pub const HASH: u8 = SyntaxKind::HASH as u8;

    pub const QUOTE_STRING: u8 = SyntaxKind::QUOTE_STRING as u8;

    pub const ANGLE_STRING: u8 = SyntaxKind::ANGLE_STRING as u8;

    pub const BACKSLASH: u8 = SyntaxKind::BACKSLASH as u8;

    pub const WS: u8 = SyntaxKind::WS as u8;

    pub const NEWLINE: u8 = SyntaxKind::NEWLINE as u8;

    pub const COMMENT: u8 = SyntaxKind::COMMENT as u8;

    pub const LINECONT: u8 = SyntaxKind::LINECONT as u8;

    pub const ERROR: u8 = SyntaxKind::ERROR as u8;

    pub const LEFT_OP: u8 = SyntaxKind::LEFT_OP as u8;

    pub const RIGHT_OP: u8 = SyntaxKind::RIGHT_OP as u8;

    pub const INC_OP: u8 = SyntaxKind::INC_OP as u8;

    pub const DEC_OP: u8 = SyntaxKind::DEC_OP as u8;

    pub const LE_OP: u8 = SyntaxKind::LE_OP as u8;

    pub const GE_OP: u8 = SyntaxKind::GE_OP as u8;

    pub const EQ_OP: u8 = SyntaxKind::EQ_OP as u8;

    pub const NE_OP: u8 = SyntaxKind::NE_OP as u8;

    pub const AND_OP: u8 = SyntaxKind::AND_OP as u8;

    pub const OR_OP: u8 = SyntaxKind::OR_OP as u8;

    pub const XOR_OP: u8 = SyntaxKind::XOR_OP as u8;

    pub const MUL_ASSIGN: u8 = SyntaxKind::MUL_ASSIGN as u8;

    pub const DIV_ASSIGN: u8 = SyntaxKind::DIV_ASSIGN as u8;

    pub const ADD_ASSIGN: u8 = SyntaxKind::ADD_ASSIGN as u8;

    pub const MOD_ASSIGN: u8 = SyntaxKind::MOD_ASSIGN as u8;

    pub const LEFT_ASSIGN: u8 = SyntaxKind::LEFT_ASSIGN as u8;

    pub const RIGHT_ASSIGN: u8 = SyntaxKind::RIGHT_ASSIGN as u8;

    pub const AND_ASSIGN: u8 = SyntaxKind::AND_ASSIGN as u8;

    pub const XOR_ASSIGN: u8 = SyntaxKind::XOR_ASSIGN as u8;

    pub const OR_ASSIGN: u8 = SyntaxKind::OR_ASSIGN as u8;

    pub const SUB_ASSIGN: u8 = SyntaxKind::SUB_ASSIGN as u8;

    pub const PP_CONCAT_OP: u8 = SyntaxKind::PP_CONCAT_OP as u8;

    pub const PP_CONCAT: u8 = SyntaxKind::PP_CONCAT as u8;

    pub const PP_EMPTY: u8 = SyntaxKind::PP_EMPTY as u8;

    pub const PP_INCLUDE: u8 = SyntaxKind::PP_INCLUDE as u8;

    pub const PP_INCLUDE_PATH: u8 = SyntaxKind::PP_INCLUDE_PATH as u8;

    pub const PP_DEFINE: u8 = SyntaxKind::PP_DEFINE as u8;

    pub const PP_DEFINE_ARGS: u8 = SyntaxKind::PP_DEFINE_ARGS as u8;

    pub const PP_DEFINE_ARG: u8 = SyntaxKind::PP_DEFINE_ARG as u8;

    pub const PP_DEFINE_BODY: u8 = SyntaxKind::PP_DEFINE_BODY as u8;

    pub const PP_UNDEF: u8 = SyntaxKind::PP_UNDEF as u8;

    pub const PP_IDENT: u8 = SyntaxKind::PP_IDENT as u8;

    pub const PP_IF: u8 = SyntaxKind::PP_IF as u8;

    pub const PP_IF_EXPR: u8 = SyntaxKind::PP_IF_EXPR as u8;

    pub const PP_IFDEF: u8 = SyntaxKind::PP_IFDEF as u8;

    pub const PP_IFNDEF: u8 = SyntaxKind::PP_IFNDEF as u8;

    pub const PP_ELSE: u8 = SyntaxKind::PP_ELSE as u8;

    pub const PP_ELIF: u8 = SyntaxKind::PP_ELIF as u8;

    pub const PP_ENDIF: u8 = SyntaxKind::PP_ENDIF as u8;

    pub const PP_ERROR: u8 = SyntaxKind::PP_ERROR as u8;

    pub const PP_ERROR_BODY: u8 = SyntaxKind::PP_ERROR_BODY as u8;

    pub const PP_PRAGMA: u8 = SyntaxKind::PP_PRAGMA as u8;

    pub const PP_PRAGMA_BODY: u8 = SyntaxKind::PP_PRAGMA_BODY as u8;

    pub const PP_EXTENSION: u8 = SyntaxKind::PP_EXTENSION as u8;

    pub const PP_VERSION: u8 = SyntaxKind::PP_VERSION as u8;

    pub const PP_VERSION_NUMBER: u8 = SyntaxKind::PP_VERSION_NUMBER as u8;

    pub const PP_VERSION_PROFILE: u8 = SyntaxKind::PP_VERSION_PROFILE as u8;

    pub const PP_LINE: u8 = SyntaxKind::PP_LINE as u8;

    pub const PP_LINE_BODY: u8 = SyntaxKind::PP_LINE_BODY as u8;

    pub const ROOT: u8 = SyntaxKind::ROOT as u8;
}

// The number of a kind that may be none.
fn number_of(kind: Option<SyntaxKind>) -> u8
    ensures { result ≡ maybe kind }
{
    match kind {
        Some(kind) => kind.into(),
        None => 0,
    }
}

// The kind of an operator with `=` behind it, 0 where they do not glue.
#[tactic(auto, using(crate::proofs::Unglued::left_unglued))]
pub fn with_equal(a: u8) -> u8
    ensures { result ≡ glued_kind a Numbers.EQUAL }
{
    match SyntaxKind::try_from(u32::from(a)) {
        Ok(kind) => number_of(operators::with_equal(kind)),
        Err(_) => 0,
    }
}

// The kind of an operator twice, 0 where it does not glue with itself.
#[tactic(auto, using(crate::proofs::Unglued::left_unglued))]
pub fn doubled(a: u8) -> u8
    ensures { result ≡ glued_kind a a }
{
    match SyntaxKind::try_from(u32::from(a)) {
        Ok(kind) => number_of(operators::doubled(kind)),
        Err(_) => 0,
    }
}

// The kind of two pre-tokens together, 0 where they do not glue.
#[tactic(auto, using(crate::proofs::Unglued::left_unglued, crate::proofs::Unglued::right_unglued))]
pub fn glue(a: u8, b: u8) -> u8
    ensures { result ≡ glued_kind a b }
{
    let Ok(lhs) = SyntaxKind::try_from(u32::from(a)) else {
        return 0;
    };
    let Ok(rhs) = SyntaxKind::try_from(u32::from(b)) else {
        return 0;
    };
    number_of(operators::glue(lhs, rhs))
}
