// Which kinds glue (`maybe_concat` of `glue.rs`); the arms stand in the order of the gluing steps.
ghost use Rattle.std.specs.Prelude.{◌≡◌};
ghost use Rattle.definition.specs.SyntaxKind.{Kind};
ghost use Rattle.theorems.specs.Step.{glued_kind};
ghost use Rattle.syntax_kind.specs.Number.{number, maybe};

use crate::kind::SyntaxKind;

// The kind of an operator with `=` behind it, if they glue.
#[tactic(auto, unfolding(theorems::specs::Step::glued_kind, definition::specs::Glue::glued))]
#[inline(always)]
pub fn with_equal(a: SyntaxKind) -> Option<SyntaxKind>
    ensures { maybe result ≡ glued_kind (number a) Kind.EQUAL }
{
    match a {
        SyntaxKind::LANGLE => Some(SyntaxKind::LE_OP),
        SyntaxKind::RANGLE => Some(SyntaxKind::GE_OP),
        SyntaxKind::EQUAL => Some(SyntaxKind::EQ_OP),
        SyntaxKind::BANG => Some(SyntaxKind::NE_OP),
        SyntaxKind::ASTERISK => Some(SyntaxKind::MUL_ASSIGN),
        SyntaxKind::SLASH => Some(SyntaxKind::DIV_ASSIGN),
        SyntaxKind::PLUS => Some(SyntaxKind::ADD_ASSIGN),
        SyntaxKind::PERCENT => Some(SyntaxKind::MOD_ASSIGN),
        SyntaxKind::LEFT_OP => Some(SyntaxKind::LEFT_ASSIGN),
        SyntaxKind::RIGHT_OP => Some(SyntaxKind::RIGHT_ASSIGN),
        SyntaxKind::AMPERSAND => Some(SyntaxKind::AND_ASSIGN),
        SyntaxKind::CARET => Some(SyntaxKind::XOR_ASSIGN),
        SyntaxKind::BAR => Some(SyntaxKind::OR_ASSIGN),
        SyntaxKind::DASH => Some(SyntaxKind::SUB_ASSIGN),
        _ => None,
    }
}

// The kind of an operator twice, if it glues with itself.
#[tactic(auto, unfolding(theorems::specs::Step::glued_kind, definition::specs::Glue::glued))]
#[inline(always)]
pub fn doubled(a: SyntaxKind) -> Option<SyntaxKind>
    ensures { maybe result ≡ glued_kind (number a) (number a) }
{
    match a {
        SyntaxKind::LANGLE => Some(SyntaxKind::LEFT_OP),
        SyntaxKind::RANGLE => Some(SyntaxKind::RIGHT_OP),
        SyntaxKind::PLUS => Some(SyntaxKind::INC_OP),
        SyntaxKind::DASH => Some(SyntaxKind::DEC_OP),
        SyntaxKind::EQUAL => Some(SyntaxKind::EQ_OP),
        SyntaxKind::AMPERSAND => Some(SyntaxKind::AND_OP),
        SyntaxKind::BAR => Some(SyntaxKind::OR_OP),
        SyntaxKind::CARET => Some(SyntaxKind::XOR_OP),
        SyntaxKind::HASH => Some(SyntaxKind::PP_CONCAT_OP),
        _ => None,
    }
}

// The kind of two pre-tokens together, if they glue.
#[tactic(auto, unfolding(theorems::specs::Step::glued_kind, definition::specs::Glue::glued))]
pub fn glue(a: SyntaxKind, b: SyntaxKind) -> Option<SyntaxKind>
    ensures { maybe result ≡ glued_kind (number a) (number b) }
{
    if b == SyntaxKind::EQUAL {
        with_equal(a)
    } else if a == b {
        doubled(a)
    } else if a == SyntaxKind::PERIOD && b == SyntaxKind::DIGITS {
        Some(SyntaxKind::DIGITS)
    } else {
        None
    }
}
