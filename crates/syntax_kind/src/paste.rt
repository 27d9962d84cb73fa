// Pasting two kinds (`SyntaxKind::paste`).
ghost use Rattle.std.specs.Prelude.{◌≡◌};
ghost use Rattle.definition.specs.SyntaxKind.{Kind};
ghost use Rattle.definition.specs.Glue.{pasted_kind as Glue·pasted_kind};
ghost use Rattle.definition.specs.Calls.{pasting};
ghost use Rattle.syntax_kind.specs.Number.{number};
ghost use Rattle.syntax_kind.specs.Pastes.{Pastes, answer};

use crate::kind::SyntaxKind;
use crate::operators::glue;
use text::refusal::Refusal;

// The answer: the refusal number, 0 if none, and the kind.
#[repr(C)]
#[derive(Clone, Copy)]
pub struct Pasted {
    pub refusal: u32,
    pub kind: u32,
}

impl From<Result<SyntaxKind, Refusal>> for Pasted {
    ghost from_gives = { λ o p. p ≡ answer o };

    fn from(outcome: Result<SyntaxKind, Refusal>) -> Pasted {
        match outcome {
            Ok(kind) => Pasted {
                refusal: 0,
                kind: kind.into(),
            },
            Err(refusal) => Pasted {
                refusal: refusal.into(),
                kind: 0,
            },
        }
    }
}

// An identifier may be made longer,
#[tactic(auto, unfolding(definition::specs::Glue::pasted_kind, definition::specs::Glue::glued))]
fn ident(rhs: SyntaxKind) -> SyntaxKind
    ensures { number result ≡ Glue·pasted_kind Kind.IDENT_KW (number rhs) }
{
    match rhs {
        SyntaxKind::DEFINED | SyntaxKind::IDENT_KW | SyntaxKind::DIGITS => SyntaxKind::IDENT_KW,
        _ => SyntaxKind::ERROR,
    }
}

// and a number.
#[tactic(auto, unfolding(definition::specs::Glue::pasted_kind, definition::specs::Glue::glued))]
fn digits(rhs: SyntaxKind) -> SyntaxKind
    ensures { number result ≡ Glue·pasted_kind Kind.DIGITS (number rhs) }
{
    match rhs {
        SyntaxKind::IDENT_KW
        | SyntaxKind::DIGITS
        | SyntaxKind::PERIOD
        | SyntaxKind::DASH
        | SyntaxKind::PLUS => SyntaxKind::DIGITS,
        _ => SyntaxKind::ERROR,
    }
}

// The kind of two kinds pasted: an identifier or a number made longer, or the two glued; ERROR if they don't paste.
fn pasted_kind(lhs: SyntaxKind, rhs: SyntaxKind) -> SyntaxKind
    ensures { number result ≡ Glue·pasted_kind (number lhs) (number rhs) }
{
    match lhs {
        SyntaxKind::IDENT_KW => ident(rhs),
        SyntaxKind::DIGITS => digits(rhs),
        _ => glue(lhs, rhs).unwrap_or(SyntaxKind::ERROR),
    }
}

// The kind of two numbers' kinds pasted.
fn paste_numbers(lhs: u32, rhs: u32) -> Result<SyntaxKind, Refusal>
    ensures { Pastes (pasting lhs rhs) (answer result) }
{
    let lhs = SyntaxKind::try_from(lhs)?;
    let rhs = SyntaxKind::try_from(rhs)?;
    Ok(pasted_kind(lhs, rhs))
}

// Pastes two kinds, or refuses a number that is no kind.
pub fn paste(lhs: u32, rhs: u32) -> Pasted
    ensures { Pastes (pasting lhs rhs) result }
{
    paste_numbers(lhs, rhs).into()
}
