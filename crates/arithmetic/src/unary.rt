// The unary signs: + - ~ !
ghost use Rattle.std.specs.Prelude.{◌≡◌};
ghost use Rattle.definition.specs.Condition.Operators.{unary};
ghost use Rattle.arithmetic.specs.Told.{told, signed_by, is_unary};

use syntax_kind::number::Kind;
use text::refusal::Refusal;

// Whether a kind is a sign.
pub fn is_sign(kind: u8) -> bool
    ensures { result ≡ is_unary (unary kind) }
{
    matches!(kind, Kind::PLUS | Kind::DASH | Kind::TILDE | Kind::BANG)
}

// What the sign of a kind makes of its operand.
pub fn sign(kind: u8, a: Result<i32, Refusal>) -> Result<i32, Refusal>
    ensures { told result ≡ signed_by kind (told a) }
{
    let x = a?;
    match kind {
        Kind::PLUS => Ok(x),
        Kind::DASH => x.checked_neg().ok_or(Refusal::Range),
        Kind::TILDE => Ok(!x),
        Kind::BANG => Ok(i32::from(x == 0)),
        _ => Err(Refusal::Expression),
    }
}
