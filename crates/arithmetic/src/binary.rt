// The binary operators by their kinds, in the order of GLSL 4.60, section 3.3.
ghost use Rattle.std.specs.Prelude.{◌≡◌};
ghost use Rattle.arithmetic.specs.Told.{told, operated, joined};

use crate::integer;
use syntax_kind::number::Kind;
use text::refusal::Refusal;

// What the operator of a kind does with two values.
fn operate(kind: u8, x: i32, y: i32) -> Result<i32, Refusal>
    ensures { told result ≡ operated kind x y }
{
    match kind {
        Kind::ASTERISK => x.checked_mul(y).ok_or(Refusal::Range),
        Kind::SLASH => x.checked_div(y).ok_or(Refusal::Range),
        Kind::PERCENT => integer::remainder(x, y),
        Kind::PLUS => x.checked_add(y).ok_or(Refusal::Range),
        Kind::DASH => x.checked_sub(y).ok_or(Refusal::Range),
        Kind::LEFT_OP => integer::shift_left(x, y),
        Kind::RIGHT_OP => integer::shift_right(x, y),
        Kind::LANGLE => Ok(i32::from(x < y)),
        Kind::RANGLE => Ok(i32::from(x > y)),
        Kind::LE_OP => Ok(i32::from(x <= y)),
        Kind::GE_OP => Ok(i32::from(x >= y)),
        Kind::EQ_OP => Ok(i32::from(x == y)),
        Kind::NE_OP => Ok(i32::from(x != y)),
        Kind::AMPERSAND => Ok(x & y),
        Kind::CARET => Ok(x ^ y),
        Kind::BAR => Ok(x | y),
        Kind::AND_OP => Ok(i32::from(y != 0)),
        Kind::OR_OP => Ok(i32::from(y != 0)),
        _ => Err(Refusal::Expression),
    }
}

// What the operator of a kind makes of its two sides: the first refusal met counts, and the right side of && and || only when it is needed.
pub fn join(kind: u8, a: Result<i32, Refusal>, b: Result<i32, Refusal>) -> Result<i32, Refusal>
    ensures { told result ≡ joined kind (told a) (told b) }
{
    let x = a?;
    if kind == Kind::AND_OP && x == 0 {
        return Ok(0);
    }
    if kind == Kind::OR_OP && x != 0 {
        return Ok(1);
    }
    operate(kind, x, b?)
}
