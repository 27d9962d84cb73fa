// The ranks of the binary operators: one table, loosest last, by the precedence of GLSL 4.60, section 3.3.
ghost use Rattle.std.specs.Prelude.{◌≡◌};
ghost use Rattle.definition.specs.Condition.Operators.{binary};
ghost use Rattle.arithmetic.specs.Told.{rank_number};

use syntax_kind::number::Kind;

// The rank of a kind, counted from 1, the loosest; 0: it is no binary operator. A reader asks for a rank above one that it has, so 0 needs no case of its own.
pub fn rank(kind: u8) -> u32
    ensures { result ≡ rank_number (binary kind) }
{
    match kind {
        Kind::ASTERISK => 10,
        Kind::SLASH => 10,
        Kind::PERCENT => 10,
        Kind::PLUS => 9,
        Kind::DASH => 9,
        Kind::LEFT_OP => 8,
        Kind::RIGHT_OP => 8,
        Kind::LANGLE => 7,
        Kind::RANGLE => 7,
        Kind::LE_OP => 7,
        Kind::GE_OP => 7,
        Kind::EQ_OP => 6,
        Kind::NE_OP => 6,
        Kind::AMPERSAND => 5,
        Kind::CARET => 4,
        Kind::BAR => 3,
        Kind::AND_OP => 2,
        Kind::OR_OP => 1,
        _ => 0,
    }
}
