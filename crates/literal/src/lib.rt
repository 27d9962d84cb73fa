// Literals: decimal, octal or hexadecimal, without suffix, read unescaped (Req 03).
#![tactic(auto)]

ghost use Rattle.std.specs.Prelude.{◌≡◌, ◌<◌, ◌≤◌, drop};
ghost use Rattle.definition.specs.Unescaped.{unescaped};
ghost use Rattle.definition.specs.Condition.Literal.{digit_value};
ghost use Rattle.arithmetic.specs.Told.{told};
ghost use Rattle.literal.specs.Comes.{number_comes, literal_comes};

use text::refusal::Refusal;

// Above the largest value: a number does not grow beyond it.
const CAP: u64 = 2147483648;

// What a digit counts; other bytes count 16, as in the definition: one comparison with the base tells both from its digits.
#[tactic(auto, unfolding(definition::specs::Condition::Literal::digit_value))]
pub fn digit_value(b: u8) -> u64
    ensures { result ≡ digit_value b }
{
    match b {
        b'0'..=b'9' => u64::from(b - b'0'),
        b'A'..=b'F' => 10 + u64::from(b - b'A'),
        b'a'..=b'f' => 10 + u64::from(b - b'a'),
        _ => 16,
    }
}

// The number of a base that a text is, unescaped, from a place on. The place goes on by more than one where a continuation is passed over.
fn number(text: &[u8], at: usize, base: u64) -> Result<i32, Refusal>
    requires { (0 < base) × (base ≤ 16) }
    ensures { told result ≡ number_comes base (unescaped (drop at text.now)) }
{
    let mut i = unescaped::skip(text, at);
    if text.len() <= i {
        return Err(Refusal::Expression);
    }
    let mut n: u64 = 0;
    while i < text.len() {
        let d = digit_value(text[i]);
        if base <= d {
            return Err(Refusal::Expression);
        }
        n = (n * base + d).min(CAP);
        i = unescaped::skip(text, i + 1);
    }
    i32::try_from(n).map_err(|_| Refusal::Range)
}

// The value of a literal; a text that is none gives no expression.
pub fn literal(text: &[u8]) -> Result<i32, Refusal>
    ensures { told result ≡ literal_comes (unescaped text.now) }
{
    let a = unescaped::skip(text, 0);
    let Some(first) = text.get(a) else {
        return Err(Refusal::Expression);
    };
    if *first != b'0' {
        return number(text, a, 10);
    }
    let b = unescaped::skip(text, a + 1);
    let Some(second) = text.get(b) else {
        return Ok(0);
    };
    match *second {
        b'x' | b'X' => number(text, b + 1, 16),
        _ => number(text, b, 8),
    }
}
