// What the operators do that a method of i32 does not do alone.
ghost use Rattle.std.specs.Prelude.{◌≡◌, pos, ◌*ℤ◌};
ghost use Rattle.std.specs.Int.Signed.{rem_z, shr_z};
ghost use Rattle.definition.specs.Condition.Value.{within, divided, shifted};
ghost use Rattle.arithmetic.specs.Told.{told, Places};

use text::refusal::Refusal;

// A whole number as a value, if it is one of 32 bits.
pub fn fit(z: i64) -> Result<i32, Refusal>
    ensures { told result ≡ within z }
{
    i32::try_from(z).map_err(|_| Refusal::Range)
}

// What a quotient truncated toward zero leaves; that of -1 is always 0.
pub fn remainder(x: i32, y: i32) -> Result<i32, Refusal>
    ensures { told result ≡ divided rem_z x y }
{
    if y == 0 {
        return Err(Refusal::Range);
    }
    Ok(x.wrapping_rem(y))
}

// By how many places a value is shifted.
fn places(y: i32) -> Result<u32, Refusal>
    ensures { Places y result }
{
    if (0..32).contains(&y) {
        Ok(y.unsigned_abs())
    } else {
        Err(Refusal::Range)
    }
}

// Left shift multiplies.
pub fn shift_left(x: i32, y: i32) -> Result<i32, Refusal>
    ensures { told result ≡ shifted (λ m. x *ℤ pos m) y }
{
    let n = places(y)?;
    fit(i64::from(x) * (1i64 << n))
}

// Right shift rounds down.
pub fn shift_right(x: i32, y: i32) -> Result<i32, Refusal>
    ensures { told result ≡ shifted (λ m. shr_z x m) y }
{
    let n = places(y)?;
    Ok(x >> n)
}
