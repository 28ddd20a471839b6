// Numbers in decimal, read.

#![tactic(auto)]

ghost use Rattle.std.specs.Prelude.{◌≡◌, ◌<◌};
ghost use Rattle.std.specs.Option.{SomeIff};
ghost use Rattle.decimal.specs.Decimal.{decimal_value, read_decimal, decimal_answer};

#[tactic(auto, unfolding(crate::specs::Decimal::decimal_value))]
fn digit(b: u8) -> Option<u64>
    ensures { SomeIff result (decimal_value b < 10) (decimal_value b) }
{
    match b {
        b'0'..=b'9' => Some(u64::from(b - b'0')),
        _ => None,
    }
}

// Reads a number in decimal, without leading zeros.
// None for a text without digits, with another byte or with a leading zero, and for 2^64 and above.
#[tactic(auto, using(crate::proofs::DecimalSteps::reading))]
pub fn read_decimal(s: &[u8]) -> Option<u64>
    ensures { decimal_answer result ≡ read_decimal s.now }
{
    if let [] | [b'0', _, ..] = s {
        return None;
    }
    let mut value: u64 = 0;
    for &b in s {
        value = value.checked_mul(10)?.checked_add(digit(b)?)?;
    }
    Some(value)
}
