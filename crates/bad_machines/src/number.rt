// Decimal fields of a line.
ghost use Rattle.std.specs.Prelude.{◌≡◌, ◌-◌, length, drop};

// A field's value, and what follows it in the line.
#[derive(Clone, Copy)]
pub struct Decimal<'a> {
    pub value: u32,
    pub rest: &'a [u8],
}

// The number that a line begins with, past one space before it: one past 32 bits keeps its low ones.
pub fn field(s: &[u8]) -> Decimal
    ensures { result.rest.now ≡ drop (length s.now - length result.rest.now) s.now }
{
    let s = s.strip_prefix(b" ").unwrap_or(s);
    let end = s
        .iter()
        .position(|b| !b.is_ascii_digit())
        .unwrap_or(s.len());
    let (digits, rest) = s.split_at(end);
    Decimal {
        value: digits.iter().fold(0, |n, d| shifted(n, *d)),
        rest,
    }
}

// One more digit behind a value.
fn shifted(value: u32, digit: u8) -> u32 {
    ((u64::from(value) * 10 + u64::from(digit % 16)) % 4294967296) as u32
}
