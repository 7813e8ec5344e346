// Number readers: Rust's unsigned `parse` and `from_str_radix`, on any part of a slice. That a number is at most max is a clause of each, by which
// callers cast: a type for it would have the bound, which is the caller's, as a parameter.
#![tactic(auto)]

ghost use Rattle.std.specs.Prelude.{◌≡◌, ◌≤◌, ◌<◌, IfSome};
ghost use Rattle.number.specs.Number.{read_digits, read_number, version_id};

// One or more digits.
#[tactic(auto, using(crate::proofs::Laws::steps), unfolding(crate::specs::Number::read_digits, crate::specs::Number::read_from))]
fn read_digits(s: &[u8], radix: u32, max: u32) -> Option<u32>
    requires { (2 ≤ radix) × (radix ≤ 16) }
    ensures value { result ≡ read_digits radix max s.now }
    ensures within { IfSome result (λ n. n ≤ max) }
{
    if s.is_empty() {
        return None;
    }
    let mut n = 0u32;
    for b in s {
        let d = char::from(*b).to_digit(radix)?;
        n = n.checked_mul(radix)?.checked_add(d)?;
        if max < n {
            return None;
        }
    }
    Some(n)
}

// One or more digits, after a + or not.
#[tactic(auto, unfolding(crate::specs::Number::read_number, crate::specs::Number::read_digits))]
fn read_number(s: &[u8], radix: u32, max: u32) -> Option<u32>
    requires { (2 ≤ radix) × (radix ≤ 16) }
    ensures value { result ≡ read_number radix max s.now }
    ensures within { IfSome result (λ n. n ≤ max) }
{
    match s {
        [b'+', digits @ ..] => read_digits(digits, radix, max),
        _ => read_digits(s, radix, max),
    }
}

// Rust's `parse`: a decimal number of at most max.
pub fn parse(s: &[u8], max: u32) -> Option<u32>
    ensures value { result ≡ read_number 10 max s.now }
    ensures within { IfSome result (λ n. n ≤ max) }
{
    read_number(s, 10, max)
}

// Rust's `u16::from_str_radix(_, 16)`: a hexadecimal number of 16 bits.
pub fn from_hex(s: &[u8]) -> Option<u32>
    ensures value { result ≡ read_number 16 65535 s.now }
    ensures within { IfSome result (λ n. n ≤ 65535) }
{
    read_number(s, 16, 65535)
}

// A version id: a hexadecimal number of exactly four bytes.
#[tactic(auto, unfolding(crate::specs::Number::version_id))]
pub fn version_id(s: &[u8]) -> Option<u32>
    ensures value { result ≡ version_id s.now }
    ensures within { IfSome result (λ n. n ≤ 65535) }
{
    if s.len() == 4 { from_hex(s) } else { None }
}
