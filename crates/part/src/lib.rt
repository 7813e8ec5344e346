// Parts of a tag.
#![tactic(auto)]

ghost use Rattle.std.specs.Prelude.{◌≡◌, ◌≤◌, get_or, drop, IfSome, position, ◌==◌};
ghost use Rattle.part.specs.Part.{lower as lower_of, up_to, past, holds, index_of};
ghost use Rattle.number.specs.Number.{read_number};

// A byte with an ASCII letter in lower case.
#[tactic(auto, unfolding(crate::specs::Part::lower))]
fn lower(b: u8) -> u8
    ensures { result ≡ lower_of b }
{
    b.to_ascii_lowercase()
}

// The byte at a place, in lower case, 0 past the end.
pub fn letter_at(s: &[u8], at: usize) -> u8
    ensures { result ≡ lower_of (get_or s.now at 0) }
{
    lower(base::byte_at(s, at))
}

// Where the first byte that is sep stands, in either letter case.
fn position_of(s: &[u8], sep: u8) -> Option<usize>
    ensures { result ≡ position (λ b. lower_of b == sep) s.now }
{
    s.iter().position(|b| lower(*b) == sep)
}

// The same, or the length, where a slice up to it ends.
#[tactic(auto, using(crate::proofs::Laws::found_is))]
pub fn find(s: &[u8], sep: u8) -> usize
    ensures { result ≡ index_of sep s.now }
{
    position_of(s, sep).unwrap_or(s.len())
}

// The bytes from n on, none where there are fewer.
pub fn tail(s: &[u8], n: usize) -> &[u8]
    ensures { result.now ≡ drop n s.now }
{
    &s[n.min(s.len())..]
}

// The bytes before the first that is sep.
#[tactic(auto, using(crate::proofs::Laws::part_ways))]
pub fn first_part(s: &[u8], sep: u8) -> &[u8]
    ensures { result.now ≡ up_to sep s.now }
{
    &s[..find(s, sep)]
}

// The bytes after it.
#[tactic(auto, using(crate::proofs::Laws::part_ways))]
pub fn rest_part(s: &[u8], sep: u8) -> &[u8]
    ensures { result.now ≡ past sep s.now }
{
    tail(s, find(s, sep) + 1)
}

// Whether there is such a byte.
#[tactic(auto, using(crate::proofs::Laws::holds_is))]
pub fn has(s: &[u8], sep: u8) -> bool
    ensures { result ≡ holds sep s.now }
{
    position_of(s, sep).is_some()
}

// The number before the first separator.
pub fn number_before(s: &[u8], sep: u8, max: u32) -> Option<u32>
    ensures value { result ≡ read_number 10 max (up_to sep s.now) }
    ensures within { IfSome result (λ n. n ≤ max) }
{
    number::parse(first_part(s, sep), max)
}
