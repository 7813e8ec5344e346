// UTF-8: whether bytes are well formed, their code points, and the places between characters.
#![tactic(auto)]

ghost use Rattle.std.specs.Prelude.{◌≡◌};
ghost use Rattle.std.specs.Iterator.{YieldsFirst, item_count};
ghost use Rattle.utf8.specs.Utf8.{first as first_of, extra as extra_of, low as low_of, high as high_of, fits as fits_of, after_byte as after_of, well_formed, all_ascii, bits as bits_of, codes, code_at, all_latin1, continues as continues_of, inside_character};

// How many bytes of a character are due, and the range of the next one. Laws on texts name it.
#[derive(Clone, Copy)]
pub struct Due {
    pub left: u8,
    pub low: u8,
    pub high: u8,
}

// A code point, and how many bytes it takes.
#[derive(Clone, Copy)]
pub struct Code {
    pub code: u32,
    pub len: usize,
}

impl Due {
    // Nothing yet.
    const NONE: Due = Due {
        left: 0,
        low: 128,
        high: 191,
    };

    // Whether a byte may come.
    #[tactic(auto, unfolding(crate::specs::Utf8::fits))]
    fn fits(self, b: u8) -> bool
        ensures { result ≡ fits_of self b }
    {
        if self.left == 0 {
            first(b)
        } else {
            self.low <= b && b <= self.high
        }
    }

    // What is due after it.
    #[tactic(auto, unfolding(crate::specs::Utf8::after_byte))]
    fn after_byte(self, b: u8) -> Due
        ensures { result ≡ after_of self b }
    {
        if self.left == 0 {
            Due {
                left: extra(b),
                low: low(b),
                high: high(b),
            }
        } else {
            Due {
                left: self.left - 1,
                ..Due::NONE
            }
        }
    }
}

// Whether a byte may start a character.
#[tactic(auto, unfolding(crate::specs::Utf8::first))]
fn first(b: u8) -> bool
    ensures { result ≡ first_of b }
{
    matches!(b, 0..=127 | 194..=244)
}

// How many bytes follow a first byte.
#[tactic(auto, unfolding(crate::specs::Utf8::extra))]
fn extra(b: u8) -> u8
    ensures { result ≡ extra_of b }
{
    match b {
        0..=191 => 0,
        192..=223 => 1,
        224..=239 => 2,
        _ => 3,
    }
}

// The lowest second byte.
#[tactic(auto, unfolding(crate::specs::Utf8::low))]
fn low(b: u8) -> u8
    ensures { result ≡ low_of b }
{
    match b {
        224 => 160,
        240 => 144,
        _ => 128,
    }
}

// The highest second byte.
#[tactic(auto, unfolding(crate::specs::Utf8::high))]
fn high(b: u8) -> u8
    ensures { result ≡ high_of b }
{
    match b {
        237 => 159,
        244 => 143,
        _ => 191,
    }
}

// Whether every byte is ASCII from a code on: the least and the largest are. No way out of the loop, so that it takes many bytes
// at a time.
#[tactic(auto, using(crate::proofs::Laws::ascii_ways))]
fn ascii(s: &[u8], from: u8) -> bool
    ensures { result ≡ all_ascii from s.now }
{
    let mut least = u8::MAX;
    let mut largest = u8::MIN;
    for b in s {
        least = least.min(*b);
        largest = largest.max(*b);
    }
    from <= least && largest < 128
}

// Whether the bytes are well-formed UTF-8, byte by byte.
#[tactic(auto, using(crate::proofs::Laws::formed_ways), unfolding(crate::specs::Utf8::well_formed))]
fn walk(s: &[u8]) -> bool
    ensures { result ≡ well_formed s.now }
{
    let mut d = Due::NONE;
    for b in s {
        if !d.fits(*b) {
            return false;
        }
        d = d.after_byte(*b);
    }
    d.left == 0
}

// Whether the bytes are well-formed UTF-8: most texts are ASCII.
#[tactic(auto, using(crate::proofs::Text::ascii_formed))]
pub fn well_formed(s: &[u8]) -> bool
    ensures { result ≡ well_formed s.now }
{
    ascii(s, 0) || walk(s)
}

// The six low bits of the byte at a place.
fn bits(s: &[u8], at: usize) -> u32
    ensures { result ≡ bits_of s.now at }
{
    u32::from(base::byte_at(s, at) % 64)
}

// The code point at a place, and how many bytes it takes.
#[tactic(auto, using(crate::proofs::Laws::code_ways))]
pub fn code_at(s: &[u8], at: usize) -> Code
    ensures { result ≡ code_at s.now at }
{
    let b = u32::from(base::byte_at(s, at));
    match b {
        0..=191 => Code { code: b, len: 1 },
        192..=223 => Code {
            code: b % 32 * 64 + bits(s, at + 1),
            len: 2,
        },
        224..=239 => Code {
            code: (b % 16 * 64 + bits(s, at + 1)) * 64 + bits(s, at + 2),
            len: 3,
        },
        _ => Code {
            code: ((b % 8 * 64 + bits(s, at + 1)) * 64 + bits(s, at + 2)) * 64 + bits(s, at + 3),
            len: 4,
        },
    }
}

// Whether a byte goes on with a character.
#[tactic(auto, unfolding(crate::specs::Utf8::continues))]
fn continues(b: u8) -> bool
    ensures { result ≡ continues_of b }
{
    matches!(b, 128..=191)
}

// Whether a place is inside a character.
#[tactic(auto, unfolding(crate::specs::Utf8::inside_character))]
pub fn inside_character(s: &[u8], at: usize) -> bool
    ensures { result ≡ inside_character s.now at }
{
    continues(base::byte_at(s, at))
}

// The code points of a text.
#[derive(Drop)]
pub struct Codes<'a>(pub &'a [u8]);

impl<'a> Iterator for Codes<'a> {
    type Item = u32;

    ghost next_gives = { YieldsFirst (λ s. codes s.0.now) };

    ghost remaining = { item_count (λ s. codes s.0.now) };

    #[tactic(auto, using(crate::proofs::Laws::codes_ways))]
    fn next(&mut self) -> Option<u32> {
        if self.0.is_empty() {
            return None;
        }
        let c = code_at(self.0, 0);
        self.0 = &self.0[c.len.min(self.0.len())..];
        Some(c.code)
    }
}

// Whether every code point is 1 to 255.
#[tactic(auto, using(crate::proofs::Text::ascii_latin1))]
pub fn latin1(s: &[u8]) -> bool
    ensures { result ≡ all_latin1 (codes s.now) }
{
    ascii(s, 1) || Codes(s).all(|c| matches!(c, 1..=255))
}
