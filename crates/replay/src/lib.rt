// What the replaying programs share: case and answer streams as text (lines, words, numbers and bytes on any part of a slice),
// reading one on standard input, and what is printed.
#![tactic(auto)]

mod input;
mod score;
mod stream;

ghost use Rattle.std.specs.Prelude.{◌≡◌, ◌+◌, ◌*◌, ◌<◌, ◌≤◌, length, IfSome, OnSome};
ghost use Rattle.replay.specs.Text.{words_of, word_of, number_of, starts, is_all, plain_number, nibble_of, pair_of, digits_in, pairs_of};

use arrayvec::ArrayVec;
pub use input::{Input, Line, Lines};
pub use score::{BadStream, Score, print_other};
pub use stream::{Kind, Phase, Stream};

// How many words a line has: one more than its spaces.
pub fn words(line: &[u8]) -> usize
    ensures count { result ≡ length (words_of line.now) }
    ensures few { result ≤ length line.now + 1 }
{
    line.split(|b| *b == b' ').count()
}

// Word n of a line, counted from 0, or nothing where there are fewer.
pub fn word(line: &[u8], n: usize) -> &[u8]
    ensures bytes { result.now ≡ word_of line.now n }
    ensures short { length result.now ≤ length line.now }
{
    line.split(|b| *b == b' ').nth(n).unwrap_or_default()
}

// A decimal number without a sign and without leading zeros.
#[tactic(auto, unfolding(crate::specs::Text::plain_number))]
fn plain(word: &[u8]) -> Option<u32>
    ensures { result ≡ plain_number word.now }
{
    match word {
        b"0" => Some(0),
        [b'0' | b'+', ..] => None,
        _ => number::parse(word, u32::MAX),
    }
}

// Word n of a line as a number.
pub fn number_at(line: &[u8], n: usize) -> Option<u32>
    ensures { result ≡ number_of line.now n }
{
    plain(word(line, n))
}

// Whether a line begins with numbers.
pub fn begins(line: &[u8], numbers: &[u64]) -> bool
    ensures { result ≡ starts line.now numbers.now }
{
    numbers.iter().enumerate().all(|(k, n)| number_at(line, k).is_some_and(|m| u64::from(m) == *n))
}

// Whether a line is numbers.
pub fn is_line(line: &[u8], numbers: &[u64]) -> bool
    ensures { result ≡ is_all line.now numbers.now }
{
    words(line) == numbers.len() && begins(line, numbers)
}

// Whether a line is so many numbers.
fn is_numbers(line: &[u8], count: usize) -> bool {
    words(line) == count && line.split(|b| *b == b' ').all(|word| plain(word).is_some())
}

// The value of a hexadecimal digit in lower case.
#[tactic(auto, unfolding(crate::specs::Text::nibble_of))]
fn nibble(b: u8) -> Option<u8>
    ensures value { result ≡ nibble_of b }
    ensures small { IfSome result (λ n. n < 16) }
{
    match b {
        b'0'..=b'9' => Some(b - b'0'),
        b'a'..=b'f' => Some(b - b'a' + 10),
        _ => None,
    }
}

// The byte of two hexadecimal digits.
#[tactic(auto, unfolding(crate::specs::Text::pair_of))]
fn pair(high: u8, low: u8) -> Option<u8>
    ensures { result ≡ pair_of high low }
{
    Some(nibble(high)? * 16 + nibble(low)?)
}

// The bytes of a word of pairs: a - has none.
#[tactic(auto, using(crate::proofs::Laws::pair_ways), unfolding(crate::specs::Text::digits_in))]
pub fn bytes<const N: usize>(word: &[u8], out: &mut ArrayVec<u8, N>) -> Option<()>
    ensures { OnSome result (pairs_of (digits_in word.now) ≡ Some out.new.items) }
{
    out.clear();
    let mut rest = match word {
        [] => return None,
        b"-" => &[],
        _ => word,
    };
    while let [high, low, more @ ..] = rest {
        out.try_push(pair(*high, *low)?).ok()?;
        rest = more;
    }
    rest.is_empty().then_some(())
}
