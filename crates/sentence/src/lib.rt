// The refusal as an English sentence: document 02, A1.
#![tactic(auto)]

ghost use Rattle.std.specs.Prelude.{◌≡◌, ◌++◌, ◌+◌, ◌≤◌, ◌<◌, length};
ghost use Rattle.buffer.specs.Put.{Put};
ghost use Rattle.sentence.specs.Words.{words};
ghost use Rattle.sentence.specs.Sentence.{digit_count, decimal, telling, buffer_after};

use refusal::Refusal;

// How many digits a number has.
#[tactic(auto, unfolding(crate::specs::Sentence::digit_count))]
fn digit_count(n: u16) -> usize
    ensures count { result ≡ digit_count n }
    ensures few { result ≤ 5 }
    ensures small { n < 1000 → result ≤ 3 }
{
    match n {
        0..=9 => 1,
        10..=99 => 2,
        100..=999 => 3,
        1000..=9999 => 4,
        _ => 5,
    }
}

// The words of a number.
#[tactic(auto, unfolding(crate::specs::Words::words, crate::specs::Words::table, crate::specs::Words::unknown))]
fn words(number: u8) -> &'static [u8]
    ensures { (result.now ≡ words number) × (length result.now ≤ 40) }
{
    match number {
        1 => b"sign file is damaged, load it again",
        2 => b"message is over 2,048 bytes, shorten it",
        3 => b"message is not UTF-8, type it again",
        4 => b"room is too small, or offset is wrong",
        5 => b"tag is unknown, or not for this board",
        6 => b"value in this tag cannot be used here",
        7 => b"text has a character no board can show",
        8 => b"too many lines, or texts in one line",
        9 => b"justification goes back, change order",
        10 => b"font is not on this board",
        11 => b"font has another version on this board",
        12 => b"character is not in this font",
        13 => b"text does not fit its rectangle",
        14 => b"font is too tall for this line grid",
        15 => b"too many text rectangles on one page",
        16 => b"room for the sentence is too small",
        _ => b"unknown",
    }
}

// A text in a lent buffer, as far as it is written: no Vec, since the library has no heap. Crate buffer says what `put` writes, for other
// writers too.
#[derive(Drop)]
struct Writer<'a> {
    buffer: &'a mut [u8],
    len: usize,
}

impl Writer<'_> {
    fn put(&mut self, text: &[u8])
        requires { self.old.len + length text.now ≤ length self.old.buffer.now }
        ensures put { Put self.old.len text.now self.old.buffer.now self.new.buffer.now self.new.len }
        ensures same { self.new.buffer.ghost_name ≡ self.old.buffer.ghost_name }
    {
        self.len = buffer::put(self.buffer, self.len, text);
    }

    // A number without leading zeros, from its last digit on, in its place by an index: with its digits in an array of their own, or by itoa, the
    // call takes 120 bytes of stack, and the header says 80. `write!` promises its text where it succeeds, but not that it does. By `as`, which is
    // proved to lose nothing, here and below.
    #[tactic(auto, using(crate::proofs::Laws::count_start))]
    fn put_decimal(&mut self, n: u16)
        requires { self.old.len + 5 ≤ length self.old.buffer.now }
        ensures put { Put self.old.len (decimal n) self.old.buffer.now self.new.buffer.now self.new.len }
        ensures same { self.new.buffer.ghost_name ≡ self.old.buffer.ghost_name }
        ensures few { self.new.len ≤ self.old.len + 5 }
        ensures small { n < 1000 → self.new.len ≤ self.old.len + 3 }
    {
        let end = self.len + digit_count(n);
        let mut m = n;
        for k in (self.len..end).rev() {
            self.buffer[k] = b'0' + (m % 10) as u8;
            m /= 10;
        }
        self.len = end;
    }
}

// The refusal's sentence in the lent buffer: its length.
#[tactic(auto, unfolding(crate::specs::Sentence::telling, crate::specs::Sentence::buffer_after))]
pub fn sentence(r: Refusal, buffer: &mut [u8]) -> Result<u16, Refusal>
    ensures { (result ≡ telling r buffer.old) × (buffer.new ≡ buffer_after r buffer.old) }
{
    if buffer.len() < 96 {
        return Err(Refusal::of(16));
    }
    let mut out = Writer { buffer, len: 0 };
    out.put(b"Refusal ");
    out.put_decimal(u16::from(r.number));
    out.put(b" at byte ");
    out.put_decimal(r.start);
    out.put(b", length ");
    out.put_decimal(r.length);
    out.put(b", detail ");
    out.put_decimal(r.detail);
    out.put(b": ");
    out.put(words(r.number));
    out.put(b".");
    Ok(out.len as u16)
}
