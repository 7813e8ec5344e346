// The reading call: the slice at an offset of a message, with its value.
// A cast of a length or a place of the message loses nothing, which is proved; `try_from` would add an error that no call gives.
#![tactic(auto)]

ghost use Rattle.std.specs.Prelude.{◌≡◌, ◌+◌, ◌≤◌, ◌<◌, length};
ghost use Rattle.reading.specs.Reading.{place as place_of, tag_item, text_item, item_of, refused, slice_reading, reading_at, reading};

use refusal::Refusal;
use token::Shape;
use value::{Place, SyntaxError, Value};

// The slice at the offset and its value, the end of the message, or a refusal.
// No Result: the document and C have a refusal as one of three answers, and the definitions count it among them.
#[derive(Clone, Copy)]
pub enum Reading {
    Slice(Place, Value),
    End,
    Refused(Refusal),
}

// A slice of a message, by its bytes and the place where it starts. Inlined are the functions that a value goes through, as in parse.
#[derive(Clone, Copy)]
struct Slice<'a> {
    bytes: &'a [u8],
    at: u16,
    ghost within: { at + length bytes.now ≤ 65535 },
}

impl Slice<'_> {
    fn place(self) -> Place
        ensures { result ≡ place_of self.entry.at (length self.entry.bytes.now) }
    {
        Place {
            start: self.at,
            len: self.bytes.len() as u16,
        }
    }

    // From [ to ].
    #[tactic(auto, unfolding(crate::specs::Reading::tag_item))]
    #[inline(always)]
    fn tag_item(self, long: bool) -> Result<Value, SyntaxError>
        ensures { result ≡ tag_item long self.entry.at self.entry.bytes.now }
    {
        match self.bytes {
            [_, tag @ .., _] => {
                parse::parse_tag(tag, usize::from(self.at) + self.bytes.len() - 1, long)
            }
            _ => Err(SyntaxError::UnsupportedTag),
        }
    }

    #[tactic(auto, unfolding(crate::specs::Reading::text_item))]
    #[inline(always)]
    fn text_item(self) -> Result<Value, SyntaxError>
        ensures { result ≡ text_item self.entry.at self.entry.bytes.now }
    {
        if utf8::latin1(self.bytes) {
            Ok(Value::Text(self.place()))
        } else {
            Err(SyntaxError::Other)
        }
    }

    // `Value::try_from`; long times may hold.
    #[tactic(auto, unfolding(crate::specs::Reading::item_of))]
    #[inline(always)]
    fn item(self, long: bool) -> Result<Value, SyntaxError>
        ensures { result ≡ item_of long self.entry.at self.entry.bytes.now }
    {
        match token::shape_of(self.bytes) {
            Shape::Bracket => Ok(Value::Text(Place {
                start: self.at,
                len: 1,
            })),
            Shape::Tag => self.tag_item(long),
            Shape::Stray => Err(SyntaxError::UnsupportedTag),
            Shape::Text => self.text_item(),
        }
    }

    // What the reading call answers of it.
    #[tactic(auto, unfolding(crate::specs::Reading::slice_reading))]
    fn reading(self, long: bool) -> Reading
        ensures { result ≡ slice_reading long self.entry.at self.entry.bytes.now }
    {
        let place = self.place();
        match self.item(long) {
            Ok(v) => Reading::Slice(place, v),
            Err(e) => Reading::Refused(Refusal {
                number: e.number(),
                start: place.start,
                length: place.len,
                detail: 0,
            }),
        }
    }
}

// The value of the slice s, which starts at a place of the message; long times may hold.
#[inline(always)]
pub fn item_of(at: usize, s: &[u8], long: bool) -> Result<Value, SyntaxError>
    requires { at + length s.now ≤ 65535 }
    ensures { result ≡ item_of long at s.now }
{
    let slice = Slice {
        bytes: s,
        at: at as u16,
    };
    slice.item(long)
}

// A refusal of the whole message or of the offset.
fn refuse(number: u8) -> Reading
    ensures { result ≡ refused number 0 0 }
{
    Reading::Refused(Refusal::of(number))
}

// The slice at the offset of a message that was looked at.
#[tactic(auto, using(token::proofs::Laws::next_le, token::proofs::Laws::next_from), unfolding(crate::specs::Reading::reading_at))]
fn reading_at(msg: &[u8], offset: usize, long: bool) -> Reading
    requires { (offset < length msg.now) × (length msg.now ≤ 2048) }
    ensures { result ≡ reading_at long msg.now offset }
{
    let end = token::slice_end(msg, offset);
    let slice = Slice {
        bytes: &msg[offset..end],
        at: offset as u16,
    };
    slice.reading(long)
}

// Reading: message, offset, and whether long times hold.
#[tactic(auto, unfolding(crate::specs::Reading::reading))]
pub fn read(msg: &[u8], offset: usize, long: bool) -> Reading
    ensures { result ≡ reading long msg.now offset }
{
    if 2048 < msg.len() {
        return refuse(2);
    }
    if !utf8::well_formed(msg) {
        return refuse(3);
    }
    if msg.len() < offset || utf8::inside_character(msg, offset) {
        return refuse(4);
    }
    if offset == msg.len() {
        return Reading::End;
    }
    reading_at(msg, offset, long)
}
