// The tag parser: `parse_tag` of multi.rs, and the tags that hold a text.
// A cast of a number that was read with a bound, of a length or of a place of the message loses nothing, which is proved; `try_from` would
// add a refusal that no call gives.
#![tactic(auto)]

ghost use Rattle.std.specs.Prelude.{◌≡◌, ◌≤◌, length, drop};
ghost use Rattle.parse.specs.Parse.{place_of, text_of, specific_of, movement_of, moving_text_mode, moving_text_linear, moving_text, end_name, first_name, name_by, name_of, name_len, pair, by_name, tag_value};
ghost use Rattle.part.specs.Part.{past};

use value::{Movement, MovingTextDirection, MovingTextMode, Place, SyntaxError, Value};

// The names of tags; F and G are followed by a number. Laws on tags name it.
#[derive(Clone, Copy)]
pub enum Name {
    Cb,
    Cf,
    Cr,
    F,
    Fl,
    FlEnd,
    Fo,
    G,
    Hc,
    Jl,
    Jp,
    Ms,
    MsEnd,
    Mv,
    Nl,
    Np,
    Pb,
    Pt,
    Sc,
    ScEnd,
    Tr,
}

// The bytes of a tag from some place on. They end at its ], a place of the message.
#[derive(Clone, Copy)]
struct Rest<'a> {
    bytes: &'a [u8],
    end: u16,
    ghost inside: { length bytes.now ≤ end },
}

impl<'a> Rest<'a> {
    // From its byte n on.
    fn tail(self, n: usize) -> Rest<'a>
        ensures bytes { result.bytes.now ≡ drop n self.entry.bytes.now }
        ensures end { result.end ≡ self.entry.end }
    {
        Rest {
            bytes: part::tail(self.bytes, n),
            end: self.end,
        }
    }

    // After its first comma.
    #[tactic(auto, using(part::proofs::Laws::past_le))]
    fn past_comma(self) -> Rest<'a>
        ensures bytes { result.bytes.now ≡ past 44 self.entry.bytes.now }
        ensures end { result.end ≡ self.entry.end }
    {
        Rest {
            bytes: part::rest_part(self.bytes, b','),
            end: self.end,
        }
    }

    // All of it, as a place in the message.
    fn place(self) -> Place
        ensures { result ≡ place_of self.entry.end self.entry.bytes.now }
    {
        let len = self.bytes.len() as u16;
        Place {
            start: self.end - len,
            len,
        }
    }
}

// The text after the first comma.
#[tactic(auto, unfolding(crate::specs::Parse::text_of))]
fn text_of(p: Rest) -> Option<Place>
    ensures { result ≡ text_of p.entry.end p.entry.bytes.now }
{
    if part::has(p.bytes, b',') {
        Some(p.past_comma().place())
    } else {
        None
    }
}

// The number of a manufacturer specific tag or of its end, and its text.
fn specific(p: Rest) -> Option<(u32, Option<Place>)>
    ensures { result ≡ specific_of p.entry.end p.entry.bytes.now }
{
    let m = part::number_before(p.bytes, b',', u32::MAX)?;
    Some((m, text_of(p)))
}

// Of a moving text, after its direction's letter: three numbers, and the text with its commas.
#[tactic(auto, unfolding(crate::specs::Parse::movement_of, crate::specs::Parse::movement_parts, crate::specs::Parse::movement))]
fn movement_of(p: Rest) -> Option<Movement>
    ensures { result ≡ movement_of p.entry.end p.entry.bytes.now }
{
    let q = p.past_comma();
    let r = q.past_comma();
    if !part::has(r.bytes, b',') {
        return None;
    }
    let width = part::number_before(p.bytes, b',', 65535)?;
    let pixels = part::number_before(q.bytes, b',', 255)?;
    let deciseconds = part::number_before(r.bytes, b',', 255)?;
    Some(Movement {
        width: width as u16,
        pixels: pixels as u8,
        deciseconds: deciseconds as u8,
        text: r.past_comma().place(),
    })
}

#[tactic(auto, unfolding(crate::specs::Parse::moving_text_mode))]
fn parse_moving_text_mode(mode: MovingTextMode, p: Rest) -> Option<Value>
    ensures { result ≡ moving_text_mode p.entry.end mode p.entry.bytes.now }
{
    let direction = match part::letter_at(p.bytes, 0) {
        b'l' => MovingTextDirection::Left,
        b'r' => MovingTextDirection::Right,
        _ => return None,
    };
    movement_of(p.tail(1)).map(|movement| Value::MovingText(mode, direction, movement))
}

// After [mvl: a digit, the delay, may come first.
#[tactic(auto, unfolding(crate::specs::Parse::moving_text_linear))]
fn parse_moving_text_linear(p: Rest) -> Option<Value>
    ensures { result ≡ moving_text_linear p.entry.end p.entry.bytes.now }
{
    match p.bytes {
        [d @ b'0'..=b'9', ..] => parse_moving_text_mode(
            MovingTextMode::Linear(*d - b'0'),
            p.tail(1),
        ),
        _ => parse_moving_text_mode(MovingTextMode::Linear(0), p),
    }
}

#[tactic(auto, unfolding(crate::specs::Parse::moving_text))]
fn parse_moving_text(p: Rest) -> Option<Value>
    ensures { result ≡ moving_text p.entry.end p.entry.bytes.now }
{
    match part::letter_at(p.bytes, 0) {
        b'c' => parse_moving_text_mode(MovingTextMode::Circular, p.tail(1)),
        b'l' => parse_moving_text_linear(p.tail(1)),
        _ => None,
    }
}

// A name after a /, by its two letters.
#[tactic(auto, unfolding(crate::specs::Parse::end_name))]
fn end_name(b: u8, c: u8) -> Option<Name>
    ensures { result ≡ end_name (pair b c) }
{
    match [b, c] {
        [b's', b'c'] => Some(Name::ScEnd),
        [b'f', b'l'] => Some(Name::FlEnd),
        [b'm', b's'] => Some(Name::MsEnd),
        _ => None,
    }
}

// A name that is no name of two letters. Don't treat "fe" as a field.
#[tactic(auto, unfolding(crate::specs::Parse::first_name))]
fn first_name(a: u8, b: u8, c: u8) -> Option<Name>
    ensures { result ≡ first_name a b c }
{
    match a {
        b'f' if b == b'e' => None,
        b'f' => Some(Name::F),
        b'g' => Some(Name::G),
        b'/' => end_name(b, c),
        _ => None,
    }
}

// The first three bytes of a tag, in lower case.
#[tactic(auto, unfolding(crate::specs::Parse::name_by))]
fn name_by(a: u8, b: u8, c: u8) -> Option<Name>
    ensures { result ≡ name_by a b c }
{
    let name = match [a, b] {
        [b'n', b'l'] => Name::Nl,
        [b'n', b'p'] => Name::Np,
        [b'f', b'o'] => Name::Fo,
        [b'j', b'l'] => Name::Jl,
        [b'j', b'p'] => Name::Jp,
        [b'p', b't'] => Name::Pt,
        [b'p', b'b'] => Name::Pb,
        [b'c', b'f'] => Name::Cf,
        [b'c', b'r'] => Name::Cr,
        [b't', b'r'] => Name::Tr,
        [b'c', b'b'] => Name::Cb,
        [b's', b'c'] => Name::Sc,
        [b'h', b'c'] => Name::Hc,
        [b'f', b'l'] => Name::Fl,
        [b'm', b'v'] => Name::Mv,
        [b'm', b's'] => Name::Ms,
        _ => return first_name(a, b, c),
    };
    Some(name)
}

#[tactic(auto, unfolding(crate::specs::Parse::name_of))]
fn name_of(tag: &[u8]) -> Option<Name>
    ensures { result ≡ name_of tag.now }
{
    name_by(
        part::letter_at(tag, 0),
        part::letter_at(tag, 1),
        part::letter_at(tag, 2),
    )
}

fn name_len(name: Name) -> usize
    ensures { result ≡ name_len name }
{
    match name {
        Name::F | Name::G => 1,
        Name::FlEnd | Name::MsEnd | Name::ScEnd => 3,
        _ => 2,
    }
}

// The value of a name with the bytes after it; long times may hold. Inlined, here and up to reading's `item_of`: a value that goes through memory takes
// longer than most tags take to read (docs/PERFORMANCE.md).
#[tactic(auto, unfolding(crate::specs::Parse::manufacturer_specific, crate::specs::Parse::manufacturer_specific_end))]
#[inline(always)]
fn by_name(name: Name, p: Rest, long: bool) -> Option<Value>
    ensures { result ≡ by_name long name p.entry.end p.entry.bytes.now }
{
    match name {
        Name::Cb => tag::parse_color_background(p.bytes),
        Name::Cf => tag::parse_color_foreground(p.bytes),
        Name::Cr => tag::parse_color_rectangle(p.bytes),
        Name::F => tag::parse_field(p.bytes),
        Name::Fl => tag::parse_flash_time(p.bytes),
        Name::FlEnd => tag::parse_flash_end(p.bytes),
        Name::Fo => tag::parse_font(p.bytes),
        Name::G => tag::parse_graphic(p.bytes),
        Name::Hc => tag::parse_hexadecimal_character(p.bytes),
        Name::Jl => tag::parse_justification_line(p.bytes),
        Name::Jp => tag::parse_justification_page(p.bytes),
        Name::Ms => specific(p).map(|(m, text)| Value::ManufacturerSpecific(m, text)),
        Name::MsEnd => specific(p).map(|(m, text)| Value::ManufacturerSpecificEnd(m, text)),
        Name::Mv => parse_moving_text(p),
        Name::Nl => tag::parse_new_line(p.bytes),
        Name::Np => tag::parse_new_page(p.bytes),
        Name::Pb => tag::parse_page_background(p.bytes),
        Name::Pt => tag::parse_page_time(p.bytes, long),
        Name::Sc => tag::parse_spacing_character(p.bytes),
        Name::ScEnd => tag::parse_spacing_character_end(p.bytes),
        Name::Tr => tag::parse_text_rectangle(p.bytes),
    }
}

// A tag without its brackets, whose bytes end at a place of the message; long times may hold.
#[tactic(auto, unfolding(crate::specs::Parse::tag_value))]
#[inline(always)]
pub fn parse_tag(tag: &[u8], end: usize, long: bool) -> Result<Value, SyntaxError>
    requires { (length tag.now ≤ end) × (end ≤ 65535) }
    ensures { result ≡ tag_value long end tag.now }
{
    let name = name_of(tag).ok_or(SyntaxError::UnsupportedTag)?;
    let rest = Rest {
        bytes: tag,
        end: end as u16,
    };
    by_name(name, rest.tail(name_len(name)), long).ok_or(SyntaxError::UnsupportedTagValue)
}
