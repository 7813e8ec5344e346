// The tag parsers: the parse_ functions of multi.rs, one for each tag by its name there, so that some differ in a constant or a value alone;
// one function for these would be their line with both as parameters. Each takes the tag's bytes after its name; none is a bad parameter.
// A cast of a number that was read with a bound loses nothing, which is proved; `try_from` would add a refusal that no call gives.
#![tactic(auto)]

ghost use Rattle.std.specs.Prelude.{◌≡◌};
ghost use Rattle.param.specs.Param.{rectangle_of};
ghost use Rattle.part.specs.Part.{up_to, past};
ghost use Rattle.tag.specs.Tag.{new_line, new_page, font, justification_line, justification_page, most_time, times_of, page_time, optional_color as optional_color_of, page_background, color_foreground, color_background, color_rectangle, text_rectangle, spacing_character, hexadecimal_character, flash_time, field, graphic_at, graphic, spacing_character_end, flash_end};

use value::{Color, FlashOrder, Rectangle, Value};

#[tactic(auto, unfolding(crate::specs::Tag::new_line))]
pub fn parse_new_line(p: &[u8]) -> Option<Value>
    ensures { result ≡ new_line p.now }
{
    match p {
        [] => Some(Value::NewLine(None)),
        [_] => number::parse(p, 255).map(|n| Value::NewLine(Some(n as u16))),
        _ => None,
    }
}

#[tactic(auto, unfolding(crate::specs::Tag::new_page))]
pub fn parse_new_page(p: &[u8]) -> Option<Value>
    ensures { result ≡ new_page p.now }
{
    p.is_empty().then_some(Value::NewPage)
}

#[tactic(auto, unfolding(crate::specs::Tag::font))]
pub fn parse_font(p: &[u8]) -> Option<Value>
    ensures { result ≡ font p.now }
{
    if p.is_empty() {
        return Some(Value::Font(None));
    }
    let n = part::number_before(p, b',', 255).filter(|n| *n != 0)?;
    param::parse_version_id(p).map(|id| Value::Font(Some((n as u8, id))))
}

#[tactic(auto, unfolding(crate::specs::Tag::justification_line))]
pub fn parse_justification_line(p: &[u8]) -> Option<Value>
    ensures { result ≡ justification_line p.now }
{
    param::parse_justification(p, 5).map(Value::JustificationLine)
}

#[tactic(auto, unfolding(crate::specs::Tag::justification_page))]
pub fn parse_justification_page(p: &[u8]) -> Option<Value>
    ensures { result ≡ justification_page p.now }
{
    param::parse_justification(p, 4).map(Value::JustificationPage)
}

// The longest page time: long times may hold.
fn most_time(long: bool) -> u16
    ensures { result ≡ most_time long }
{
    if long { u16::MAX } else { 255 }
}

// The times before and after a letter; either may be missing.
fn times(p: &[u8], sep: u8, most: u16) -> Option<(Option<u16>, Option<u16>)>
    ensures { result ≡ times_of sep most p.now }
{
    let first = param::parse_optional(part::first_part(p, sep), most)?;
    let second = param::parse_optional(part::rest_part(p, sep), most)?;
    Some((first, second))
}

#[tactic(auto, unfolding(crate::specs::Tag::page_time))]
pub fn parse_page_time(p: &[u8], long: bool) -> Option<Value>
    ensures { result ≡ page_time long p.now }
{
    let (on, off) = times(p, b'o', most_time(long))?;
    Some(Value::PageTime(on, off))
}

// A colour, or nothing.
fn optional_color(p: &[u8]) -> Option<Option<Color>>
    ensures { result ≡ optional_color_of p.now }
{
    param::optional(!p.is_empty(), || param::parse_color(p))
}

#[tactic(auto, unfolding(crate::specs::Tag::page_background))]
pub fn parse_page_background(p: &[u8]) -> Option<Value>
    ensures { result ≡ page_background p.now }
{
    optional_color(p).map(Value::PageBackground)
}

#[tactic(auto, unfolding(crate::specs::Tag::color_foreground))]
pub fn parse_color_foreground(p: &[u8]) -> Option<Value>
    ensures { result ≡ color_foreground p.now }
{
    optional_color(p).map(Value::ColorForeground)
}

#[tactic(auto, unfolding(crate::specs::Tag::color_background))]
pub fn parse_color_background(p: &[u8]) -> Option<Value>
    ensures { result ≡ color_background p.now }
{
    let c = param::optional(
        !p.is_empty(),
        || number::parse(p, 255).map(|n| Color::Legacy(n as u8)),
    );
    c.map(Value::ColorBackground)
}

// The rectangle of the first three parts and a height: p, q and r begin with one of them each.
fn rectangle(p: &[u8], q: &[u8], r: &[u8], height: &[u8]) -> Option<Rectangle>
    ensures { result ≡ rectangle_of (up_to 44 p.now) (up_to 44 q.now) (up_to 44 r.now) height.now }
{
    param::parse_rectangle(
        part::first_part(p, b','),
        part::first_part(q, b','),
        part::first_part(r, b','),
        height,
    )
}

#[tactic(auto, unfolding(crate::specs::Tag::color_rectangle, crate::specs::Tag::four_of, crate::specs::Tag::fifth))]
pub fn parse_color_rectangle(p: &[u8]) -> Option<Value>
    ensures { result ≡ color_rectangle p.now }
{
    let q = part::rest_part(p, b',');
    let r = part::rest_part(q, b',');
    let s = part::rest_part(r, b',');
    let rect = rectangle(p, q, r, part::first_part(s, b','))?;
    let c = param::parse_color(part::rest_part(s, b','))?;
    Some(Value::ColorRectangle(rect, c))
}

// The last of the four parts keeps its commas.
#[tactic(auto, unfolding(crate::specs::Tag::text_rectangle, crate::specs::Tag::last_four))]
pub fn parse_text_rectangle(p: &[u8]) -> Option<Value>
    ensures { result ≡ text_rectangle p.now }
{
    let q = part::rest_part(p, b',');
    let r = part::rest_part(q, b',');
    rectangle(p, q, r, part::rest_part(r, b',')).map(Value::TextRectangle)
}

#[tactic(auto, unfolding(crate::specs::Tag::spacing_character))]
pub fn parse_spacing_character(p: &[u8]) -> Option<Value>
    ensures { result ≡ spacing_character p.now }
{
    number::parse(p, 99).map(|n| Value::SpacingCharacter(n as u8))
}

#[tactic(auto, unfolding(crate::specs::Tag::hexadecimal_character))]
pub fn parse_hexadecimal_character(p: &[u8]) -> Option<Value>
    ensures { result ≡ hexadecimal_character p.now }
{
    number::from_hex(p).map(|n| Value::HexadecimalCharacter(n as u16))
}

#[tactic(auto, unfolding(crate::specs::Tag::flash_time, crate::specs::Tag::flash_on, crate::specs::Tag::flash_off))]
pub fn parse_flash_time(p: &[u8]) -> Option<Value>
    ensures { result ≡ flash_time p.now }
{
    if p.is_empty() {
        return Some(Value::Flash(FlashOrder::OnOff, None, None));
    }
    let (order, sep) = match part::letter_at(p, 0) {
        b't' => (FlashOrder::OnOff, b'o'),
        b'o' => (FlashOrder::OffOn, b't'),
        _ => return None,
    };
    let (first, second) = times(part::tail(p, 1), sep, 99)?;
    Some(Value::Flash(order, first, second))
}

#[tactic(auto, unfolding(crate::specs::Tag::field))]
pub fn parse_field(p: &[u8]) -> Option<Value>
    ensures { result ≡ field p.now }
{
    let n = part::number_before(p, b',', 13)?;
    let w = param::parse_optional(part::rest_part(p, b','), 255)?;
    Some(Value::Field(n as u8, w))
}

// A graphic with its place: p is what comes after its number.
#[tactic(auto, unfolding(crate::specs::Tag::graphic_at, crate::specs::Tag::point_of))]
fn parse_point(n: u8, p: &[u8]) -> Option<Value>
    ensures { result ≡ graphic_at n p.now }
{
    let q = part::rest_part(p, b',');
    let (x, y) = param::parse_xy(part::first_part(p, b','), part::first_part(q, b','))?;
    let id = param::parse_version_id(q)?;
    Some(Value::Graphic(n, Some((x, y, id))))
}

#[tactic(auto, unfolding(crate::specs::Tag::graphic))]
pub fn parse_graphic(p: &[u8]) -> Option<Value>
    ensures { result ≡ graphic p.now }
{
    let g = part::number_before(p, b',', 255).filter(|g| *g != 0)?;
    let n = g as u8;
    if part::has(p, b',') {
        parse_point(n, part::rest_part(p, b','))
    } else {
        Some(Value::Graphic(n, None))
    }
}

#[tactic(auto, unfolding(crate::specs::Tag::spacing_character_end))]
pub fn parse_spacing_character_end(p: &[u8]) -> Option<Value>
    ensures { result ≡ spacing_character_end p.now }
{
    p.is_empty().then_some(Value::SpacingCharacterEnd)
}

#[tactic(auto, unfolding(crate::specs::Tag::flash_end))]
pub fn parse_flash_end(p: &[u8]) -> Option<Value>
    ensures { result ≡ flash_end p.now }
{
    p.is_empty().then_some(Value::FlashEnd)
}
