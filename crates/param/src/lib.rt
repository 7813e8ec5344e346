// Parameters of tags that are more than one number. Each takes parts of the tag; none is copied.
// A cast of a number that was read with a bound loses nothing, which is proved; `try_from` would add a refusal that no call gives.
#![tactic(auto)]

ghost use Rattle.std.specs.Prelude.{◌≡◌, Option, Some, None, IsTrue, IsFalse};
ghost use Rattle.std.specs.Option.{option_map};
ghost use Rattle.param.specs.Param.{read_optional, optional_version, justification, read_xy, rectangle_of, read_rgb, rgb_of, color_of};

use value::{Color, Rectangle};

// What may be missing: none where it is not there, else what `read` makes of it.
pub fn optional<T, F: FnOnce() -> Option<T>>(there: bool, read: F) -> Option<Option<T>>
    requires { IsTrue there → F.pre read }
    ensures missing { IsFalse there → result ≡ Some None }
    ensures read { IsTrue there → (r : Option T) × F.post read r × (result ≡ option_map Some r) }
{
    if there { read().map(Some) } else { Some(None) }
}

// An optional number of at most max.
#[tactic(auto, unfolding(crate::specs::Param::read_optional))]
pub fn parse_optional(p: &[u8], max: u16) -> Option<Option<u16>>
    ensures { result ≡ read_optional max p.now }
{
    optional(
        !p.is_empty(),
        || number::parse(p, u32::from(max)).map(|n| n as u16),
    )
}

// The version id after the first comma, if there is one.
#[tactic(auto, unfolding(crate::specs::Param::optional_version))]
pub fn parse_version_id(p: &[u8]) -> Option<Option<u16>>
    ensures { result ≡ optional_version p.now }
{
    optional(
        part::has(p, b','),
        || number::version_id(part::rest_part(p, b',')).map(|n| n as u16),
    )
}

// `JustificationLine::new` and `JustificationPage::new`: nothing, or one digit from 1 to top.
#[tactic(auto, unfolding(crate::specs::Param::justification))]
pub fn parse_justification(p: &[u8], top: u8) -> Option<Option<u16>>
    ensures { result ≡ justification top p.now }
{
    match p {
        [] => Some(None),
        [b] if b'1' <= *b && *b - b'0' <= top => Some(Some(u16::from(*b - b'0'))),
        _ => None,
    }
}

// x and y, neither 0.
#[tactic(auto, unfolding(crate::specs::Param::read_xy))]
pub fn parse_xy(x: &[u8], y: &[u8]) -> Option<(u16, u16)>
    ensures { result ≡ read_xy x.now y.now }
{
    let a = number::parse(x, 65535)?;
    let b = number::parse(y, 65535)?;
    (a != 0 && b != 0).then_some((a as u16, b as u16))
}

#[tactic(auto, unfolding(crate::specs::Param::rectangle_of))]
pub fn parse_rectangle(x: &[u8], y: &[u8], w: &[u8], h: &[u8]) -> Option<Rectangle>
    ensures { result ≡ rectangle_of x.now y.now w.now h.now }
{
    let (x, y) = parse_xy(x, y)?;
    let w = number::parse(w, 65535)?;
    let h = number::parse(h, 65535)?;
    Some(Rectangle {
        x,
        y,
        width: w as u16,
        height: h as u16,
    })
}

#[tactic(auto, unfolding(crate::specs::Param::read_rgb))]
fn parse_rgb(r: &[u8], g: &[u8], b: &[u8]) -> Option<Color>
    ensures { result ≡ read_rgb r.now g.now b.now }
{
    let r = number::parse(r, 255)?;
    let g = number::parse(g, 255)?;
    let b = number::parse(b, 255)?;
    Some(Color::Rgb(r as u8, g as u8, b as u8))
}

// Three numbers; the last part keeps its commas.
#[tactic(auto, unfolding(crate::specs::Param::rgb_of))]
fn rgb_of(p: &[u8]) -> Option<Color>
    ensures { result ≡ rgb_of p.now }
{
    let q = part::rest_part(p, b',');
    parse_rgb(
        part::first_part(p, b','),
        part::first_part(q, b','),
        part::rest_part(q, b','),
    )
}

// A colour: one number, or three.
#[tactic(auto, unfolding(crate::specs::Param::color_of))]
pub fn parse_color(p: &[u8]) -> Option<Color>
    ensures { result ≡ color_of p.now }
{
    if part::has(p, b',') {
        return rgb_of(p);
    }
    number::parse(p, 255).map(|n| Color::Legacy(n as u8))
}
