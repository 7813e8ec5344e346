// A value as numbers: the place of its case in `enum Value`, from 1, and eight numbers. Vectors and C have values so.
// `as` takes the place of an enum's case, from 0; a `From` for it would be a table by hand.
#![tactic(auto)]

ghost use Rattle.std.specs.Prelude.{◌≡◌, ◌≤◌, [], ◌∷◌};
ghost use Rattle.numbers.specs.Numbers.{make as make_of, numbers_of, padded, flag_of, or_zero, mode_of, delay_of, direction_of, kind_of, first_of, green_of, blue_of, color_of, font_of, graphic_of, specific_of};

use value::{Color, Movement, MovingTextDirection, MovingTextMode, Place, Rectangle, Value};

#[derive(Clone, Copy)]
pub struct Numbers {
    pub code: u32,
    pub n: [u32; 8],
}

// The first of the eight, and zeros.
fn make<const N: usize>(code: u32, first: [u32; N]) -> Numbers
    requires { N ≤ 8 }
    ensures { result ≡ padded code first.entry }
{
    let mut n = [0; 8];
    n[..N].copy_from_slice(&first);
    Numbers { code, n }
}

fn flag(v: Option<u16>) -> u32
    ensures { result ≡ flag_of v }
{
    u32::from(v.is_some())
}

fn or_zero(v: Option<u16>) -> u32
    ensures { result ≡ or_zero v }
{
    u32::from(v.unwrap_or(0))
}

fn mode(v: MovingTextMode) -> [u32; 2]
    ensures { result ≡ mode_of v ∷ delay_of v ∷ [] }
{
    match v {
        MovingTextMode::Circular => [0, 0],
        MovingTextMode::Linear(d) => [1, u32::from(d)],
    }
}

fn rgb(v: Color) -> [u32; 4]
    ensures { result ≡ kind_of v ∷ first_of v ∷ green_of v ∷ blue_of v ∷ [] }
{
    match v {
        Color::Legacy(n) => [0, u32::from(n), 0, 0],
        Color::Rgb(r, g, b) => [1, u32::from(r), u32::from(g), u32::from(b)],
    }
}

fn color(code: u32, v: Option<Color>) -> Numbers
    ensures { result ≡ color_of code v }
{
    match v {
        Some(c) => {
            let [k, r, g, b] = rgb(c);
            make(code, [1, k, r, g, b])
        }
        None => make(code, []),
    }
}

fn font(v: Option<(u8, Option<u16>)>) -> Numbers
    ensures { result ≡ font_of v }
{
    match v {
        Some((n, id)) => make(7, [1, u32::from(n), flag(id), or_zero(id)]),
        None => make(7, []),
    }
}

fn graphic(n: u8, v: Option<(u16, u16, Option<u16>)>) -> Numbers
    ensures { result ≡ graphic_of n v }
{
    let n = u32::from(n);
    match v {
        Some((x, y, id)) => make(8, [n, 1, u32::from(x), u32::from(y), flag(id), or_zero(id)]),
        None => make(8, [n]),
    }
}

fn specific(code: u32, m: u32, v: Option<Place>) -> Numbers
    ensures { result ≡ specific_of code m v }
{
    match v {
        Some(p) => make(code, [m, 1, u32::from(p.start), u32::from(p.len)]),
        None => make(code, [m]),
    }
}

fn color_rectangle(v: Rectangle, c: Color) -> Numbers
    ensures { result ≡ make_of 3 v.x v.y v.width v.height (kind_of c) (first_of c) (green_of c) (blue_of c) }
{
    let [k, r, g, b] = rgb(c);
    make(
        3,
        [
            u32::from(v.x),
            u32::from(v.y),
            u32::from(v.width),
            u32::from(v.height),
            k,
            r,
            g,
            b,
        ],
    )
}

fn moving(m: MovingTextMode, d: MovingTextDirection, t: Movement) -> Numbers
    ensures { result ≡ make_of 14 (mode_of m) (delay_of m) (direction_of d) t.width t.pixels t.deciseconds t.text.start t.text.len }
{
    let [k, delay] = mode(m);
    let text = t.text;
    make(
        14,
        [
            k,
            delay,
            d as u32,
            u32::from(t.width),
            u32::from(t.pixels),
            u32::from(t.deciseconds),
            u32::from(text.start),
            u32::from(text.len),
        ],
    )
}

// The numbers of a value. Inlined, as the way that makes a value is (parse, reading): through memory a call of short slices takes twice the time.
impl From<Value> for Numbers {
    ghost from_gives = { λ v m. m ≡ numbers_of v };

    #[inline(always)]
    fn from(v: Value) -> Numbers {
        match v {
            Value::ColorBackground(c) => color(1, c),
            Value::ColorForeground(c) => color(2, c),
            Value::ColorRectangle(r, c) => color_rectangle(r, c),
            Value::Field(n, w) => make(4, [u32::from(n), flag(w), or_zero(w)]),
            Value::Flash(o, a, b) => make(5, [o as u32, flag(a), or_zero(a), flag(b), or_zero(b)]),
            Value::FlashEnd => make(6, []),
            Value::Font(f) => font(f),
            Value::Graphic(n, p) => graphic(n, p),
            Value::HexadecimalCharacter(c) => make(9, [u32::from(c)]),
            Value::JustificationLine(j) => make(10, [flag(j), or_zero(j)]),
            Value::JustificationPage(j) => make(11, [flag(j), or_zero(j)]),
            Value::ManufacturerSpecific(m, p) => specific(12, m, p),
            Value::ManufacturerSpecificEnd(m, p) => specific(13, m, p),
            Value::MovingText(m, d, t) => moving(m, d, t),
            Value::NewLine(s) => make(15, [flag(s), or_zero(s)]),
            Value::NewPage => make(16, []),
            Value::PageBackground(c) => color(17, c),
            Value::PageTime(a, b) => make(18, [flag(a), or_zero(a), flag(b), or_zero(b)]),
            Value::SpacingCharacter(s) => make(19, [u32::from(s)]),
            Value::SpacingCharacterEnd => make(20, []),
            Value::Text(p) => make(21, [u32::from(p.start), u32::from(p.len)]),
            Value::TextRectangle(r) => make(
                22,
                [
                    u32::from(r.x),
                    u32::from(r.y),
                    u32::from(r.width),
                    u32::from(r.height),
                ],
            ),
        }
    }
}
