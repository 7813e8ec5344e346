// The values of MULTI, tags and text, as `enum Value` of the Rust has them.
#![tactic(auto)]

ghost use Rattle.std.specs.Prelude.{◌≡◌};
ghost use Rattle.value.specs.Syntax.{number_of};
ghost use Rattle.value.specs.Tag.{field_tag, tag_of, has_tag};

// A text, as a part of the message.
#[derive(Clone, Copy)]
pub struct Place {
    pub start: u16,
    pub len: u16,
}

#[derive(Clone, Copy)]
pub struct Rectangle {
    pub x: u16,
    pub y: u16,
    pub width: u16,
    pub height: u16,
}

#[derive(Clone, Copy)]
pub enum Color {
    Legacy(u8),
    Rgb(u8, u8, u8),
}

#[derive(Clone, Copy)]
pub enum FlashOrder {
    OnOff,
    OffOn,
}

#[derive(Clone, Copy)]
pub enum MovingTextMode {
    Circular,
    Linear(u8),
}

#[derive(Clone, Copy)]
pub enum MovingTextDirection {
    Left,
    Right,
}

// Of a moving text: its width, the pixels of a step, the tenths of a second between steps, and the text.
#[derive(Clone, Copy)]
pub struct Movement {
    pub width: u16,
    pub pixels: u8,
    pub deciseconds: u8,
    pub text: Place,
}

// Justifications are the numbers of NTCIP 1203: 1 other, 2 left, 3 centre, 4 right, 5 full; 2 top, 3 middle, 4 bottom. Numbers, since tags and C
// have them so and refusal 9 orders them: an enum would be made from the digit and turned into it again.
#[derive(Clone, Copy)]
pub enum Value {
    ColorBackground(Option<Color>),
    ColorForeground(Option<Color>),
    ColorRectangle(Rectangle, Color),
    Field(u8, Option<u16>),
    Flash(FlashOrder, Option<u16>, Option<u16>),
    FlashEnd,
    Font(Option<(u8, Option<u16>)>),
    Graphic(u8, Option<(u16, u16, Option<u16>)>),
    HexadecimalCharacter(u16),
    JustificationLine(Option<u16>),
    JustificationPage(Option<u16>),
    ManufacturerSpecific(u32, Option<Place>),
    ManufacturerSpecificEnd(u32, Option<Place>),
    MovingText(MovingTextMode, MovingTextDirection, Movement),
    NewLine(Option<u16>),
    NewPage,
    PageBackground(Option<Color>),
    PageTime(Option<u16>, Option<u16>),
    SpacingCharacter(u8),
    SpacingCharacterEnd,
    Text(Place),
    TextRectangle(Rectangle),
}

// The bits of `enum Tag`: CB is bit 0, which the Rust writes 1 << 0. Numbers, since they are shifted by, and a field's is reckoned.
pub const CB: u32 = 0;

pub const CF: u32 = 1;

pub const FL: u32 = 2;

pub const FO: u32 = 3;

pub const G: u32 = 4;

pub const HC: u32 = 5;

pub const JL: u32 = 6;

pub const JP: u32 = 7;

pub const MS: u32 = 8;

pub const MV: u32 = 9;

pub const NL: u32 = 10;

pub const NP: u32 = 11;

pub const PT: u32 = 12;

pub const SC: u32 = 13;

pub const F1: u32 = 14;

pub const TR: u32 = 27;

pub const CR: u32 = 28;

pub const PB: u32 = 29;

// Fields 1 to 13 have the bits F1 to F13.
#[tactic(auto, unfolding(crate::specs::Tag::field_tag))]
fn field_tag(n: u8) -> Option<u32>
    ensures { result ≡ field_tag n }
{
    match n {
        1..=13 => Some(F1 + u32::from(n) - 1),
        _ => None,
    }
}

impl Value {
    // `Value::tag`: the bit of the value's name.
    pub fn tag(self) -> Option<u32>
        ensures { result ≡ tag_of self }
    {
        match self {
            Value::ColorBackground(_) => Some(CB),
            Value::ColorForeground(_) => Some(CF),
            Value::ColorRectangle(..) => Some(CR),
            Value::Field(n, _) => field_tag(n),
            Value::Flash(..) | Value::FlashEnd => Some(FL),
            Value::Font(_) => Some(FO),
            Value::Graphic(..) => Some(G),
            Value::HexadecimalCharacter(_) => Some(HC),
            Value::JustificationLine(_) => Some(JL),
            Value::JustificationPage(_) => Some(JP),
            Value::ManufacturerSpecific(..) | Value::ManufacturerSpecificEnd(..) => Some(MS),
            Value::MovingText(..) => Some(MV),
            Value::NewLine(_) => Some(NL),
            Value::NewPage => Some(NP),
            Value::PageBackground(_) => Some(PB),
            Value::PageTime(..) => Some(PT),
            Value::SpacingCharacter(_) | Value::SpacingCharacterEnd => Some(SC),
            Value::Text(_) => None,
            Value::TextRectangle(_) => Some(TR),
        }
    }
}

// Whether a sign with these tags supports the tag, by shift and mask.
pub fn has_tag(tags: u32, tag: Option<u32>) -> bool
    ensures { result ≡ has_tag tags tag }
{
    tag.is_some_and(|k| k < 32 && (tags >> k) & 1 == 1)
}

// How a part of a message fails to read, as the Rust's type has it; `Other` is a code point past 255.
#[derive(Clone, Copy, Debug, PartialEq, Eq)]
pub enum SyntaxError {
    UnsupportedTag,
    UnsupportedTagValue,
    Other,
}

impl SyntaxError {
    // The number of a refusal for it. A method: `u8::from` would not say of which number.
    pub fn number(self) -> u8
        ensures { result ≡ number_of self }
    {
        match self {
            SyntaxError::UnsupportedTag => 5,
            SyntaxError::UnsupportedTagValue => 6,
            SyntaxError::Other => 7,
        }
    }
}
