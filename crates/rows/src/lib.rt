// Measured entries and placed spans: the rows of a pass and the records of an answer, each in a lent slice.
#![tactic(auto)]

ghost use Rattle.std.specs.Prelude.{◌≡◌, ◌+◌, ◌<◌, length};
ghost use Rattle.layout.specs.Placing.{half_up};
ghost use Rattle.rows.specs.Measured.{row_by};
ghost use Rattle.rows.specs.Rows.{link_at, mark_at, LinkPut, MarkPut};

use layout::{Entry, Fault, Span};

// An entry of a pass with its measures. kind to code: as in its record; kind is a number on its way to C, and an enum would be turned into it
// again. just_page to span: of the state it was read in; justifications are its numbers, as refusal 9 orders them. spacing: its [sc] value where
// fixed, else its font's: one there is in any case. lead: the line spacing of the [nl] before it. height, font_spacing: its font's height and line
// spacing. fault: refusal 10, 11 or 12.
// No Entry and Gauge inside: they would bring the rectangle and the version, which no row needs, into an array that each call clears.
#[derive(Clone, Copy, Default)]
pub struct Row {
    pub kind: u16,
    pub start: u16,
    pub len: u16,
    pub code: u16,
    pub just_page: u16,
    pub just_line: u16,
    pub font: u16,
    pub line: u8,
    pub span: u8,
    pub fixed: bool,
    pub spacing: u16,
    pub lead: Option<u16>,
    pub height: u16,
    pub font_spacing: u16,
    pub fault: Option<Fault>,
    pub width: u32,
}

// A span's spacing, its font's height and line spacing, its width, and refusal 10, 11 or 12.
#[derive(Clone, Copy)]
pub struct Gauge {
    pub spacing: u16,
    pub height: u16,
    pub font_spacing: u16,
    pub width: u32,
    pub fault: Option<Fault>,
}

// The row of a span with its gauge.
pub fn row_by(e: Entry, g: Gauge) -> Row
    ensures { result ≡ row_by e g }
{
    let st = e.state;
    Row {
        kind: e.kind,
        start: e.start,
        len: e.len,
        code: e.code,
        just_page: u16::from(st.just_page),
        just_line: u16::from(st.just_line),
        font: u16::from(st.font),
        line: st.line,
        span: st.span,
        fixed: st.char_spacing.is_some(),
        spacing: g.spacing,
        lead: st.line_spacing,
        height: g.height,
        font_spacing: g.font_spacing,
        fault: g.fault,
        width: g.width,
    }
}

// As many rows, and as many records, as a message can have: one for each byte.
pub const ROOM: usize = 2048;

// The same of a short message: of 256 bytes at most, so that less is cleared for it.
pub const SHORT_ROOM: usize = 256;

// Until a record is written its fields are free. Its kind holds the link of its row: how many rows there are from the next one of its line on.
pub fn link_at(out: &[Span], i: usize) -> u16
    requires { i < length out.now }
    ensures { result ≡ link_at out.now i }
{
    let record = &out[i];
    record.kind
}

pub fn put_link(out: &mut [Span], i: usize, link: u16)
    requires { i < length out.old }
    ensures { LinkPut out.old i link out.new }
{
    out[i].kind = link;
}

// Its x holds the mark of its row: its place across, with 1 added; 0 until it is known (the field of a record has no room for an Option).
pub fn mark_at(out: &[Span], i: usize) -> u16
    requires { i < length out.now }
    ensures { result ≡ mark_at out.now i }
{
    let record = &out[i];
    record.x
}

pub fn put_mark(out: &mut [Span], i: usize, mark: u16)
    requires { i < length out.old }
    ensures { MarkPut out.old i mark out.new }
{
    out[i].x = mark;
}

// Half of two spacings, rounded up.
pub fn half_up(a: u16, b: u16) -> u32
    ensures average { result ≡ half_up (a + b) }
    ensures small { result < 65536 }
{
    (u32::from(a) + u32::from(b) + 1) / 2
}
