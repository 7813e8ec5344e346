// What the code of a listing and its definitions share.
#![tactic(auto)]

ghost use Rattle.std.specs.Prelude.{◌≡◌, ◌<◌};
ghost use Rattle.layout.specs.Read.{refusal_at, with_span, with_just_line, with_just_page, with_line, with_char_spacing, with_font, with_rect, unit as unit_of, whole as whole_of, new_page, start as start_of};

use records::Config;
use refusal::Refusal;
use value::Place;

// A text rectangle; left and top from 0: [tr]'s x - 1 and y - 1.
#[derive(Clone, Copy)]
pub struct Rect {
    pub left: u16,
    pub top: u16,
    pub width: u16,
    pub height: u16,
}

// What is in force where a span is read. A justification is a number, as tags and sign files have it and the definitions order and test it.
#[derive(Clone, Copy)]
pub struct RenderState {
    pub rect: Rect,
    pub just_page: u8,
    pub just_line: u8,
    pub font: u8,
    pub version: Option<u16>,
    pub line_spacing: Option<u16>,
    pub char_spacing: Option<u16>,
    pub line: u8,
    pub span: u8,
}

// A span before it is placed: its record's kind, start, length and code, and the state it was read in. The kind is the record's number, which C
// reads: an enum would be turned into it again.
#[derive(Clone, Copy)]
pub struct Entry {
    pub kind: u16,
    pub start: u16,
    pub len: u16,
    pub code: u16,
    pub state: RenderState,
}

// Number and detail of refusal 10, 11 or 12, as the refusal has them: what the fonts say against a span. An enum would be turned into the number again.
#[derive(Clone, Copy)]
pub struct Fault {
    pub number: u8,
    pub detail: u16,
}

// What the scan of a page makes of an item that does not fail: it goes by, ends the page, or sets its times.
#[derive(Clone, Copy)]
pub enum Mark {
    Plain,
    Ends,
    Timed(Option<u16>, Option<u16>),
}

// A page's times, and its first failing slice. No Result: the event that closes the page before takes the times, also where the fault follows (`follow` in
// specs/Read.antt).
#[derive(Clone, Copy)]
pub struct Scan {
    pub on: u16,
    pub off: u16,
    pub fault: Option<Refusal>,
}

// What an item of a pass that is not refused does: the next state and whether the line is still blank; a span with them;
// [tr], which ends the pass; [np].
#[derive(Clone, Copy)]
pub enum Step {
    Go(RenderState, bool),
    Emit(Entry, RenderState, bool),
    Cut(RenderState),
    Turn,
}

// A placed span. kind: 0 text, 1 hexadecimal character, 2 empty line. start and length in message bytes; code of kind 1, else 0; x and y
// from 0; the rectangle's x and y from 1 as in [tr], its zero sizes extended. C reads it, so that kinds are numbers.
#[repr(C)]
#[derive(Clone, Copy, Default)]
pub struct Span {
    pub kind: u16,
    pub start: u16,
    pub length: u16,
    pub code: u16,
    pub x: u16,
    pub y: u16,
    pub width: u16,
    pub height: u16,
    pub font: u16,
    pub line: u16,
    pub span: u16,
    pub rect_x: u16,
    pub rect_y: u16,
    pub rect_width: u16,
    pub rect_height: u16,
}

// On or off with its duration in tenths of a second, on also with its count of records; the end with the count of answers; or a refusal.
// No Result: the document and C have a refusal as one of four answers, and the definitions count it among them.
#[derive(Clone, Copy)]
pub enum Answer {
    On(u16, u16),
    Off(u16),
    End(u16),
    Refused(Refusal),
}

// A refusal of an item: it carries the item's place.
pub fn refusal_at(p: Place, number: u8) -> Refusal
    ensures { result ≡ refusal_at p number }
{
    Refusal {
        number,
        start: p.start,
        length: p.len,
        detail: 0,
    }
}

// A size of 0 stands for 1.
pub fn unit(n: u8) -> u16
    ensures { (result ≡ unit_of n) × (0 < result) }
{
    u16::from(n).max(1)
}

// The whole sign.
fn whole(c: Config) -> Rect
    ensures { result ≡ whole_of c }
{
    Rect {
        left: 0,
        top: 0,
        width: c.width,
        height: c.height,
    }
}

impl RenderState {
    // The span number that comes next.
    pub fn with_span(self, span: u8) -> RenderState
        ensures { result ≡ with_span self span }
    {
        RenderState { span, ..self }
    }

    // [jl] restarts the span number.
    pub fn with_just_line(self, just: u8) -> RenderState
        ensures { result ≡ with_just_line self just }
    {
        RenderState {
            just_line: just,
            ..self.with_span(0)
        }
    }

    // [jp] restarts line and span numbers if it changes the justification.
    pub fn with_just_page(self, just: u8) -> RenderState
        ensures { result ≡ with_just_page self just }
    {
        if just == self.just_page {
            return self;
        }
        RenderState {
            just_page: just,
            line: 0,
            span: 0,
            ..self
        }
    }

    // [nl]: the next line.
    pub fn with_line(self, spacing: Option<u16>) -> RenderState
        requires { self.line < 255 }
        ensures { result ≡ with_line self spacing }
    {
        RenderState {
            line_spacing: spacing,
            line: self.line + 1,
            span: 0,
            ..self
        }
    }

    // [sc] and [/sc].
    pub fn with_char_spacing(self, spacing: Option<u16>) -> RenderState
        ensures { result ≡ with_char_spacing self spacing }
    {
        RenderState {
            char_spacing: spacing,
            ..self
        }
    }

    // [fo].
    pub fn with_font(self, font: u8, version: Option<u16>) -> RenderState
        ensures { result ≡ with_font self font version }
    {
        RenderState {
            font,
            version,
            ..self
        }
    }

    // [tr] restarts line and span numbers.
    pub fn with_rect(self, rect: Rect) -> RenderState
        ensures { result ≡ with_rect self rect }
    {
        RenderState {
            rect,
            line: 0,
            span: 0,
            ..self
        }
    }

    // [np]: line spacing and rectangle restart, the rest carries on.
    pub fn new_page(self, c: Config) -> RenderState
        ensures { result ≡ new_page c self }
    {
        RenderState {
            rect: whole(c),
            line_spacing: None,
            line: 0,
            span: 0,
            ..self
        }
    }

    // The state at the start of a message.
    pub fn start(c: Config) -> RenderState
        ensures { result ≡ start_of c }
    {
        RenderState {
            rect: whole(c),
            just_page: c.page_just,
            just_line: c.line_just,
            font: c.font,
            version: None,
            line_spacing: None,
            char_spacing: None,
            line: 0,
            span: 0,
        }
    }
}
