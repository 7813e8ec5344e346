// Reading a pass: what each value of a message does to the render state, as `render_text_rectangle` has it.
#![tactic(auto)]

ghost use Rattle.std.specs.Prelude.{◌≡◌, ◌&&◌, leb, ok_or};
ghost use Rattle.layout.specs.Read.{entry_of, extent as extent_of, fits as fits_of, rect_of, rect_fits, refusal_at, justified, font_step, span_step, hex_step, new_line_step, spacing_step, rect_step, value_step};

use layout::{Entry, Rect, RenderState, Step, refusal_at};
use records::Config;
use refusal::Refusal;
use value::{Place, Rectangle, Value};

// [fo]: without a number the sign's font, and no version id.
fn font_step(c: Config, st: RenderState, f: Option<(u8, Option<u16>)>) -> RenderState
    ensures { result ≡ font_step c st f }
{
    let (font, version) = f.unwrap_or((c.font, None));
    st.with_font(font, version)
}

// A size of 0 reaches to the edge.
fn extent(size: u16, from: u16, all: u16) -> u16
    ensures { result ≡ extent_of size from all }
{
    if size == 0 {
        all.saturating_sub(from)
    } else {
        size
    }
}

// The rectangle of a [tr], its zero sizes extended.
fn rect_of(c: Config, r: Rectangle) -> Rect
    ensures { result ≡ rect_of c r }
{
    let left = r.x.saturating_sub(1);
    let top = r.y.saturating_sub(1);
    Rect {
        left,
        top,
        width: extent(r.width, left, c.width),
        height: extent(r.height, top, c.height),
    }
}

// In one direction: inside the sign, and on its character grid.
fn fits(from: u16, size: u16, all: u16, u: u8) -> bool
    ensures { result ≡ fits_of from size all u }
{
    let k = layout::unit(u);
    0 < size
        && u32::from(from) + u32::from(size) <= u32::from(all)
        && from % k == 0
        && size % k == 0
}

fn rect_fits(c: Config, r: Rect) -> bool
    ensures { result ≡ rect_fits c r }
{
    fits(r.left, r.width, c.width, c.char_width) && fits(r.top, r.height, c.height, c.char_height)
}

// Where an item is read: the sign, the state, whether the line is still blank, and the item's place. What reads an item needs all four.
// `blank` is a flag alone: no value is there for only one of its cases.
#[derive(Clone, Copy)]
struct Here {
    c: Config,
    st: RenderState,
    blank: bool,
    p: Place,
}

impl Here {
    // A text or [hc]: 8 at the 256th span since its number restarted.
    fn span(self, e: Entry) -> Result<Step, Refusal>
        ensures { result ≡ span_step self.p self.st e }
    {
        let span = self.st.span.checked_add(1).ok_or(refusal_at(self.p, 8))?;
        Ok(Step::Emit(e, self.st.with_span(span), false))
    }

    fn text(self, t: Place) -> Result<Step, Refusal>
        ensures { result ≡ span_step self.p self.st (entry_of 0 t.start t.len 0 self.st) }
    {
        self.span(Entry {
            kind: 0,
            start: t.start,
            len: t.len,
            code: 0,
            state: self.st,
        })
    }

    // [hc]: no surrogate.
    fn hex(self, code: u16) -> Result<Step, Refusal>
        ensures { result ≡ hex_step self.p self.st code }
    {
        if (0xd800..=0xdfff).contains(&code) {
            return Err(refusal_at(self.p, 6));
        }
        self.span(Entry {
            kind: 1,
            start: self.p.start,
            len: self.p.len,
            code,
            state: self.st,
        })
    }

    // The group has 255 spans, where they count.
    fn crowded(self) -> bool
        ensures { result ≡ (self.c.groups && leb 255 self.st.span) }
    {
        self.c.groups && self.st.span == u8::MAX
    }

    // [nl]: 8 at the 256th line end since its number restarted. A line that is still blank has an empty span: 8 at the 256th of a group.
    fn new_line(self, spacing: Option<u16>) -> Result<Step, Refusal>
        ensures { result ≡ new_line_step self.c self.st self.blank self.p spacing }
    {
        if 0 < self.c.char_height && 0 < spacing.unwrap_or(0) {
            return Err(refusal_at(self.p, 6));
        }
        if self.st.line == u8::MAX {
            return Err(refusal_at(self.p, 8));
        }
        let next = self.st.with_line(spacing);
        if !self.blank {
            return Ok(Step::Go(next, true));
        }
        if self.crowded() {
            return Err(refusal_at(self.p, 8));
        }
        let e = Entry {
            kind: 2,
            start: self.p.start,
            len: 0,
            code: 0,
            state: self.st,
        };
        Ok(Step::Emit(e, next, true))
    }

    // [sc]
    fn spacing(self, n: u8) -> Result<Step, Refusal>
        ensures { result ≡ spacing_step self.c self.st self.blank self.p n }
    {
        if 0 < self.c.char_width && 0 < n {
            return Err(refusal_at(self.p, 6));
        }
        Ok(Step::Go(self.st.with_char_spacing(Some(u16::from(n))), self.blank))
    }

    // [tr]
    fn rect(self, r: Rectangle) -> Result<Step, Refusal>
        ensures { result ≡ rect_step self.c self.st self.p r }
    {
        let rect = rect_of(self.c, r);
        if rect_fits(self.c, rect) {
            Ok(Step::Cut(self.st.with_rect(rect)))
        } else {
            Err(refusal_at(self.p, 6))
        }
    }

    // The justification of a [jl] or [jp], or the sign's where it has none: 2 to 4 are taken, so that the cast loses nothing.
    fn just(self, j: Option<u16>, d: u8) -> Result<u8, Refusal>
        ensures { result ≡ ok_or (justified j d) (refusal_at self.p 6) }
    {
        match j {
            Some(n) if (2..=4).contains(&n) => Ok(n as u8),
            Some(_) => Err(refusal_at(self.p, 6)),
            None => Ok(d),
        }
    }

    fn step(self, v: Value) -> Result<Step, Refusal>
        ensures { result ≡ value_step self.c self.st self.blank self.p v }
    {
        match v {
            Value::Font(f) => Ok(Step::Go(font_step(self.c, self.st, f), self.blank)),
            Value::HexadecimalCharacter(code) => self.hex(code),
            Value::JustificationLine(j) => {
                let n = self.just(j, self.c.line_just)?;
                Ok(Step::Go(self.st.with_just_line(n), self.blank))
            }
            Value::JustificationPage(j) => {
                let n = self.just(j, self.c.page_just)?;
                Ok(Step::Go(self.st.with_just_page(n), self.blank))
            }
            Value::NewLine(spacing) => self.new_line(spacing),
            Value::NewPage => Ok(Step::Turn),
            Value::SpacingCharacter(n) => self.spacing(n),
            Value::SpacingCharacterEnd => Ok(Step::Go(self.st.with_char_spacing(None), self.blank)),
            Value::Text(t) => self.text(t),
            Value::TextRectangle(r) => self.rect(r),
            _ => Ok(Step::Go(self.st, self.blank)),
        }
    }
}

// What the value of an item at a place does in a state. [pt], which the scan took, and the tags that no sign file supports do nothing.
pub fn step(c: Config, st: RenderState, blank: bool, p: Place, v: Value) -> Result<Step, Refusal>
    ensures { result ≡ value_step c st blank p v }
{
    Here { c, st, blank, p }.step(v)
}
