// What the fonts of a sign file say of a span: taken once for each, and kept with it in its row.
#![tactic(auto)]

ghost use Rattle.std.specs.Prelude.{◌≡◌, ◌∷◌, [], false, None};
ghost use Rattle.font.specs.Character.{letters};
ghost use Rattle.layout.specs.Fonts.{chars_of, missing};
ghost use Rattle.meter.specs.Gauges.{WidthsAt, WidthsOf, part_codes, EntryIn, CodeFits, WidthFound, version_fault, gauge_for, GaugedIn, GaugedBy, RowTaken};

mod call;

pub use call::Call;
use font::{FileFont, FontWidths, Looked, Missing};
use layout::{Entry, Fault};
use rows::{Gauge, Row};
use sign::SignFile;

// The width of a text of the message. That an entry lies in it is asked here and below: an entry knows no message, so that it can't hold this.
fn part_width(call: &Call, font: &FontWidths<256>, e: Entry, spacing: u16) -> Looked
    requires { EntryIn call.now e × (e.kind ≡ 0) }
    ensures { WidthFound (letters font.now.font) spacing (part_codes call.now.msg.now e) result }
{
    let start = usize::from(e.start);
    let end = start + usize::from(e.len);
    font.text_width(&call.msg[start..end], spacing)
}

// The width of what a span prints.
#[tactic(auto, unfolding(font::specs::Measure::text_width, font::specs::Measure::width_after, font::specs::Measure::looked_up))]
fn span_width(call: &Call, font: &FontWidths<256>, e: Entry, spacing: u16) -> Looked
    requires { EntryIn call.now e }
    ensures { WidthFound (letters font.now.font) spacing (chars_of call.now.msg.now e) result }
{
    match e.kind {
        0 => part_width(call, font, e, spacing),
        1 => font.with_character(0, 0, u32::from(e.code), spacing),
        _ => Looked {
            measure: Ok(0),
            count: 0,
        },
    }
}

// 11 where the version ids differ.
fn version_fault(version: Option<u16>, id: u16) -> Option<Fault>
    ensures { result ≡ version_fault version id }
{
    match version {
        Some(v) if v != id => Some(Fault {
            number: 11,
            detail: 0,
        }),
        _ => None,
    }
}

// 12 with its code where a character is missing. The cast is proved; try_from would add an error that no call gives.
fn missing_fault(measure: Result<u32, Missing>) -> Option<Fault>
    requires { CodeFits measure }
    ensures { result ≡ missing measure }
{
    match measure {
        Ok(_) => None,
        Err(missing) => Some(Fault {
            number: 12,
            detail: missing.code as u16,
        }),
    }
}

// What the fonts say of a span in a font, and how many characters its measure looked up.
#[tactic(auto, using(crate::proofs::Laws::fault_parts), unfolding(layout::specs::Fonts::measure_in, font::specs::Character::letters_at))]
fn gauge_in(call: &Call, font: &FontWidths<256>, e: Entry) -> (Gauge, usize)
    requires { EntryIn call.now e }
    ensures { GaugedIn call.now e font.now result }
{
    let st = e.state;
    let f = font.font.entry;
    let spacing = st.char_spacing.unwrap_or(u16::from(f.char_spacing));
    let looked = span_width(call, font, e, spacing);
    let gauge = Gauge {
        spacing,
        height: u16::from(f.height),
        font_spacing: u16::from(f.line_spacing),
        width: looked.measure.unwrap_or(0),
        fault: version_fault(st.version, f.version_id).or(missing_fault(looked.measure)),
    };
    (gauge, looked.count)
}

// A span whose font is not defined.
fn no_font(e: Entry) -> Gauge
    ensures { result ≡ gauge_for [] e false None }
{
    let st = e.state;
    Gauge {
        spacing: st.char_spacing.unwrap_or(0),
        height: 0,
        font_spacing: 0,
        width: 0,
        fault: Some(Fault {
            number: 10,
            detail: u16::from(st.font),
        }),
    }
}

// The font with a number and its widths, if the sign file has it.
pub fn widths_of<'a>(file: &'a [u8], table: &SignFile, number: u8) -> Option<FontWidths<'a, 256>>
    ensures { WidthsAt file.now table.now number result }
{
    let entry = font::font_numbered(table, number)?;
    Some(FontWidths::new(FileFont {
        file,
        entry,
        capitals: table.config.capitals,
    }))
}

// What the fonts say of any span, and how many characters were looked up: font is its font. That it is, is asked here and below (WidthsOf): a
// font's widths know neither the call nor the span, and the font is kept from span to span.
fn gauge_of(call: &Call, font: &Option<FontWidths<256>>, e: Entry) -> (Gauge, usize)
    requires entry_in { EntryIn call.now e }
    requires widths_of { WidthsOf call.now e.state.font font.now }
    ensures { GaugedBy call.now e result }
{
    match font {
        Some(font) => gauge_in(call, font, e),
        None => (no_font(e), 0),
    }
}

// A span's row, and how many characters its measure looked up: it is measured once. font is its font.
pub fn row_of(call: &Call, font: &Option<FontWidths<256>>, e: Entry) -> (Row, usize)
    requires entry_in { EntryIn call.now e }
    requires widths_of { WidthsOf call.now e.state.font font.now }
    ensures { RowTaken call.now e result }
{
    let (gauge, looked) = gauge_of(call, font, e);
    (rows::row_by(e, gauge), looked)
}
