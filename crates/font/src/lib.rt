// The fonts of a sign file, their characters, and the width of a text.
#![tactic(auto)]

ghost use Rattle.std.specs.Prelude.{◌≡◌, ◌*◌, ◌≤◌, length, map, take};
ghost use Rattle.std.specs.Iterator.{YieldsFirst, item_count};
ghost use Rattle.utf8.specs.Utf8.{codes};
ghost use Rattle.font.specs.Table.{entry_numbered};
ghost use Rattle.font.specs.Character.{character_in, letter_of, own_letters, letters, left_of};
ghost use Rattle.font.specs.Widths.{width_of, filled, Unfilled, Widths};
ghost use Rattle.font.specs.StandIn.{stand_in, StoodIn};
ghost use Rattle.font.specs.Measure.{widened, measure_of};
ghost use Rattle.font.specs.Grown.{OneMore};

use records::Record;
use sign::{FontEntry, SignFile};
use utf8::Codes;

// A character's width, and where its bitmap starts in the file.
#[derive(Clone, Copy)]
pub struct Found {
    pub width: u8,
    pub bitmap: usize,
}

// A font's characters with their numbers, in the records from an offset on: at most so many are left.
#[derive(Clone, Copy)]
struct Characters<'a> {
    file: &'a [u8],
    at: usize,
    left: usize,
}

// A font of a file; whether its capitals stand in for small letters.
#[derive(Clone, Copy)]
pub struct FileFont<'a> {
    pub file: &'a [u8],
    pub entry: FontEntry,
    pub capitals: bool,
}

// A font with the widths of its characters by their codes, none for a code that it lacks: an array, since there is no heap. It goes by
// reference, for its size.
#[derive(Clone, Copy)]
pub struct FontWidths<'a, const N: usize> {
    pub font: FileFont<'a>,
    pub widths: [Option<u8>; N],
    pub ghost filled: { Widths (letters font) widths },
}

// The code of a text's first character that the font does not define.
#[derive(Clone, Copy)]
pub struct Missing {
    pub code: u32,
}

// A text's width, if all its characters are defined, and how many it looked up.
#[derive(Clone, Copy)]
pub struct Looked {
    pub measure: Result<u32, Missing>,
    pub count: usize,
}

// The font with a number.
pub fn font_numbered(table: &SignFile, number: u8) -> Option<FontEntry>
    ensures { result ≡ entry_numbered number (take table.now.count table.now.fonts) }
{
    table
        .fonts
        .iter()
        .take(table.count)
        .find(|entry| entry.number == number)
        .copied()
}

impl Iterator for Characters<'_> {
    type Item = (u16, Found);

    ghost next_gives = { YieldsFirst left_of };

    ghost remaining = { item_count left_of };

    fn next(&mut self) -> Option<(u16, Found)> {
        if self.left == 0 {
            return None;
        }
        let Record { kind, start, end } = reader::record_at(self.file, self.at)?;
        if kind != 3 {
            return None;
        }
        let body = &self.file[start..end];
        self.at = end;
        self.left -= 1;
        let found = Found {
            width: base::byte_at(body, 2),
            bitmap: start + 3,
        };
        Some((records::le16(body, 0), found))
    }
}

// Puts a width at a code, if the table has the code and no width there yet.
#[tactic(auto, unfolding(crate::specs::Widths::filled))]
fn fill(table: &mut [Option<u8>], code: usize, width: Option<u8>)
    ensures { table.new ≡ filled table.old code width }
{
    if code < table.len() && table[code].is_none() {
        table[code] = width;
    }
}

// Puts at each small letter's code, a to z, what its capital has, if the table has the one and not the other.
fn stand_ins(table: &mut [Option<u8>])
    ensures { StoodIn table.old table.new }
{
    for code in 97..123 {
        let capital = table.get(code - 32).copied().flatten();
        fill(table, code, capital);
    }
}

impl<'a> FileFont<'a> {
    // The font's own characters.
    #[tactic(auto, unfolding(crate::specs::Character::characters_at))]
    fn characters(&self) -> Characters<'a>
        ensures { left_of result ≡ map letter_of (own_letters self.now) }
    {
        Characters {
            file: self.file,
            at: self.entry.first,
            left: self.entry.characters,
        }
    }

    // The font's own character with a code point: a font's numbers have 16 bits.
    fn own_character(&self, code: u32) -> Option<Found>
        ensures { result ≡ character_in code (own_letters self.now) }
    {
        if code == 0 {
            return Some(Found {
                width: 0,
                bitmap: 0,
            });
        }
        let (_, found) = self
            .characters()
            .find(|(number, _)| u32::from(*number) == code)?;
        Some(found)
    }

    // What stands in for a code point that the font does not define: for a to z the capital, if the file lets it.
    #[tactic(auto, unfolding(crate::specs::StandIn::stand_in, crate::specs::Character::is_small))]
    fn stand_in(&self, code: u32) -> Option<Found>
        ensures { result ≡ stand_in self.now.capitals code (own_letters self.now) }
    {
        if self.capitals && (97..=122).contains(&code) {
            self.own_character(code - 32)
        } else {
            None
        }
    }

    // The character found for a code point. The stand-in is looked for at once, but only from a to z; tried `or_else`: of a closure that holds
    // self the check says nothing, so that the proof did not close.
    #[tactic(auto, using(crate::proofs::StandIns::letters_found))]
    fn character(&self, code: u32) -> Option<Found>
        ensures { result ≡ character_in code (letters self.now) }
    {
        self.own_character(code).or(self.stand_in(code))
    }

    // Fills a table with the widths of the font's own characters.
    fn own_widths(&self, table: &mut [Option<u8>])
        requires { Unfilled table.old }
        ensures { Widths (own_letters self.now) table.new }
    {
        fill(table, 0, Some(0));
        for (number, found) in self.characters() {
            fill(table, usize::from(number), Some(found.width));
        }
    }

    // Fills a table with the widths of the font.
    pub fn widths(&self, table: &mut [Option<u8>])
        requires { Unfilled table.old }
        ensures { Widths (letters self.now) table.new }
    {
        self.own_widths(table);
        if self.capitals {
            stand_ins(table);
        }
    }
}

// A width with one character more.
#[tactic(auto, unfolding(crate::specs::Measure::widened))]
fn wider(width: u32, spacing: u16, more: u8) -> u32
    requires { width ≤ 65790 * 65000 }
    ensures { result ≡ widened width spacing more }
{
    if 0 < width {
        return width + (u32::from(spacing) + u32::from(more));
    }
    u32::from(more)
}

impl<'a, const N: usize> FontWidths<'a, N> {
    // A font with the widths of the codes below N.
    pub fn new(font: FileFont<'a>) -> Self
        ensures { result.font ≡ font.entry }
    {
        let mut widths = [None; N];
        font.widths(&mut widths);
        FontWidths { font, widths }
    }

    // A character's width; the table has those of the codes below its length. A usize has no From<u32>: the cast loses nothing.
    fn width_of(&self, code: u32) -> Option<u8>
        ensures { result ≡ width_of (character_in code (letters self.now.font)) }
    {
        match self.widths.get(code as usize) {
            Some(width) => *width,
            None => self.font.character(code).map(|found| found.width),
        }
    }

    // A width with one character more, or that character's code if the font does not define it; this looks it up once, and counts it.
    pub fn with_character(&self, width: u32, count: usize, code: u32, spacing: u16) -> Looked
        requires { (width ≤ 65790 * 65000) × (count ≤ 65000) }
        ensures { OneMore (letters self.now.font) spacing width count code result }
    {
        let measure = match self.width_of(code) {
            Some(more) => Ok(wider(width, spacing, more)),
            None => Err(Missing { code }),
        };
        Looked {
            measure,
            count: count + 1,
        }
    }

    // The width of a short text, and how many characters were looked up.
    fn short_width(&self, text: &[u8], spacing: u16) -> Looked
        requires { length text.now ≤ 65000 }
        ensures { result ≡ measure_of (letters self.now.font) spacing (codes text.now) }
    {
        let mut w: u32 = 0;
        let mut n: usize = 0;
        for code in Codes(text) {
            let r = self.with_character(w, n, code, spacing);
            let Ok(v) = r.measure else {
                return r;
            };
            w = v;
            n = r.count;
        }
        Looked {
            measure: Ok(w),
            count: n,
        }
    }

    // The width of a text, and how many characters were looked up: of its first 65,000 bytes, where it has more.
    #[tactic(auto, using(crate::proofs::Texts::first_is))]
    pub fn text_width(&self, text: &[u8], spacing: u16) -> Looked
        ensures { result ≡ measure_of (letters self.now.font) spacing (codes (take 65000 text.now)) }
    {
        self.short_width(&text[..text.len().min(65000)], spacing)
    }
}
