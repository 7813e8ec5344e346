// A sign file: its configuration and its table of fonts, read once.
#![tactic(auto)]

ghost use Rattle.std.specs.Prelude.{◌≡◌, ℕ, ◌≤◌, ◌<◌, length, false, slice_index_or};
ghost use Rattle.sign.specs.Sign.{bitmap_len, sign_file};
ghost use Rattle.sign.specs.Given.{given};
ghost use Rattle.sign.specs.Reading.{font_in, font_at, char_in, char_at, Ran, RunIn, given_from, PastOption, given_after};

use records::{Config, Record};

// A font of the file: its values, the offset of its first character's record, and how many it has.
#[derive(Clone, Copy, Default)]
pub struct FontEntry {
    pub number: u8,
    pub height: u8,
    pub char_spacing: u8,
    pub line_spacing: u8,
    pub version_id: u16,
    pub first: usize,
    pub characters: usize,
}

// A sign file that is accepted: the first count fonts are its fonts. An array with its count, since there is no heap, and an ArrayVec is not Copy:
// who copies a SignFile today could not any more.
#[derive(Clone, Copy)]
pub struct SignFile {
    pub config: Config,
    pub fonts: [FontEntry; 24],
    pub count: usize,
}

// A sign file that is refused, by the record at an offset.
#[derive(Clone, Copy)]
pub struct RefusedAt {
    pub at: usize,
}

// A character's number, and where its record ends.
#[derive(Clone, Copy)]
struct CharRecord {
    code: u16,
    end: usize,
}

// n characters in a row, and the offset past them.
#[derive(Clone, Copy)]
pub struct CharRun {
    pub n: usize,
    pub at: usize,
}

// The bytes of a bitmap.
#[tactic(auto, unfolding(crate::specs::Sign::bitmap_len))]
fn bitmap_len(width: u8, height: u8) -> usize
    ensures { (result ≡ bitmap_len width height) × (result < 65536) }
{
    (usize::from(width) * usize::from(height)).div_ceil(8)
}

// A font with no characters yet, if its record's kind and body keep their rules.
#[tactic(auto, unfolding(crate::specs::Reading::font_in, crate::specs::Reading::font_shape, records::specs::Config::not_zero, records::specs::Record::little_at))]
fn font_in(kind: u16, body: &[u8], end: usize) -> Option<FontEntry>
    ensures { result ≡ font_in kind body.now end }
{
    let [number, height, char_spacing, line_spacing, a, b] = body else {
        return None;
    };
    let entry = FontEntry {
        number: *number,
        height: *height,
        char_spacing: *char_spacing,
        line_spacing: *line_spacing,
        version_id: u16::from_le_bytes([*a, *b]),
        first: end,
        characters: 0,
    };
    (kind == 2 && *number != 0 && *height != 0).then_some(entry)
}

// The font whose record is at an offset. A function of file and offset, as `record_at`: the loops below move the offset, and a `Records` for each step
// would be made anew.
#[tactic(auto, unfolding(crate::specs::Reading::font_at))]
fn font_at(file: &[u8], at: usize) -> Option<FontEntry>
    ensures { result ≡ font_at file.now at }
{
    let Record { kind, start, end } = reader::record_at(file, at)?;
    font_in(kind, &file[start..end], end)
}

// A character, if its record's kind and body keep their rules.
#[tactic(auto, unfolding(crate::specs::Reading::char_in, crate::specs::Reading::char_shape, records::specs::Config::not_zero, records::specs::Record::little_at))]
fn char_in(height: u8, kind: u16, body: &[u8], end: usize) -> Option<CharRecord>
    ensures { result ≡ char_in height kind body.now end }
{
    let [a, b, width, bitmap @ ..] = body else {
        return None;
    };
    if kind != 3 || bitmap.len() != bitmap_len(*width, height) {
        return None;
    }
    let code = u16::from_le_bytes([*a, *b]);
    (code != 0).then_some(CharRecord { code, end })
}

// The character whose record is at an offset.
#[tactic(auto, unfolding(crate::specs::Reading::char_at))]
fn char_at(file: &[u8], at: usize, height: u8) -> Option<CharRecord>
    ensures { result ≡ char_at file.now at height }
{
    let Record { kind, start, end } = reader::record_at(file, at)?;
    char_in(height, kind, &file[start..end], end)
}

// The records of a file from an offset on, which is inside it: a `SignReader` may stand anywhere.
#[derive(Clone, Copy)]
struct Records<'a> {
    file: &'a [u8],
    at: usize,
    ghost within: { at ≤ length file.now },
}

impl Records<'_> {
    // The characters of a font, in a row: the table tells which numbers were used. None: a number is past the table.
    fn read_run(self, height: u8, table: &mut [bool]) -> Option<CharRun>
        requires { (n : ℕ) → slice_index_or table.old n false ≡ false }
        ensures { RunIn self.entry.file.now self.entry.at height (length table.old) result }
    {
        let mut n: usize = 0;
        let mut at = self.at;
        // No iterator: count and table tell the character that ends the row, the 257th or one used before, and it ends before its record.
        while let Some(CharRecord { code, end }) = char_at(self.file, at, height) {
            if n == 256 {
                break;
            }
            let k = usize::from(code);
            if table.len() <= k {
                return None;
            }
            if table[k] {
                break;
            }
            table[k] = true;
            n += 1;
            at = end;
        }
        Some(CharRun { n, at })
    }

    // The same for any numbers, first with a small table: to clear the whole one takes longer than most files do.
    fn run_of(self, height: u8) -> CharRun
        ensures { Ran self.entry.file.now self.entry.at height result.n result.at }
    {
        let mut small = [false; 1024];
        if let Some(run) = self.read_run(height, &mut small) {
            return run;
        }
        let mut table = [false; 65536];
        self.read_run(height, &mut table).unwrap()
    }

    // The fonts, each with its characters.
    fn read_fonts(self, config: Config) -> Result<SignFile, RefusedAt>
        ensures { result ≡ given_from self.entry.file.now self.entry.at config }
    {
        let file = self.file;
        let mut used = [false; 256];
        let mut fonts = [FontEntry::default(); 24];
        let mut count: usize = 0;
        let mut at = self.at;
        // A step is a font's records, and a refusal says where they begin: no iterator over the file tells both.
        while at < file.len() {
            let font = font_at(file, at).ok_or(RefusedAt { at })?;
            let k = usize::from(font.number);
            if count == 24 || used[k] {
                return Err(RefusedAt { at });
            }
            used[k] = true;
            let characters = Records {
                file,
                at: font.first,
            };
            let run = characters.run_of(font.height);
            fonts[count] = FontEntry {
                characters: run.n,
                ..font
            };
            count += 1;
            at = run.at;
        }
        Ok(SignFile {
            config,
            fonts,
            count,
        })
    }

    // Those past the first, if it is the option of that kind.
    fn past_option(self, option: u16) -> Self
        ensures file { result.file.now ≡ self.entry.file.now }
        ensures past { PastOption self.entry.file.now self.entry.at option result.at }
    {
        let Records { file, at } = self;
        let Some(Record { kind, start, end }) = reader::record_at(file, at) else {
            return self;
        };
        if kind == option && start == end {
            return Records { file, at: end };
        }
        self
    }

    // The options, in their order, and the fonts after them.
    #[tactic(auto, using(crate::proofs::Options::options_on))]
    fn read_options(self, c: Config) -> Result<SignFile, RefusedAt>
        ensures { result ≡ given_after self.entry.file.now self.entry.at c }
    {
        let past_capitals = self.past_option(4);
        let past_times = past_capitals.past_option(5);
        let fonts = past_times.past_option(6);
        fonts.read_fonts(Config {
            capitals: self.at < past_capitals.at,
            long_times: past_capitals.at < past_times.at,
            groups: past_times.at < fonts.at,
            ..c
        })
    }
}

// The whole file.
pub fn read_sign(file: &[u8]) -> Result<SignFile, RefusedAt>
    ensures { result ≡ given (sign_file file.now) }
{
    let first = RefusedAt { at: 0 };
    if 65535 < file.len() {
        return Err(first);
    }
    let Record { kind, start, end } = reader::record_at(file, 0).ok_or(first)?;
    let config = records::config_of(kind, &file[start..end]).ok_or(first)?;
    Records { file, at: end }.read_options(config)
}
