// A sign file's records, and the first of them: the configuration.
#![tactic(auto)]

ghost use Rattle.std.specs.Prelude.{◌≡◌, ◌≤◌, length, IfSome};
ghost use Rattle.records.specs.Record.{little_at, head_at};
ghost use Rattle.records.specs.Config.{config_of, size_ok, just_ok, tags_ok, config_ok, first_of};

// The tags that a sign may support: fo, hc, jl, jp, nl, np, pt, sc and tr, bits 3, 5, 6, 7, 10 to 13 and 27.
const MASK: u32 = 134233320;

// A record's kind, where its body starts, and where it ends: places and no slice, since a bitmap's place and the next record's are told by them.
// The kind is the file's number, and no enum: any number may stand there, and each reader tests for its own.
#[derive(Clone, Copy)]
pub struct Record {
    pub kind: u16,
    pub start: usize,
    pub end: usize,
}

// The values of kind 1, and the options, which are records of their own: capitals may stand in for small letters
// (kind 4), page times may be long (kind 5), the spans of a group are numbered one after the other (kind 6). Justifications are
// numbers, as layout's RenderState has them.
#[derive(Clone, Copy)]
pub struct Config {
    pub width: u16,
    pub height: u16,
    pub char_width: u8,
    pub char_height: u8,
    pub font: u8,
    pub line_just: u8,
    pub page_just: u8,
    pub on_time: u8,
    pub off_time: u8,
    pub tags: u32,
    pub capitals: bool,
    pub long_times: bool,
    pub groups: bool,
}

// Two bytes as a number, the lowest first; 0 for each past the end.
#[tactic(auto, unfolding(crate::specs::Record::little_at))]
pub fn le16(s: &[u8], at: usize) -> u16
    ensures { result ≡ little_at 2 at s.now }
{
    match s.get(at..) {
        Some([a, b, ..]) => u16::from_le_bytes([*a, *b]),
        Some([a]) => u16::from(*a),
        _ => 0,
    }
}

// The record at an offset, if all of it is there.
#[tactic(auto, unfolding(crate::specs::Record::head_at, crate::specs::Record::whole, crate::specs::Record::body_len, crate::specs::Record::kind_of, crate::specs::Record::little_at))]
pub fn record_at(file: &[u8], at: usize) -> Option<Record>
    ensures value { result ≡ head_at file.now at }
    ensures inside { IfSome result (λ r. (r.start ≤ r.end) × (r.end ≤ length file.now)) }
{
    let [a, b, c, d, ..] = file.get(at..)? else {
        return None;
    };
    let start = at + 4;
    let end = start + usize::from(u16::from_le_bytes([*a, *b]));
    if file.len() < end {
        return None;
    }
    Some(Record {
        kind: u16::from_le_bytes([*c, *d]),
        start,
        end,
    })
}

// A width or a height.
#[tactic(auto, unfolding(crate::specs::Config::size_ok))]
fn size_ok(size: u16) -> bool
    ensures { result ≡ size_ok size }
{
    (1..=4096).contains(&size)
}

// A justification.
#[tactic(auto, unfolding(crate::specs::Config::just_ok))]
fn just_ok(just: u8) -> bool
    ensures { result ≡ just_ok just }
{
    (2..=4).contains(&just)
}

// No bit is set that is not in the mask.
#[tactic(auto, using(crate::proofs::Laws::mask_test))]
fn tags_ok(tags: u32) -> bool
    ensures { result ≡ tags_ok tags }
{
    tags & !MASK == 0
}

// The rules of the configuration's values.
#[tactic(auto, unfolding(crate::specs::Config::config_ok, crate::specs::Config::not_zero))]
fn config_ok(c: &Config) -> bool
    ensures { result ≡ config_ok c.now }
{
    size_ok(c.width)
        && size_ok(c.height)
        && c.font != 0
        && just_ok(c.line_just)
        && just_ok(c.page_just)
        && tags_ok(c.tags)
}

// The values of the configuration's body, with no option.
#[tactic(auto, unfolding(crate::specs::Config::config_of, crate::specs::Record::little_at))]
fn config_in(body: &[u8]) -> Config
    requires { length body.now ≡ 15 }
    ensures { result ≡ config_of body.now }
{
    Config {
        width: le16(body, 0),
        height: le16(body, 2),
        char_width: body[4],
        char_height: body[5],
        font: body[6],
        line_just: body[7],
        page_just: body[8],
        on_time: body[9],
        off_time: body[10],
        tags: u32::from_le_bytes([body[11], body[12], body[13], body[14]]),
        capitals: false,
        long_times: false,
        groups: false,
    }
}

// The configuration, if the first record's kind and body keep its rules.
#[tactic(auto, unfolding(crate::specs::Config::first_of, crate::specs::Config::is_config))]
pub fn config_of(kind: u16, body: &[u8]) -> Option<Config>
    ensures { result ≡ first_of kind body.now }
{
    if kind != 1 || body.len() != 15 {
        return None;
    }
    let c = config_in(body);
    config_ok(&c).then_some(c)
}
