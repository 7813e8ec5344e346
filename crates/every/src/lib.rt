// Every answer of a message, from one walk over its pages: the answers in one lent slice, their records in another.
#![tactic(auto)]

ghost use Rattle.std.specs.Prelude.{◌≡◌, ◌≤◌, ◌<◌, length};
ghost use Rattle.every.specs.Walk.{Countable, ShownAs, Opened, WalkAsked, Walks, AllRoom, Gathers, listed_by, Settles};

use layout::Span;
use meter::Call;
use pages::{PageShown, Pages};
use refusal::Refusal;
use rows::{ROOM, Row, SHORT_ROOM};
use sign::SignFile;

// An answer of a listing, as C has it, so that its kind is a number: 1 on, 2 off. Its duration in tenths of a second; the number of its first
// record, and how many it has.
#[repr(C)]
#[derive(Clone, Copy, Default)]
pub struct Shown {
    pub kind: u16,
    pub duration: u16,
    pub first: u16,
    pub count: u16,
}

// The counts of answers and of records.
#[derive(Clone, Copy)]
pub struct Listed {
    pub answers: u16,
    pub records: u16,
}

// What a walk has shown: how many answers and records, and the refusal that ended it, if any.
#[derive(Clone, Copy)]
pub struct Walked {
    pub answers: usize,
    pub records: usize,
    pub refused: Option<Refusal>,
}

// No message has more answers.
pub const ANSWERS: usize = 1026;

// An answer of a page, after n records. The casts are proved to lose nothing; try_from would add an error that no call gives.
fn shown_by(x: PageShown, n: usize) -> Shown
    requires { Countable x n }
    ensures { ShownAs x n result }
{
    let first = n as u16;
    match x {
        PageShown::On {
            duration,
            count,
            ..
        } => Shown {
            kind: 1,
            duration,
            first,
            count: count as u16,
        },
        PageShown::Off(duration) => Shown {
            kind: 2,
            duration,
            first,
            count: 0,
        },
    }
}

// Answer after answer, up to the end or the first refusal: each has the records behind those before.
// The pages tell the end and not the slice, so that no iterator of the slice counts the answers. Nor `?` with `while let`: the counts so far
// are told with a refusal too.
fn walk(call: &Call, rows: &mut [Row], shown: &mut [Shown], out: &mut [Span]) -> Walked
    requires { WalkAsked call.now rows.old shown.old out.old }
    ensures { Walks call.now shown.new out.new result }
{
    let mut pages = Pages::new(call.table.config);
    let mut answers: usize = 0;
    let mut records: usize = 0;
    loop {
        match pages.next(call, rows, &mut out[records..]) {
            Ok(Some(x)) => {
                let s = shown_by(x, records);
                shown[answers] = s;
                answers += 1;
                records += usize::from(s.count);
            }
            Ok(None) => {
                return Walked {
                    answers,
                    records,
                    refused: None,
                };
            }
            Err(r) => {
                return Walked {
                    answers,
                    records,
                    refused: Some(r),
                };
            }
        }
    }
}

// The same, with rows for as many spans as the message can have: one for each of its bytes. fits: the bytes of the array have to fit usize.
// In a frame of its own, so that the stack does not hold them beside the tables with which a sign file is checked.
#[inline(never)]
fn paged<const N: usize>(call: &Call, shown: &mut [Shown], out: &mut [Span]) -> Walked
    requires rowed { length call.now.msg.now ≤ N }
    requires fits { N < 65536 }
    requires room { AllRoom call.now.msg.now shown.old out.old }
    ensures { Walks call.now shown.new out.new result }
{
    let mut rows = [Row::default(); N];
    walk(call, &mut rows, shown, out)
}

// The fonts of the sign file, or the refusals before any answer: those of every call, and 4, where too few answers or records are lent.
fn opened(file: &[u8], msg: &[u8], answers: usize, records: usize) -> Result<SignFile, Refusal>
    ensures { Opened file.now msg.now answers records result }
{
    let table = match admit::admit(file, msg) {
        Ok(table) => table,
        Err(denied) => return Err(denied.refusal),
    };
    if answers < ANSWERS || records < ROOM {
        return Err(Refusal::of(4));
    }
    Ok(table)
}

// All answers before the first refusal, if there is one, for slices of so many answers and records: they stand first in the slices. For a
// short message fewer rows are cleared. File, message and the two rooms are what C's call tells, and the slices are arrays of its caller: no
// struct has them together elsewhere. That these are long enough (AllRoom) is asked of each, since they are lent and change.
pub fn gather(
    file: &[u8],
    msg: &[u8],
    answers: usize,
    records: usize,
    shown: &mut [Shown],
    out: &mut [Span],
) -> Walked
    requires { AllRoom msg.now shown.old out.old }
    ensures { Gathers file.now msg.now answers records shown.new out.new result }
{
    match opened(file, msg, answers, records) {
        Err(r) => Walked {
            answers: 0,
            records: 0,
            refused: Some(r),
        },
        Ok(table) => {
            let call = Call { file, table, msg };
            if msg.len() <= SHORT_ROOM {
                return paged::<SHORT_ROOM>(&call, shown, out);
            }
            paged::<ROOM>(&call, shown, out)
        }
    }
}

impl Walked {
    // The counts of what was walked, or the refusal that ended it. The casts are proved; try_from would add an error that no call gives.
    fn counts(self) -> Result<Listed, Refusal>
        requires { (self.answers < 65536) × (self.records < 65536) }
        ensures { result ≡ listed_by self }
    {
        match self.refused {
            Some(r) => Err(r),
            None => Ok(Listed {
                answers: self.answers as u16,
                records: self.records as u16,
            }),
        }
    }
}

// The call's answer, with the answers and records that it counts in the slices. Its parameters are those of `gather`.
pub fn counted(
    file: &[u8],
    msg: &[u8],
    answers: usize,
    records: usize,
    shown: &mut [Shown],
    out: &mut [Span],
) -> Result<Listed, Refusal>
    requires { AllRoom msg.now shown.old out.old }
    ensures { Settles file.now msg.now answers records shown.new out.new result }
{
    gather(file, msg, answers, records, shown, out).counts()
}
