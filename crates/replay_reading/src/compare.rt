// Comparing a case with its answer, line by line.
use arrayvec::ArrayVec;
use numbers::Numbers;
use reading::Reading;
use replay::{Kind, Line, Phase};

// The bytes of a case.
pub type Bytes = ArrayVec<u8, 262144>;

// The kinds of cases that are compared.
pub const KINDS: [Kind; 4] = [Kind::D, Kind::X, Kind::Q, Kind::V];

// What a case is.
#[derive(Clone, Copy)]
enum Case {
    // A number of at most so many.
    D(u32),
    X,
    Q,
    // Slices, of which the next one starts at a place.
    V(usize),
}

// The case whose answer is read: the number of its line, and whether the answer agrees so far.
#[derive(Clone, Copy)]
pub struct Check {
    pub kind: Kind,
    pub line: u32,
    pub agrees: bool,
    case: Case,
}

// The largest number of so many bits.
fn largest(bits: u32) -> Option<u32> {
    match bits {
        8 => Some(255),
        16 => Some(65535),
        32 => Some(u32::MAX),
        _ => None,
    }
}

// Whether a D, X or Q answer is a number, or refuses.
fn is_answer(line: &[u8], n: Option<u32>) -> bool {
    match n {
        Some(x) => replay::is_line(line, &[1, u64::from(x)]),
        None => replay::begins(line, &[0]),
    }
}

// Why a message is refused as a whole: 2 too long, 3 ill-formed. By its number, as the line has it.
fn refused(msg: &[u8]) -> Option<u64> {
    if 2048 < msg.len() {
        Some(2)
    } else if utf8::well_formed(msg) {
        None
    } else {
        Some(3)
    }
}

// Whether the first line of a V answer is right: no slice is left out where it counts none.
fn is_count(line: &[u8], msg: &[u8]) -> bool {
    let refused = refused(msg);
    if replay::words(line) == 1 {
        return if replay::begins(line, &[0]) {
            msg.is_empty()
        } else {
            refused.is_none()
        };
    }
    refused.is_some_and(|n| replay::begins(line, &[4, n]))
}

// Whether a slice line says what the reading call reads from a place on, in a slice of that length. By `as`: a usize has no From.
fn is_slice(line: &[u8], msg: &[u8], at: usize, len: usize) -> bool {
    let start = at as u64;
    let len = len as u64;
    match reading::read(msg, at, false) {
        Reading::Slice(_, v) => {
            let said = Numbers::from(v);
            let mut all = [0; 11];
            all[..3].copy_from_slice(&[start, len, u64::from(said.code)]);
            for (to, n) in all[3..].iter_mut().zip(&said.n) {
                *to = u64::from(*n);
            }
            replay::begins(line, &all)
        }
        Reading::End => false,
        Reading::Refused(f) => replay::begins(line, &[start, len, 0, u64::from(f.number)]),
    }
}

impl Check {
    // The check at a case line, with its bytes. None where its words are not of the format.
    pub fn open(line: &Line, kind: Kind, msg: &mut Bytes) -> Option<Check> {
        let (case, n) = match kind {
            Kind::D => (Case::D(largest(replay::number_at(line.text, 1)?)?), 2),
            Kind::X => (Case::X, 1),
            Kind::Q => (Case::Q, 1),
            _ => (Case::V(0), 1),
        };
        replay::bytes(replay::word(line.text, n), msg)?;
        Some(Check {
            kind,
            line: line.number,
            agrees: true,
            case,
        })
    }

    // After a line of a V answer, where the next slice starts at a place.
    fn slices(&mut self, line: &Line, at: usize, msg: &[u8]) {
        let Phase::Rows(_, n) = line.was.phase else {
            self.agrees = is_count(line.text, msg);
            return;
        };
        let end = token::slice_end(msg, at);
        let last = n != 1 || end == msg.len();
        self.agrees = self.agrees && last && at < end && is_slice(line.text, msg, at, end - at);
        self.case = Case::V(end);
    }

    // After a line of its answer.
    pub fn answer(&mut self, line: &Line, msg: &[u8]) {
        match self.case {
            Case::D(max) => self.agrees = is_answer(line.text, number::parse(msg, max)),
            Case::X => self.agrees = is_answer(line.text, number::from_hex(msg)),
            Case::Q => self.agrees = is_answer(line.text, number::version_id(msg)),
            Case::V(at) => self.slices(line, at, msg),
        }
    }
}
