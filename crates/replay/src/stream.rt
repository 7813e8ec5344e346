// The lines of an answer stream, one after the other: which may come next.
ghost use Rattle.std.specs.Prelude.{◌≡◌};
ghost use Rattle.replay.specs.Text.{word_of};
ghost use Rattle.replay.specs.Kinds.{kind_of};
ghost use Rattle.replay.specs.Phases.{answered, in_listing};

use crate::{begins, is_line, is_numbers, number_at, word, words};

// A case by its letter. S is a sign file, for the cases that follow.
#[derive(Clone, Copy, PartialEq, Eq, Debug)]
pub enum Kind {
    D,
    X,
    Q,
    S,
    I,
    V,
    L,
}

// What the next line is.
#[derive(Clone, Copy, PartialEq, Eq)]
pub enum Phase {
    Head,
    Case,
    // The only line of a D, X or Q answer.
    Answer(Kind),
    // The first line of a V or I answer.
    Count(Kind),
    // So many more lines of it.
    Rows(Kind, u32),
    // A line of an L answer.
    Listing,
    // So many records of its last line.
    Records(u32),
    // Nothing: the stream ended well.
    Done,
}

// A place in a stream: what comes, and how many cases came.
#[derive(Clone, Copy)]
pub struct Stream {
    pub phase: Phase,
    cases: u32,
}

impl Kind {
    // The letter that a case line begins with. No TryFrom: it takes a line, and one of no kind (`end`) is no error yet.
    #[tactic(auto, unfolding(crate::specs::Kinds::kind_of))]
    pub fn of(line: &[u8]) -> Option<Kind>
        ensures { result ≡ kind_of (word_of line.now 0) }
    {
        match word(line, 0) {
            b"D" => Some(Kind::D),
            b"X" => Some(Kind::X),
            b"Q" => Some(Kind::Q),
            b"S" => Some(Kind::S),
            b"I" => Some(Kind::I),
            b"V" => Some(Kind::V),
            b"L" => Some(Kind::L),
            _ => None,
        }
    }

    // How many words a case line has.
    fn words(self) -> usize {
        match self {
            Kind::D => 3,
            Kind::I => 1,
            Kind::X | Kind::Q | Kind::S | Kind::V | Kind::L => 2,
        }
    }

    // What follows a case line.
    fn opened(self) -> Phase {
        match self {
            Kind::D | Kind::X | Kind::Q => Phase::Answer(self),
            Kind::V | Kind::I => Phase::Count(self),
            Kind::L => Phase::Listing,
            Kind::S => Phase::Case,
        }
    }
}

// After a D, X or Q answer: `1 N` or `0`.
fn answer(line: &[u8]) -> Option<Phase> {
    let good = is_line(line, &[0]) || is_numbers(line, 2) && begins(line, &[1]);
    good.then_some(Phase::Case)
}

// Before n lines more of a V or I answer.
fn rows(kind: Kind, n: u32) -> Phase {
    if n == 0 {
        Phase::Case
    } else {
        Phase::Rows(kind, n)
    }
}

// After the first line of a V or I answer: a count, or a refusal, which is all.
fn count(line: &[u8], kind: Kind) -> Option<Phase> {
    let n = number_at(line, 0)?;
    if words(line) == 1 {
        return Some(rows(kind, n));
    }
    (is_numbers(line, 5) && n == 4).then_some(Phase::Case)
}

// After one of n lines more of a V or I answer.
fn row(line: &[u8], kind: Kind, n: u32) -> Option<Phase> {
    let width = if kind == Kind::V { 11 } else { 2 };
    is_numbers(line, width).then_some(rows(kind, n.saturating_sub(1)))
}

// Before n records more. Apart from `rows`: one function of both would take the two phases, and be as long.
fn records(n: u32) -> Phase {
    if n == 0 {
        Phase::Listing
    } else {
        Phase::Records(n)
    }
}

// After one of n records more.
fn record_line(line: &[u8], n: u32) -> Option<Phase> {
    is_numbers(line, 15).then_some(records(n.saturating_sub(1)))
}

// After a line of an L answer: how many words it has, and what comes, by its first number.
fn listing(line: &[u8]) -> Option<Phase> {
    let (width, phase) = match number_at(line, 0)? {
        1 => (3, records(number_at(line, 2)?)),
        2 => (2, Phase::Listing),
        3 => (2, Phase::Case),
        4 => (5, Phase::Case),
        5 | 6 => (1, Phase::Case),
        _ => return None,
    };
    (words(line) == width).then_some(phase)
}

impl Stream {
    // The place at the start.
    pub const START: Stream = Stream {
        phase: Phase::Head,
        cases: 0,
    };

    // After a line where a case may stand. An S line is no case.
    fn case(self, line: &[u8]) -> Option<Stream> {
        let kind = Kind::of(line).filter(|k| words(line) == k.words())?;
        let cases = self.cases.saturating_add(u32::from(kind != Kind::S));
        Some(Stream {
            phase: kind.opened(),
            cases,
        })
    }

    // The place after a line, if it may stand where it does.
    pub fn next(self, line: &[u8]) -> Option<Stream> {
        let phase = match self.phase {
            Phase::Head if line == b"kambelohi answers 1".as_slice() => Phase::Case,
            Phase::Case if word(line, 0) == b"end".as_slice() => self.end(line)?,
            Phase::Case => return self.case(line),
            Phase::Answer(_) => answer(line)?,
            Phase::Count(kind) => count(line, kind)?,
            Phase::Rows(kind, n) => row(line, kind, n)?,
            Phase::Listing => listing(line)?,
            Phase::Records(n) => record_line(line, n)?,
            Phase::Head | Phase::Done => return None,
        };
        Some(Stream { phase, ..self })
    }

    // After `end N`.
    fn end(self, line: &[u8]) -> Option<Phase> {
        let good = words(line) == 2 && number_at(line, 1) == Some(self.cases);
        good.then_some(Phase::Done)
    }

    // The case whose answer has a line that comes next, if it is none of a listing.
    pub fn answering(self) -> Option<Kind>
        ensures { result ≡ answered self.phase }
    {
        match self.phase {
            Phase::Answer(kind) | Phase::Count(kind) | Phase::Rows(kind, _) => Some(kind),
            _ => None,
        }
    }

    // Whether a line of a listing comes next.
    pub fn is_listing(self) -> bool
        ensures { result ≡ in_listing self.phase }
    {
        matches!(self.phase, Phase::Listing | Phase::Records(_))
    }
}
