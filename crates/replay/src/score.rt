// What is printed. A write that fails is passed over.
ghost use Rattle.std.specs.Prelude.{◌≡◌, ◌+◌, ◌-◌, ◌^◌, ◌↔◌, min, if◌then◌else◌, false, IsTrue};

use crate::Kind;
use std::fmt;

// How many cases of a kind came, and how many agree.
#[derive(Clone, Copy, Default)]
pub struct Score {
    pub agree: u32,
    pub cases: u32,
}

impl Score {
    // A case more. Whether it is the first that does not agree.
    pub fn count(&mut self, agrees: bool) -> bool
        ensures first { IsTrue result ↔ ((agrees ≡ false) × (self.old.agree ≡ self.old.cases)) }
        ensures cases { self.new.cases ≡ min (self.old.cases + 1) (2 ^ 32 - 1) }
        ensures agree { self.new.agree ≡ (if agrees then min (self.old.agree + 1) (2 ^ 32 - 1) else self.old.agree) }
    {
        let first = !agrees && self.agree == self.cases;
        self.cases = self.cases.saturating_add(1);
        if agrees {
            self.agree = self.agree.saturating_add(1);
        }
        first
    }

    // `D 12 of 13 agree`. No Display: the score doesn't know its kind. Nothing is promised of what a write does.
    pub fn print(self, rt: &impl Print, kind: Kind) {
        let Score { agree, cases } = self;
        let _ = println!(rt; "{kind:?} {agree} of {cases} agree");
    }
}

// The line where a stream breaks off, or one that may not stand there.
#[derive(Clone, Copy)]
pub struct BadStream {
    pub line: u32,
}

// `bad stream at line 12`
impl fmt::Display for BadStream {
    fn fmt<W: fmt::Write>(&self, f: &mut fmt::Formatter<W>) -> fmt::Result {
        let line = self.line;
        write!(f, "bad stream at line {line}")
    }
}

// `line 12 does not agree: D 8 30`
pub fn print_other(rt: &impl Print, line: u32, case: &[u8]) {
    let _ = print!(rt; "line {line} does not agree: ");
    let _ = rt.write_all(case);
    let _ = println!(rt);
}
