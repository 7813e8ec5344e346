// Reading an answer stream.
ghost use Rattle.std.specs.Prelude.{◌≡◌, ◌-◌, ◌≤◌, ◌<◌, length, IfSome, IsTrue};

use crate::{BadStream, Phase, Stream};
use std::io::Read;

// A line that came, its number, and the places of the stream before and after it.
// kept: where cases are kept, the lines from the case line on whose answer it is in; else the line alone.
#[derive(Clone, Copy)]
pub struct Line<'a> {
    pub text: &'a [u8],
    pub kept: &'a [u8],
    pub number: u32,
    pub was: Stream,
    pub then: Stream,
}

impl Line<'_> {
    // The first of the lines kept.
    pub fn case(&self) -> &[u8] {
        self.kept.split(|b| *b == b'\n').next().unwrap_or_default()
    }
}

// A place in the input, of which a buffer holds a part: the lines kept from start on, what comes from at on, up to end; the place of the
// stream there, and the number of the last line.
#[derive(Clone, Copy)]
pub struct Input {
    start: usize,
    at: usize,
    end: usize,
    stream: Stream,
    line: u32,
    ghost ordered: { start ≤ at },
    ghost taken: { at ≤ end },
}

impl Input {
    // The place at the start.
    pub fn start() -> Input
        ensures { (result.start ≡ 0) × (result.at ≡ 0) × (result.end ≡ 0) × (result.line ≡ 0) }
    {
        Input {
            start: 0,
            at: 0,
            end: 0,
            stream: Stream::START,
            line: 0,
        }
    }
}

// The lines of a source from a place on, which a lent buffer holds in part. Where cases are kept, one stays in the buffer until its answer came;
// else a line does. No ArrayVec: a read can't go into one.
#[derive(Drop)]
pub struct Lines<'a, R> {
    source: R,
    buf: &'a mut [u8],
    keep: bool,
    place: Input,
    ghost room: { place.end ≤ length buf.now },
}

impl<'a, R: Read> Lines<'a, R> {
    // From the start of a source on.
    pub fn new(source: R, buf: &'a mut [u8], keep: bool) -> Self
        ensures start { (result.place.start ≡ 0) × (result.place.at ≡ 0) × (result.place.end ≡ 0) × (result.place.line ≡ 0) }
        ensures keep { result.keep ≡ keep }
    {
        Lines {
            source,
            buf,
            keep,
            place: Input::start(),
        }
    }

    // Moves what the buffer holds to its front and reads more behind it: whether something came.
    fn fill(&mut self) -> bool
        ensures more { IsTrue result → self.old.place.end - self.old.place.start < self.new.place.end - self.new.place.start }
        ensures room { length self.new.buf.now ≡ length self.old.buf.now }
    {
        let Input {
            start,
            at,
            end,
            stream,
            line,
        } = self.place;
        self.buf[..end].rotate_left(start);
        self.place = Input {
            start: 0,
            at: at - start,
            end: end - start,
            stream,
            line,
        };
        let more = self
            .source
            .read(&mut self.buf[self.place.end..])
            .unwrap_or(0);
        self.place.end += more;
        0 < more
    }

    // Reads until the next line is there: where it ends. None where the input ends before, or the buffer is full. No iterator has it: the
    // buffer is read into between two looks.
    fn line_end(&mut self) -> Option<usize>
        ensures { IfSome result (λ n. (self.new.place.at ≤ n) × (n < self.new.place.end)) }
    {
        loop {
            let rest = &self.buf[self.place.at..self.place.end];
            if let Some(n) = rest.iter().position(|b| *b == b'\n') {
                return Some(self.place.at + n);
            }
            if !self.fill() {
                return None;
            }
        }
    }

    // The next line; None where the input ends as the stream does. No Iterator: a line is lent from the buffer up to the next call.
    // Nothing is promised: no contract can say what a source gives.
    pub fn next(&mut self) -> Result<Option<Line<'_>>, BadStream> {
        let found = self.line_end();
        let line = self.place.line.saturating_add(1);
        let Some(end) = found else {
            let whole = self.place.stream.phase == Phase::Done && self.place.at == self.place.end;
            return if whole {
                Ok(None)
            } else {
                Err(BadStream { line })
            };
        };
        let Input {
            start,
            at,
            stream: was,
            ..
        } = self.place;
        let then = was.next(&self.buf[at..end]).ok_or(BadStream { line })?;
        let past = end + 1;
        let held = self.keep && then.answering().is_some();
        self.place = Input {
            start: if held { start } else { past },
            at: past,
            end: self.place.end,
            stream: then,
            line,
        };
        Ok(Some(Line {
            text: &self.buf[at..end],
            kept: &self.buf[start..end],
            number: line,
            was,
            then,
        }))
    }

    // Every line up to the end of the stream, or up to the first at which the turn fails. Nothing is promised, as of `next`.
    pub fn each<F: FnMut(&Line) -> Result<(), BadStream>>(
        &mut self,
        mut turn: F,
    ) -> Result<(), BadStream>
        requires { F.IsAlwaysCallable turn }
    {
        // Nothing says that the input ends: the turns are counted up to a number that no run uses up.
        for _ in 0..u64::MAX {
            let Some(line) = self.next()? else {
                break;
            };
            turn(&line)?;
        }
        Ok(())
    }
}
