// The calls that C and Rust link, with structs of numbers for answers, since C has no enums with fields: crate kambelohi_c exports them.
// include/kambelohi.h says the same in C. So `kind` and `number` stay numbers, and what is lent stays a slice.
#![tactic(auto)]

ghost use Rattle.std.specs.Prelude.{◌≡◌};
ghost use Rattle.every.specs.All.{listing_all as all_of, answers_after as answers_of, records_after as records_of};
ghost use Rattle.layout.specs.Listing.{listing as listing_of, after as after_of};
ghost use Rattle.counts.specs.Placing.{placing as placing_of};
ghost use Rattle.kambelohi.specs.Exports.{read_answer, read_all_answer, list_answer, place_answer, list_all_answer, sentence_answer};
ghost use Rattle.reading.specs.Reading.{reading as reading_of};
ghost use Rattle.readings.specs.Readings.{all_read as all_read_of, read_after as read_after_of};
ghost use Rattle.refusal.specs.Refusals.{refusal as refusal_of};
ghost use Rattle.sentence.specs.Sentence.{telling as telling_of, buffer_after as buffer_of};

use counts::Placed;
use every::{Listed, Shown};
use layout::{Answer, Span};
use numbers::Numbers;
use reading::Reading;
use readings::SliceRead;
use refusal::Refusal;

// kind: 0 a slice with its value, 1 the end of the message, 2 a refusal. Of a slice: start, length, and the value's code and eight numbers.
// Of a refusal: number, start, length and detail. What a kind does not use is 0.
#[repr(C)]
#[derive(Clone, Copy, Default)]
pub struct ReadAnswer {
    pub kind: u32,
    pub number: u32,
    pub start: u32,
    pub length: u32,
    pub detail: u32,
    pub code: u32,
    pub n: [u32; 8],
}

// The numbers of an answer of reading.
impl From<Reading> for ReadAnswer {
    ghost from_gives = { λ r a. a ≡ read_answer r };

    fn from(r: Reading) -> ReadAnswer {
        match r {
            Reading::Slice(p, v) => {
                let m = Numbers::from(v);
                let n = m.n;
                ReadAnswer {
                    kind: 0,
                    start: u32::from(p.start),
                    length: u32::from(p.len),
                    code: m.code,
                    n,
                    ..ReadAnswer::default()
                }
            }
            Reading::End => ReadAnswer {
                kind: 1,
                ..ReadAnswer::default()
            },
            Reading::Refused(f) => ReadAnswer {
                kind: 2,
                number: u32::from(f.number),
                start: u32::from(f.start),
                length: u32::from(f.length),
                detail: u32::from(f.detail),
                ..ReadAnswer::default()
            },
        }
    }
}

// Reading: message, offset, and whether long times hold.
pub fn kambelohi_read(msg: &[u8], offset: usize, long_times: bool) -> ReadAnswer
    ensures { result ≡ read_answer (reading_of long_times msg.now offset) }
{
    ReadAnswer::from(reading::read(msg, offset, long_times))
}

// An answer of kambelohi_read_all. kind: 1 all slices are read, 2 a refusal. Of the first: how many slices; of a refusal: number, start, length and
// detail. What a kind does not use is 0.
#[repr(C)]
#[derive(Clone, Copy, Default)]
pub struct ReadAllAnswer {
    pub kind: u16,
    pub count: u16,
    pub number: u16,
    pub start: u16,
    pub length: u16,
    pub detail: u16,
}

// The numbers of the count, or of the refusal: those of a sentence's answer, in a struct of its own, since C tells the answers of calls apart by type.
impl From<Result<u16, Refusal>> for ReadAllAnswer {
    ghost from_gives = { λ c r. r ≡ read_all_answer c };

    fn from(c: Result<u16, Refusal>) -> ReadAllAnswer {
        match c {
            Ok(slices) => ReadAllAnswer {
                kind: 1,
                count: slices,
                ..ReadAllAnswer::default()
            },
            Err(f) => ReadAllAnswer {
                kind: 2,
                number: u16::from(f.number),
                start: f.start,
                length: f.length,
                detail: f.detail,
                ..ReadAllAnswer::default()
            },
        }
    }
}

// Reading all slices: message, whether long times hold, and the lent slice.
pub fn kambelohi_read_all(msg: &[u8], long_times: bool, recs: &mut [SliceRead]) -> ReadAllAnswer
    ensures { (result ≡ read_all_answer (all_read_of long_times msg.now recs.old))
        × (recs.new ≡ read_after_of long_times msg.now recs.old) }
{
    ReadAllAnswer::from(readings::read_all(msg, long_times, recs))
}

// An answer of a listing. kind: 1 on, 2 off, 3 the end, 4 a refusal. Of on: duration and count of records; of off: duration; of the end:
// count of answers; of a refusal: number, start, length and detail. What a kind does not use is 0.
#[repr(C)]
#[derive(Clone, Copy, Default)]
pub struct ListAnswer {
    pub kind: u16,
    pub duration: u16,
    pub count: u16,
    pub number: u16,
    pub start: u16,
    pub length: u16,
    pub detail: u16,
}

// The numbers of an answer of a listing.
impl From<Answer> for ListAnswer {
    ghost from_gives = { λ a r. r ≡ list_answer a };

    fn from(a: Answer) -> ListAnswer {
        match a {
            Answer::On(duration, count) => ListAnswer {
                kind: 1,
                duration,
                count,
                ..ListAnswer::default()
            },
            Answer::Off(duration) => ListAnswer {
                kind: 2,
                duration,
                ..ListAnswer::default()
            },
            Answer::End(count) => ListAnswer {
                kind: 3,
                count,
                ..ListAnswer::default()
            },
            Answer::Refused(f) => ListAnswer {
                kind: 4,
                number: u16::from(f.number),
                start: f.start,
                length: f.length,
                detail: f.detail,
                ..ListAnswer::default()
            },
        }
    }
}

// Listing: sign file, message, answer number from 0, and the lent slice.
pub fn kambelohi_list(file: &[u8], message: &[u8], answer: usize, recs: &mut [Span]) -> ListAnswer
    ensures { (result ≡ list_answer (listing_of file.now message.now answer recs.old))
        × (recs.new ≡ after_of file.now message.now answer recs.old) }
{
    ListAnswer::from(listing::list(file, message, answer, recs))
}

// An answer of a placing: that of the listing, with its kinds, and two counts of the page: the characters that its measures looked up, and the
// spans placed. Both are 0 but for on. What a kind does not use is 0.
#[repr(C)]
#[derive(Clone, Copy, Default)]
pub struct PlaceAnswer {
    pub kind: u8,
    pub number: u8,
    pub duration: u16,
    pub count: u16,
    pub start: u16,
    pub length: u16,
    pub detail: u16,
    pub looked: u16,
    pub spans: u16,
}

// The numbers of the listing's answer, and the counts; kind and number by `as`, since C has 8 bits for them here, and both are proved to fit.
impl From<Placed> for PlaceAnswer {
    ghost from_gives = { λ p r. r ≡ place_answer p };

    fn from(p: Placed) -> PlaceAnswer {
        let a = ListAnswer::from(p.answer);
        PlaceAnswer {
            kind: a.kind as u8,
            number: a.number as u8,
            duration: a.duration,
            count: a.count,
            start: a.start,
            length: a.length,
            detail: a.detail,
            looked: p.looked,
            spans: p.spans,
        }
    }
}

// Placing: sign file, message, answer number from 0, and the lent slice.
pub fn kambelohi_place(file: &[u8], message: &[u8], answer: usize, recs: &mut [Span]) -> PlaceAnswer
    ensures { (result ≡ place_answer (placing_of file.now message.now answer recs.old))
        × (recs.new ≡ after_of file.now message.now answer recs.old) }
{
    PlaceAnswer::from(listing::place(file, message, answer, recs))
}

// An answer of kambelohi_list_all. kind: 1 the whole listing is written, 2 a refusal. Of a listing: how many answers and how many records; of a
// refusal: number, start, length and detail. What a kind does not use is 0.
#[repr(C)]
#[derive(Clone, Copy, Default)]
pub struct ListAllAnswer {
    pub kind: u16,
    pub answers: u16,
    pub records: u16,
    pub number: u16,
    pub start: u16,
    pub length: u16,
    pub detail: u16,
}

// The numbers of the counts, or of the refusal.
impl From<Result<Listed, Refusal>> for ListAllAnswer {
    ghost from_gives = { λ c r. r ≡ list_all_answer c };

    fn from(c: Result<Listed, Refusal>) -> ListAllAnswer {
        match c {
            Ok(Listed { answers, records }) => ListAllAnswer {
                kind: 1,
                answers,
                records,
                ..ListAllAnswer::default()
            },
            Err(f) => ListAllAnswer {
                kind: 2,
                number: u16::from(f.number),
                start: f.start,
                length: f.length,
                detail: f.detail,
                ..ListAllAnswer::default()
            },
        }
    }
}

// The whole listing: sign file, message, the lent slice of answers and that of records.
pub fn kambelohi_list_all(
    file: &[u8],
    message: &[u8],
    answers: &mut [Shown],
    recs: &mut [Span],
) -> ListAllAnswer
    ensures { (result ≡ list_all_answer (all_of file.now message.now answers.old recs.old))
        × (answers.new ≡ answers_of file.now message.now answers.old recs.old)
        × (recs.new ≡ records_of file.now message.now answers.old recs.old) }
{
    ListAllAnswer::from(whole::list_all(file, message, answers, recs))
}

// An answer of kambelohi_sentence. kind: 1 the sentence is written, 2 a refusal. Of a sentence: how many bytes; of a refusal: number, start,
// length and detail. What a kind does not use is 0.
#[repr(C)]
#[derive(Clone, Copy, Default)]
pub struct SentenceAnswer {
    pub kind: u16,
    pub count: u16,
    pub number: u16,
    pub start: u16,
    pub length: u16,
    pub detail: u16,
}

// The numbers of the length, or of the refusal.
impl From<Result<u16, Refusal>> for SentenceAnswer {
    ghost from_gives = { λ t r. r ≡ sentence_answer t };

    fn from(t: Result<u16, Refusal>) -> SentenceAnswer {
        match t {
            Ok(n) => SentenceAnswer {
                kind: 1,
                count: n,
                ..SentenceAnswer::default()
            },
            Err(f) => SentenceAnswer {
                kind: 2,
                number: u16::from(f.number),
                start: f.start,
                length: f.length,
                detail: f.detail,
                ..SentenceAnswer::default()
            },
        }
    }
}

// The refusal with these numbers as a sentence in the lent buffer: C passes no struct.
pub fn kambelohi_sentence(
    number: u8,
    start: u16,
    length: u16,
    detail: u16,
    buffer: &mut [u8],
) -> SentenceAnswer
    ensures { (result ≡ sentence_answer (telling_of (refusal_of number start length detail) buffer.old))
        × (buffer.new ≡ buffer_of (refusal_of number start length detail) buffer.old) }
{
    let r = Refusal {
        number,
        start,
        length,
        detail,
    };
    SentenceAnswer::from(sentence::sentence(r, buffer))
}
