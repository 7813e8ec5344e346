// What C and Rust link: the calls of crate kambelohi, under their names in C. include/kambelohi.h declares them.
#![tactic(auto)]

ghost use Rattle.std.specs.Prelude.{◌≡◌};
ghost use Rattle.every.specs.All.{listing_all as all_of, answers_after as answers_of, records_after as records_of};
ghost use Rattle.layout.specs.Listing.{listing as listing_of, after as after_of};
ghost use Rattle.counts.specs.Placing.{placing as placing_of};
ghost use Rattle.kambelohi.specs.Exports.{read_answer, read_all_answer, list_answer, place_answer, list_all_answer, sentence_answer};
ghost use Rattle.reading.specs.Reading.{reading as reading_of};
ghost use Rattle.readings.specs.Readings.{all_read as all_read_of, read_after as read_after_of};
ghost use Rattle.refusal.specs.Refusals.{refusal as refusal_of};
ghost use Rattle.sentence.specs.Sentence.{telling as telling_of, buffer_after as buffer_of};

use every::Shown;
use kambelohi::{
    ListAllAnswer, ListAnswer, PlaceAnswer, ReadAllAnswer, ReadAnswer, SentenceAnswer,
};
use layout::Span;
use readings::SliceRead;

// Reading: message, offset, and whether long times hold.
#[unsafe(no_mangle)]
pub extern "C" fn kambelohi_read(msg: &[u8], offset: usize, long_times: bool) -> ReadAnswer
    ensures { result ≡ read_answer (reading_of long_times msg.now offset) }
{
    kambelohi::kambelohi_read(msg, offset, long_times)
}

// Reading all slices: message, whether long times hold, and the lent slice.
#[unsafe(no_mangle)]
pub extern "C" fn kambelohi_read_all(
    msg: &[u8],
    long_times: bool,
    recs: &mut [SliceRead],
) -> ReadAllAnswer
    ensures { (result ≡ read_all_answer (all_read_of long_times msg.now recs.old))
        × (recs.new ≡ read_after_of long_times msg.now recs.old) }
{
    kambelohi::kambelohi_read_all(msg, long_times, recs)
}

// Listing: sign file, message, answer number from 0, and the lent slice.
#[unsafe(no_mangle)]
pub extern "C" fn kambelohi_list(
    file: &[u8],
    message: &[u8],
    answer: usize,
    recs: &mut [Span],
) -> ListAnswer
    ensures { (result ≡ list_answer (listing_of file.now message.now answer recs.old))
        × (recs.new ≡ after_of file.now message.now answer recs.old) }
{
    kambelohi::kambelohi_list(file, message, answer, recs)
}

// Placing: sign file, message, answer number from 0, and the lent slice.
#[unsafe(no_mangle)]
pub extern "C" fn kambelohi_place(
    file: &[u8],
    message: &[u8],
    answer: usize,
    recs: &mut [Span],
) -> PlaceAnswer
    ensures { (result ≡ place_answer (placing_of file.now message.now answer recs.old))
        × (recs.new ≡ after_of file.now message.now answer recs.old) }
{
    kambelohi::kambelohi_place(file, message, answer, recs)
}

// The whole listing: sign file, message, the lent slice of answers and that of records.
#[unsafe(no_mangle)]
pub extern "C" fn kambelohi_list_all(
    file: &[u8],
    message: &[u8],
    answers: &mut [Shown],
    recs: &mut [Span],
) -> ListAllAnswer
    ensures { (result ≡ list_all_answer (all_of file.now message.now answers.old recs.old))
        × (answers.new ≡ answers_of file.now message.now answers.old recs.old)
        × (recs.new ≡ records_of file.now message.now answers.old recs.old) }
{
    kambelohi::kambelohi_list_all(file, message, answers, recs)
}

// The refusal with these numbers as a sentence in the lent buffer: C passes no struct.
#[unsafe(no_mangle)]
pub extern "C" fn kambelohi_sentence(
    number: u8,
    start: u16,
    length: u16,
    detail: u16,
    buffer: &mut [u8],
) -> SentenceAnswer
    ensures { (result ≡ sentence_answer (telling_of (refusal_of number start length detail) buffer.old))
        × (buffer.new ≡ buffer_of (refusal_of number start length detail) buffer.old) }
{
    kambelohi::kambelohi_sentence(number, start, length, detail, buffer)
}
