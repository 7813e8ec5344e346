// The whole listing in one call: it writes all answers of a message and their records to two lent slices.
#![tactic(auto)]

ghost use Rattle.std.specs.Prelude.{◌≡◌, ◌*◌, ◌≤◌, ◌<◌, length};
ghost use Rattle.every.specs.All.{listing_all, answers_after, records_after};

use every::{ANSWERS, Listed, Shown};
use layout::Span;
use refusal::Refusal;
use rows::{ROOM, SHORT_ROOM};

// The records of a message twice: those of a page stand behind those before, and it is lent as many as the message has bytes.
const SHORT_RECORDS: usize = 2 * SHORT_ROOM;

const RECORDS: usize = 2 * ROOM;

// The whole listing, in arrays for all that it writes, N records. A refusal writes nothing. fits: the records' bytes have to fit usize.
fn list_all_in<const N: usize>(
    file: &[u8],
    message: &[u8],
    answers: &mut [Shown],
    recs: &mut [Span],
) -> Result<Listed, Refusal>
    requires enough { length message.now ≤ 2048 → 2 * length message.now ≤ N }
    requires fits { N < 65536 }
    ensures { (result ≡ listing_all file.now message.now answers.old recs.old)
        × (answers.new ≡ answers_after file.now message.now answers.old recs.old)
        × (recs.new ≡ records_after file.now message.now answers.old recs.old) }
{
    let mut shown = [Shown::default(); ANSWERS];
    let mut out = [Span::default(); N];
    let listed = every::counted(
        file,
        message,
        answers.len(),
        recs.len(),
        &mut shown,
        &mut out,
    )?;
    let n = usize::from(listed.answers);
    answers[..n].copy_from_slice(&shown[..n]);
    let k = usize::from(listed.records);
    recs[..k].copy_from_slice(&out[..k]);
    Ok(listed)
}

// The whole listing in one call: sign file, message, the lent slice of answers and that of records. For a short message
// fewer records are cleared.
pub fn list_all(
    file: &[u8],
    message: &[u8],
    answers: &mut [Shown],
    recs: &mut [Span],
) -> Result<Listed, Refusal>
    ensures { (result ≡ listing_all file.now message.now answers.old recs.old)
        × (answers.new ≡ answers_after file.now message.now answers.old recs.old)
        × (recs.new ≡ records_after file.now message.now answers.old recs.old) }
{
    if message.len() <= SHORT_ROOM {
        return list_all_in::<SHORT_RECORDS>(file, message, answers, recs);
    }
    list_all_in::<RECORDS>(file, message, answers, recs)
}
