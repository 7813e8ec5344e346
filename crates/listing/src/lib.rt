// The listing call, and the placing call, which also gives the counts of a page: they write the records of an answer to the lent slice.
#![tactic(auto)]

ghost use Rattle.std.specs.Prelude.{◌≡◌, ◌≤◌, ◌<◌, length};
ghost use Rattle.layout.specs.Listing.{listing, after};
ghost use Rattle.counts.specs.Placing.{placing};

use counts::Placed;
use layout::{Answer, Span};
use rows::{ROOM, SHORT_ROOM};

// The placing, in an array of N records. fits: its bytes have to fit usize.
fn place_in<const N: usize>(file: &[u8], message: &[u8], answer: usize, recs: &mut [Span]) -> Placed
    requires enough { length message.now ≤ 2048 → length message.now ≤ N }
    requires fits { N < 65536 }
    ensures { (result ≡ placing file.now message.now answer recs.old)
        × (recs.new ≡ after file.now message.now answer recs.old) }
{
    let mut out = [Span::default(); N];
    let p = answer::placed(file, message, answer, recs.len(), &mut out);
    let n = usize::from(p.spans);
    recs[..n].copy_from_slice(&out[..n]);
    p
}

// Placing: what the listing gives, and beside it the counts of the page. Sign file, message, answer number from 0, and the lent slice. For a short
// message fewer records are cleared: one for each of its bytes is enough.
pub fn place(file: &[u8], message: &[u8], answer: usize, recs: &mut [Span]) -> Placed
    ensures { (result ≡ placing file.now message.now answer recs.old)
        × (recs.new ≡ after file.now message.now answer recs.old) }
{
    if message.len() <= SHORT_ROOM {
        return place_in::<SHORT_ROOM>(file, message, answer, recs);
    }
    place_in::<ROOM>(file, message, answer, recs)
}

// Listing: sign file, message, answer number from 0, and the lent slice.
#[tactic(auto, unfolding(layout::specs::Listing::listing, counts::specs::Placing::placing))]
pub fn list(file: &[u8], message: &[u8], answer: usize, recs: &mut [Span]) -> Answer
    ensures { (result ≡ listing file.now message.now answer recs.old)
        × (recs.new ≡ after file.now message.now answer recs.old) }
{
    place(file, message, answer, recs).answer
}
