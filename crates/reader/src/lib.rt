// The reader that document 01 names, "A reader of the sign file keeps the lent bytes and a position": a struct, with thin functions over
// `records::record_at`, which decodes a record by slice and number, and whose promises are theirs. Sign and font read through the function `record_at`.
#![tactic(auto)]

ghost use Rattle.std.specs.Prelude.{◌≡◌, ◌≤◌, length, IfSome};
ghost use Rattle.records.specs.Record.{head_at};

use records::Record;

#[derive(Clone, Copy)]
pub struct SignReader<'a> {
    pub file: &'a [u8],
    pub at: usize,
}

impl SignReader<'_> {
    // The record at the reader's position.
    fn next(&self) -> Option<Record>
        ensures value { result ≡ head_at self.now.file.now self.now.at }
        ensures inside { IfSome result (λ r. (r.start ≤ r.end) × (r.end ≤ length self.now.file.now)) }
    {
        records::record_at(self.file, self.at)
    }
}

// The record at an offset, by a reader there.
pub fn record_at(file: &[u8], at: usize) -> Option<Record>
    ensures value { result ≡ head_at file.now at }
    ensures inside { IfSome result (λ r. (r.start ≤ r.end) × (r.end ≤ length file.now)) }
{
    SignReader { file, at }.next()
}
