// A refusal, as every call answers it: document 01, "The calls".
#![tactic(auto)]

ghost use Rattle.std.specs.Prelude.{◌≡◌};
ghost use Rattle.refusal.specs.Refusals.{refusal};

// "A refusal holds number, start, length and detail (zeros unless said)". The number stays one, no enum: the sentence call takes any.
#[derive(Clone, Copy, Default)]
pub struct Refusal {
    pub number: u8,
    pub start: u16,
    pub length: u16,
    pub detail: u16,
}

impl Refusal {
    // A refusal that says no more than its number.
    pub fn of(number: u8) -> Refusal
        ensures { result ≡ refusal number 0 0 0 }
    {
        Refusal {
            number,
            ..Refusal::default()
        }
    }
}
