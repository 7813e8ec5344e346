// What a call of A9 answers: the listing's answer, and two counts of its page.
#![tactic(auto)]

use layout::Answer;

// looked: the characters that the page's measures looked up. spans: the spans placed. Both are 0 for an off answer, the end and a refusal:
// no Option, since the document and C have 0 there.
#[derive(Clone, Copy)]
pub struct Placed {
    pub answer: Answer,
    pub looked: u16,
    pub spans: u16,
}
