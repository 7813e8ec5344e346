// The tokenizer: where the slice at a place of a message ends, and of what shape a slice is.
#![tactic(auto)]

ghost use Rattle.std.specs.Prelude.{◌≡◌, ◌+◌, drop};
ghost use Rattle.std.specs.Iterator.{YieldsFirstBy, item_count};
ghost use Rattle.token.specs.Token.{plain_len, tag_len, slice_len, shape_of, slices_from, slice_at};

// What a slice is, as `Value::try_from` tells it.
// Bracket: [[ or ]]. Tag: from [ to ]. Stray: a [ without its ], or a lone ].
#[derive(Clone, Copy)]
pub enum Shape {
    Bracket,
    Tag,
    Stray,
    Text,
}

// The bytes before the first bracket.
fn plain_len(s: &[u8]) -> usize
    ensures { result ≡ plain_len s.now }
{
    s.iter()
        .position(|b| matches!(b, b'[' | b']'))
        .unwrap_or(s.len())
}

// The bytes of a tag that follow its [.
#[tactic(auto, unfolding(crate::specs::Token::tag_len))]
fn tag_len(s: &[u8]) -> usize
    ensures { result ≡ tag_len s.now }
{
    let n = plain_len(s);
    if base::byte_at(s, n) == b']' {
        n + 1
    } else {
        n
    }
}

// The length of the first slice.
#[tactic(auto, using(crate::proofs::Laws::slice_ways), unfolding(crate::specs::Token::rest_len))]
fn slice_len(s: &[u8]) -> usize
    ensures { result ≡ slice_len s.now }
{
    let Some((first, rest)) = s.split_first() else {
        return 0;
    };
    match (*first, base::byte_at(rest, 0)) {
        (b'[', b'[') | (b']', b']') => 2,
        (b'[', _) => 1 + tag_len(rest),
        (b']', _) => 1,
        _ => 1 + plain_len(rest),
    }
}

// `MultiStr::next_slice`: the end of the slice that starts at a place.
#[tactic(auto, using(crate::proofs::Laws::slice_ways))]
pub fn slice_end(msg: &[u8], at: usize) -> usize
    ensures { result ≡ at + slice_len (drop at msg.now) }
{
    if at < msg.len() {
        at + slice_len(&msg[at..])
    } else {
        at
    }
}

// The slices of a message, each with the place where it starts: those from a place on are left.
#[derive(Clone, Copy)]
pub struct Slices<'a> {
    msg: &'a [u8],
    at: usize,
}

impl<'a> Slices<'a> {
    // Those of a message from a place on.
    pub fn new(msg: &'a [u8], from: usize) -> Slices<'a>
        ensures { slices_from result.at result.msg.now ≡ slices_from from msg.now }
    {
        Slices { msg, at: from }
    }
}

impl<'a> Iterator for Slices<'a> {
    type Item = (usize, &'a [u8]);

    ghost next_gives = { YieldsFirstBy slice_at (λ s. slices_from s.at s.msg.now) };

    ghost remaining = { item_count (λ s. slices_from s.at s.msg.now) };

    #[tactic(auto, using(crate::proofs::Laws::slices_ways))]
    fn next(&mut self) -> Option<(usize, &'a [u8])> {
        let at = self.at;
        if at < self.msg.len() {
            self.at = slice_end(self.msg, at);
            Some((at, &self.msg[at..self.at]))
        } else {
            None
        }
    }
}

// The shape of a slice.
#[tactic(auto, unfolding(crate::specs::Token::shape_of, crate::specs::Token::is_pair, crate::specs::Token::last_byte))]
pub fn shape_of(s: &[u8]) -> Shape
    ensures { result ≡ shape_of s.now }
{
    match s {
        b"[[" | b"]]" => Shape::Bracket,
        [b'[', .., b']'] => Shape::Tag,
        [b'[' | b']', ..] => Shape::Stray,
        _ => Shape::Text,
    }
}
