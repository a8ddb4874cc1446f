// The constraint strings of all issuers, end to end in one slice beside their lengths: whether the lengths fit, and each string.
#![tactic(auto)]

ghost use Rattle.std.specs.Prelude.{ℕ, ◌≤◌, ◌≡◌, List, length, take, MatchOption};
ghost use Rattle.std.proofs.Math.Option.{none, some};
ghost use Rattle.rules.specs.Bytes.{cut};
ghost use Rattle.rules.specs.Seen.{lengths_fit, strings_of, strings_by, lengths_from_c};
ghost use Rattle.issuers.specs.Strings.{string_at};

mod cut;

pub use cut::Strings;
use octets::sums_to;
use rules::MOST_ISSUERS;

// "a ninth, or lengths with another sum, is 7".
#[tactic(auto, using(crate::proofs::Laws::laws))]
pub fn lengths_fit(lengths: &[usize], size: usize) -> bool
    ensures { result ≡ lengths_fit lengths.now size }
{
    lengths.len() <= MOST_ISSUERS && sums_to(lengths, size)
}

// String k, as a part of the bytes; an empty part where there are no more or the lengths are wrong.
#[tactic(auto, using(crate::proofs::Laws::laws))]
pub fn string_of<'a>(lengths: &[usize], bytes: &'a [u8], k: usize) -> &'a [u8]
    ensures { result.now ≡ string_at lengths.now bytes.now k }
{
    if k >= lengths.len() || !lengths_fit(lengths, bytes.len()) {
        return &[];
    }
    let start = lengths[..k].iter().sum();
    &bytes[start..start + lengths[k]]
}

// The strings one by one; none where the lengths are wrong.
#[tactic(auto, using(crate::proofs::Laws::laws))]
pub fn strings_of<'a>(lengths: &'a [usize], bytes: &'a [u8]) -> Option<Strings<'a>>
    ensures { MatchOption result (strings_of lengths.now bytes.now ≡ none) (λ strings. strings_of lengths.now bytes.now ≡ some (cut strings.lengths.now strings.bytes.now)) }
{
    if lengths_fit(lengths, bytes.len()) {
        Some(Strings { lengths, bytes })
    } else {
        None
    }
}

// Lengths that C hands over: how many, and each. Nine are no lengths for any bytes.
#[derive(Clone, Copy)]
pub struct Lengths {
    pub count: usize,
    pub values: [usize; 9],
    ghost count_in_bounds: { count ≤ 9 },
}

impl Lengths {
    pub fn as_slice(&self) -> &[usize]
        ensures { result.now ≡ take self.now.count self.now.values }
    {
        &self.values[..self.count]
    }
}

// "From C each length is two bytes, high first; an odd count is 7", and so is a ninth length: neither are lengths for any bytes.
#[tactic(auto, using(crate::proofs::Laws::laws))]
fn read_lengths(b: &[u8]) -> Option<Lengths>
    ensures { MatchOption result ((bytes : List ℕ) → strings_by (lengths_from_c b.now) bytes ≡ none) (λ lengths. lengths_from_c b.now ≡ some (take lengths.count lengths.values)) }
{
    let count = b.len() / 2;
    if b.len() % 2 != 0 || MOST_ISSUERS < count {
        return None;
    }
    let mut values = [0; MOST_ISSUERS + 1];
    for (i, pair) in b.chunks_exact(2).enumerate() {
        values[i] = usize::from(pair[0]) * 256 + usize::from(pair[1]);
    }
    Some(Lengths { count, values })
}

// The same, where what is no lengths becomes nine zeros, so that every call on C's bytes is the same call on numbers.
#[tactic(auto, using(crate::proofs::Laws::from_c))]
pub fn lengths_from_c(b: &[u8]) -> Lengths
    ensures by_index { (bytes : List ℕ) → strings_of (take result.count result.values) bytes ≡ strings_by (lengths_from_c b.now) bytes }
    ensures count_in_bounds { result.count ≤ length result.values }
{
    match read_lengths(b) {
        Some(lengths) => lengths,
        None => Lengths {
            count: 9,
            values: [0; 9],
        },
    }
}
