// Bytes of a text: the classes of bytes, the comparison of texts with and without case, and the place of a byte; and the lengths of texts.
#![tactic(auto)]

ghost use Rattle.std.specs.Prelude.{◌≡◌, true, false, ◌+◌, ◌-◌, ◌<◌, ◌≤◌, length, drop, eqb, ltb, MatchOption};
ghost use Rattle.rules.specs.Bytes.{all, any, same, before, after};
ghost use Rattle.rules.specs.Names.{is, letter, digit, letter_digit_hyphen, scheme_byte, same_text};
ghost use Rattle.rules.specs.Names as names;
ghost use Rattle.rules.specs.Bytes as bytes;
ghost use Rattle.octets.specs.Texts.{same_part, each_same};

use words::word;

// The bit in which a letter and its capital differ, of each byte.
const CASE: u64 = 0x2020202020202020;

// A byte as a number, with the bound that a byte has.
pub fn wide(x: u8) -> usize
    ensures { (result ≡ x) × (result < 256) }
{
    usize::from(x)
}

// "Letters compare without case": A to Z become a to z, every other byte stays.
#[tactic(auto, unfolding(rules::specs::Names::lower))]
pub fn lower(b: u8) -> u8
    ensures { result ≡ names.lower b }
{
    b.to_ascii_lowercase()
}

// A to Z or a to z.
#[tactic(auto, unfolding(rules::specs::Names::letter))]
pub fn is_letter(b: u8) -> bool
    ensures { result ≡ letter b }
{
    b.is_ascii_alphabetic()
}

// 0 to 9.
#[tactic(auto, unfolding(rules::specs::Names::digit))]
pub fn is_digit(b: u8) -> bool
    ensures { result ≡ digit b }
{
    b.is_ascii_digit()
}

// "A label has letters, digits and hyphens".
#[tactic(auto, unfolding(rules::specs::Names::letter_digit_hyphen))]
pub fn is_ldh(b: u8) -> bool
    ensures { result ≡ letter_digit_hyphen b }
{
    is_letter(b) || is_digit(b) || b == b'-'
}

// "letters, digits, "+", "-", ".""
#[tactic(auto, unfolding(rules::specs::Names::scheme_byte))]
pub fn is_scheme_byte(b: u8) -> bool
    ensures { result ≡ scheme_byte b }
{
    is_letter(b) || is_digit(b) || b == b'+' || b == b'-' || b == b'.'
}

// Whether two lists of bytes are the same, byte for byte.
#[tactic(auto, using(crate::proofs::Compare::same_is))]
pub fn same_bytes(a: &[u8], b: &[u8]) -> bool
    ensures { result ≡ same a.now b.now }
{
    a == b
}

// Whether two bytes that differ are one letter: then the lesser is the capital. Where two bytes do not differ nothing is folded,
// so this may not be asked of them.
#[tactic(auto, using(crate::proofs::Classes::letter_less, crate::proofs::Classes::letter_greater))]
fn same_letter(x: u8, y: u8) -> bool
    requires { x ≡ y → ⊥ }
    ensures { result ≡ eqb (names.lower x) (names.lower y) }
{
    if x < y { lower(x) == y } else { lower(y) == x }
}

// Whether each byte of a text is the same without case as the byte of another: left at the first difference, and folded only where two
// bytes differ.
fn each_same(a: &[u8], b: &[u8]) -> bool
    ensures { result ≡ each_same a.now b.now }
{
    a.iter().zip(b).all(|(&x, &y)| x == y || same_letter(x, y))
}

// Whether eight bytes are the same without case. A letter and its capital differ in one bit, so that two words which differ in another
// are left at once. In that bit they may differ where a byte is a letter alone: with the bit set, a small letter. What is no small letter
// has the highest bit, is past `z`, or is before `a`; the last two make the highest bit of a sum and of a difference.
#[tactic(auto, using(crate::proofs::Texts::word_laws))]
fn same_word(a: &[u8], b: &[u8], at: usize) -> bool
    requires at_in_bounds { at + 8 ≤ length a.now }
    requires at_in_bounds_2 { at + 8 ≤ length b.now }
    ensures { result ≡ same_part a.now b.now at (at + 8) }
{
    let x = word(a, at);
    let y = word(b, at);
    if x == y {
        return true;
    }
    let small = x | CASE;
    let other = y | CASE;
    if small != other {
        return false;
    }
    let low = small & 0x7F7F7F7F7F7F7F7F;
    let outside = (0xE0E0E0E0E0E0E0E0 - low) | (low + 0x0505050505050505) | small;
    let first = (x & CASE) * 4 & outside;
    let second = (y & CASE) * 4 & outside;
    first == second
}

// Whether two texts are the same without case: eight bytes at a time, at the end the last eight, left at the first eight that differ.
// Most that differ do so in the first eight, which are looked at before the loop. `same_word` has one call, so that the compiler writes it
// into the loop.
#[tactic(auto, using(crate::proofs::Texts::text_laws))]
pub fn same_text(a: &[u8], b: &[u8]) -> bool
    ensures { result ≡ same_text a.now b.now }
{
    let n = a.len();
    if n != b.len() {
        return false;
    }
    if n < 8 {
        return each_same(a, b);
    }
    if word(a, 0) | CASE != word(b, 0) | CASE {
        return false;
    }
    let last = n - 8;
    for k in (0..n).step_by(8) {
        if !same_word(a, b, k.min(last)) {
            return false;
        }
    }
    true
}

// The same of a text that is held against many: one of another length, or whose first eight bytes differ beyond the case, is left before
// `same_text` is called.
#[tactic(auto, using(crate::proofs::Texts::text_laws))]
pub fn same_early(a: &[u8], b: &[u8]) -> bool
    ensures { result ≡ same_text a.now b.now }
{
    let n = a.len();
    if n != b.len() {
        return false;
    }
    if 8 <= n && word(a, 0) | CASE != word(b, 0) | CASE {
        return false;
    }
    same_text(a, b)
}

// The index of the first b, or the length where there is none.
pub fn find(s: &[u8], b: u8) -> usize
    ensures { (result ≡ length (before (is b) s.now)) × (result ≤ length s.now) }
{
    s.iter().position(|&x| x == b).unwrap_or(s.len())
}

// A text, and where its first dot stands: at its length, where it has none. A text that is held against many is searched once.
#[derive(Clone, Copy)]
pub struct Dotted<'a> {
    pub text: &'a [u8],
    pub dot: usize,
    pub ghost at_first_dot: { dot ≡ length (before (is names.dot) text.now) },
    pub ghost in_bounds: { dot ≤ length text.now },
}

impl<'a> Dotted<'a> {
    pub fn new(text: &'a [u8]) -> Self
        ensures { result.text ≡ text.entry }
    {
        Dotted {
            text,
            dot: find(text, b'.'),
        }
    }

    // Whether there is a dot.
    #[tactic(auto, using(crate::proofs::Place::some_passes))]
    pub fn has_dot(&self) -> bool
        ensures value { result ≡ any (is names.dot) self.now.text.now }
        ensures place { result ≡ ltb self.now.dot (length self.now.text.now) }
    {
        self.dot < self.text.len()
    }

    // What stands before the first dot: of a domain, its first label.
    #[tactic(auto, using(crate::proofs::Place::part_before))]
    pub fn first_label(&self) -> &'a [u8]
        ensures { result.now ≡ before (is names.dot) self.now.text.now }
    {
        &self.text[..self.dot]
    }

    // What stands past the first dot, if there is one.
    #[tactic(auto, using(crate::proofs::Place::rest_after))]
    pub fn past_dot(&self) -> Option<&'a [u8]>
        ensures value { MatchOption result (any (is names.dot) self.now.text.now ≡ false) (λ past. (any (is names.dot) self.now.text.now ≡ true) × (past.now ≡ after (is names.dot) self.now.text.now)) }
        ensures place { MatchOption result (self.now.dot ≡ length self.now.text.now) (λ past. (self.now.dot < length self.now.text.now) × (past.now ≡ drop (self.now.dot + 1) self.now.text.now)) }
    {
        if self.has_dot() {
            Some(&self.text[self.dot + 1..])
        } else {
            None
        }
    }
}

// Whether s has a byte b.
pub fn has(s: &[u8], b: u8) -> bool
    ensures { result ≡ any (is b) s.now }
{
    s.contains(&b)
}

// Whether all bytes of s are digits.
pub fn digits(s: &[u8]) -> bool
    ensures { result ≡ all digit s.now }
{
    s.iter().all(|&b| is_digit(b))
}

// Whether every byte is below 128, many at a time.
#[tactic(auto, using(crate::proofs::Classes::ascii_is))]
pub fn ascii(s: &[u8]) -> bool
    ensures { result ≡ bytes.ascii s.now }
{
    words::low(s, 0, s.len())
}

// The bytes from a place on.
#[tactic(auto, using(crate::proofs::Parts::rest_is))]
pub fn from(s: &[u8], start: usize) -> &[u8]
    requires { start ≤ length s.now }
    ensures { (result.now ≡ drop start s.now) × (length result.now ≡ length s.now - start) }
{
    &s[start..]
}

// Whether the lengths add up to the total. What is left of it is counted, so that no sum can be too large.
#[tactic(auto, using(crate::proofs::Adding::laws))]
pub fn sums_to(lengths: &[usize], total: usize) -> bool
    ensures { result ≡ eqb (bytes.sum lengths.now) total }
{
    let mut left = total;
    for &n in lengths {
        let Some(rest) = left.checked_sub(n) else {
            return false;
        };
        left = rest;
    }
    left == 0
}
