// DER elements, read from a part of a slice: `at` is where the part starts, `end` where it ends.
#![tactic(auto, using(crate::proofs::Laws::laws))]

ghost use Rattle.std.specs.Prelude.{◌+◌, ◌≤◌, ◌≡◌, true, length};
ghost use Rattle.der.specs.Places.{element_at, placed_at, tagged_at, value_at, found?};
ghost use Rattle.der.specs.Runs.{start_of, end_of};

use octets::wide;

// An element: its tag, where its content starts, and where the next element would start.
#[derive(Clone, Copy)]
pub struct Element {
    pub tag: u8,
    pub start: usize,
    pub next: usize,
}

// Why no element is read.
#[derive(Clone, Copy, Debug, PartialEq, Eq)]
pub enum ElementError {
    // The part ends before the element does.
    Truncated,
    // The length is not definite and shortest.
    BadLength,
    // The tag is not the one that is asked for, or its low five bits are all ones.
    BadTag,
}

// The element whose content starts at `start` and has `len` bytes, if the part has that many.
fn placed(s: &[u8], tag: u8, start: usize, len: usize, end: usize) -> Result<Element, ElementError>
    requires start_le_end { start ≤ end }
    requires end_in_bounds { end ≤ length s.now }
    ensures { result ≡ placed_at s.now tag start len end }
{
    if end - start < len {
        return Err(ElementError::Truncated);
    }
    Ok(Element {
        tag,
        start,
        next: start + len,
    })
}

// "Every length is definite and shortest: one byte to 127; 81 and a byte from 128 to 255; 82 and two bytes from 256."
pub fn read_element(s: &[u8], at: usize, end: usize) -> Result<Element, ElementError>
    requires at_le_end { at ≤ end }
    requires end_in_bounds { end ≤ length s.now }
    ensures { result ≡ element_at s.now at end }
{
    if end - at < 2 {
        return Err(ElementError::Truncated);
    }
    let tag = s[at];
    let first = wide(s[at + 1]);
    if first < 128 {
        return placed(s, tag, at + 2, first, end);
    }
    if first == 129 {
        if end - at < 3 {
            return Err(ElementError::Truncated);
        }
        let low = wide(s[at + 2]);
        if low < 128 {
            return Err(ElementError::BadLength);
        }
        return placed(s, tag, at + 3, low, end);
    }
    if first == 130 {
        if end - at < 4 {
            return Err(ElementError::Truncated);
        }
        let high = wide(s[at + 2]);
        let low = wide(s[at + 3]);
        if high < 1 {
            return Err(ElementError::BadLength);
        }
        return placed(s, tag, at + 4, high * 256 + low, end);
    }
    Err(ElementError::BadLength)
}

// The element, if it has this tag.
pub fn tagged(s: &[u8], at: usize, end: usize, wanted: u8) -> Result<Element, ElementError>
    requires at_le_end { at ≤ end }
    requires end_in_bounds { end ≤ length s.now }
    ensures { result ≡ tagged_at s.now at end wanted }
{
    let element = read_element(s, at, end)?;
    if element.tag != wanted {
        return Err(ElementError::BadTag);
    }
    Ok(element)
}

// An element of any tag but those whose "low five bits all ones is unreadable".
pub fn value(s: &[u8], at: usize, end: usize) -> Result<Element, ElementError>
    requires at_le_end { at ≤ end }
    requires end_in_bounds { end ≤ length s.now }
    ensures { result ≡ value_at s.now at end }
{
    let element = read_element(s, at, end)?;
    if element.tag % 32 == 31 {
        return Err(ElementError::BadTag);
    }
    Ok(element)
}

// Where an element ends that is known to be there, as in a string that has been validated. A length in short form, which is the usual
// one, says it at once.
pub fn element_end(s: &[u8], at: usize, end: usize) -> usize
    requires at_bound { at + 2 ≤ end }
    requires end_in_bounds { end ≤ length s.now }
    requires end_value { found? (element_at s.now at end) ≡ true }
    ensures { result ≡ end_of (element_at s.now at end) }
{
    let first = wide(s[at + 1]);
    if first < 128 {
        return at + 2 + first;
    }
    read_element(s, at, end).unwrap().next
}

// Where the content of such an element starts.
pub fn content_start(s: &[u8], at: usize, end: usize) -> usize
    requires at_bound { at + 2 ≤ end }
    requires end_in_bounds { end ≤ length s.now }
    requires end_value { found? (element_at s.now at end) ≡ true }
    ensures { result ≡ start_of (element_at s.now at end) }
{
    let first = wide(s[at + 1]);
    if first < 128 {
        return at + 2;
    }
    read_element(s, at, end).unwrap().start
}
