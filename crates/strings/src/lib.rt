// The three certificate strings, read from a slice: whether each is readable, and how many names its list has.
#![tactic(auto, using(crate::proofs::Laws::laws))]

ghost use Rattle.std.specs.Prelude.{◌+◌, ◌<◌, ◌≤◌, ◌≡◌, length, IfSome};
ghost use Rattle.reading.specs.Strings.{read_san, read_subject, read_constraints};
ghost use Rattle.strings.specs.Counts.{content_at, place_count, names_at, order_at, set_at, sets_at, side_at, sides_at};
ghost use Rattle.strings.specs.Usual.{Sufficient, UsualName, UsualAttribute, UsualSet};

use der::{read_element, tagged};
use entries::{Unreadable, attribute, good_name, good_subtree};
use octets::wide;

// "tag 30": where the content starts of the one element that fills a string.
fn content(s: &[u8]) -> Result<usize, Unreadable>
    ensures { result ≡ content_at s.now }
{
    let whole = tagged(s, 0, s.len(), 0x30)?;
    if whole.next != s.len() {
        return Err(Unreadable);
    }
    Ok(whole.start)
}

// Where the usual name ends, if it stands at `at` and is readable: a dNSName of 16 to 32 bytes. The longest has 34 bytes with its header,
// and where fewer are left the answer is none. None says nothing: the name is then read as any other. Its length, in short form, says where
// it ends, and the compiler knows enough of it to test its bytes without a loop.
fn usual_name(s: &[u8], at: usize, end: usize) -> Option<usize>
    requires at_le_end { at ≤ end }
    requires end_in_bounds { end ≤ length s.now }
    ensures { IfSome result (UsualName s.now at end) }
{
    if end - at < 34 || s[at] != 0x82 {
        return None;
    }
    let n = wide(s[at + 1]);
    if !(16..=32).contains(&n) {
        return None;
    }
    let next = at + 2 + n;
    good_name(s, 0x82, at + 2, next).then_some(next)
}

// The GeneralNames from one place to another, one after the other.
fn count_names(s: &[u8], from: usize, end: usize) -> Result<usize, Unreadable>
    requires from_le_end { from ≤ end }
    requires end_in_bounds { end ≤ length s.now }
    ensures { result ≡ names_at s.now from end }
{
    let mut at = from;
    let mut k = 0;
    while at < end {
        if let Some(next) = usual_name(s, at, end) {
            at = next;
        } else {
            let e = read_element(s, at, end)?;
            if !good_name(s, e.tag, e.start, e.next) {
                return Err(Unreadable);
            }
            at = e.next;
        }
        k += 1;
    }
    Ok(k)
}

// "SAN: tag 30, one or more GeneralNames."
pub fn san_count(s: &[u8]) -> Result<usize, Unreadable>
    ensures { result ≡ place_count (read_san s.now) }
{
    let start = content(s)?;
    if start == s.len() {
        return Err(Unreadable);
    }
    count_names(s, start, s.len())
}

// "The attributes of a set stand in ascending byte order, equal ones allowed": whether the bytes from `last` to `at` are no
// later than those from `at` to `next`. `cmp` takes many bytes at a time, where `<=` takes one after the other.
fn in_order(s: &[u8], last: usize, at: usize, next: usize) -> bool
    requires last_le_at { (last ≤ at) × (at ≤ next) }
    requires next_in_bounds { next ≤ length s.now }
    ensures { result ≡ order_at s.now last at at next }
{
    s[last..at].cmp(&s[at..next]).is_le()
}

// "one or more attributes (30)", each no earlier than the one before it.
fn count_set(s: &[u8], from: usize, end: usize) -> Result<usize, Unreadable>
    requires from_le_end { from ≤ end }
    requires end_in_bounds { end ≤ length s.now }
    ensures { result ≡ set_at s.now from end }
{
    if from == end {
        return Err(Unreadable);
    }
    let mut last = from;
    let mut at = from;
    let mut k = 0;
    while at < end {
        let e = read_element(s, at, end)?;
        attribute(s, e.tag, e.start, e.next)?;
        if !in_order(s, last, at, e.next) {
            return Err(Unreadable);
        }
        last = at;
        at = e.next;
        k += 1;
    }
    Ok(k)
}

// Whether the content of an attribute is "one OID element and one value element", both with a length in short form. A no says nothing.
fn usual_attribute(s: &[u8], start: usize, end: usize) -> bool
    requires start_le_end { start ≤ end }
    requires end_in_bounds { end ≤ length s.now }
    requires start_in_bounds { start + 2 ≤ length s.now }
    requires end_bound { end < start + 128 }
    ensures { Sufficient result (UsualAttribute s.now start end) }
{
    let all = end - start;
    let oid = wide(s[start + 1]);
    s[start] == 0x06
        && oid != 0
        && oid + 4 <= all
        && s[start + 2 + oid] % 32 != 31
        && oid + wide(s[start + 3 + oid]) + 4 == all
}

// Where the usual set ends, if it stands at `at` and is readable: one attribute, and every length in short form. None says nothing.
fn usual_set(s: &[u8], at: usize, end: usize) -> Option<usize>
    requires at_le_end { at ≤ end }
    requires end_in_bounds { end ≤ length s.now }
    ensures { IfSome result (UsualSet s.now at end) }
{
    let room = end - at;
    if room < 9 || s[at] != 0x31 {
        return None;
    }
    let size = wide(s[at + 1]);
    if 128 <= size || room < size + 2 || s[at + 2] != 0x30 || wide(s[at + 3]) + 2 != size {
        return None;
    }
    let next = at + 2 + size;
    usual_attribute(s, at + 4, next).then_some(next)
}

// The sets from one place to another, one after the other.
fn count_sets(s: &[u8], from: usize, end: usize) -> Result<usize, Unreadable>
    requires from_le_end { from ≤ end }
    requires end_in_bounds { end ≤ length s.now }
    ensures { result ≡ sets_at s.now from end }
{
    let mut at = from;
    let mut k = 0;
    while at < end {
        if let Some(next) = usual_set(s, at, end) {
            at = next;
            k += 1;
        } else {
            let set = tagged(s, at, end, 0x31)?;
            k += count_set(s, set.start, set.next)?;
            at = set.next;
        }
    }
    Ok(k)
}

// "Subject: tag 30, zero or more sets"
pub fn subject_count(s: &[u8]) -> Result<usize, Unreadable>
    ensures { result ≡ place_count (read_subject s.now) }
{
    count_sets(s, content(s)?, s.len())
}

// The subtrees from one place to another, one after the other.
fn count_side(s: &[u8], from: usize, end: usize) -> Result<usize, Unreadable>
    requires from_le_end { from ≤ end }
    requires end_in_bounds { end ≤ length s.now }
    ensures { result ≡ side_at s.now from end }
{
    let mut at = from;
    let mut k = 0;
    while at < end {
        let e = read_element(s, at, end)?;
        if !good_subtree(s, e.tag, e.start, e.next) {
            return Err(Unreadable);
        }
        at = e.next;
        k += 1;
    }
    Ok(k)
}

// "A0 (permitted), A1 (excluded), or both in that order; at least one. Each holds one or more 30 elements".
fn count_sides(s: &[u8], from: usize, end: usize) -> Result<usize, Unreadable>
    requires from_le_end { from ≤ end }
    requires end_in_bounds { end ≤ length s.now }
    ensures { result ≡ sides_at s.now from end }
{
    if from == end {
        return Err(Unreadable);
    }
    let mut at = from;
    let mut low: u8 = 0xA0;
    let mut k = 0;
    while at < end {
        let side = read_element(s, at, end)?;
        if side.tag < low || 0xA1 < side.tag || side.start == side.next {
            return Err(Unreadable);
        }
        k += count_side(s, side.start, side.next)?;
        low = side.tag + 1;
        at = side.next;
    }
    Ok(k)
}

// "Constraints: tag 30 holding" the sides.
pub fn constraints_count(s: &[u8]) -> Result<usize, Unreadable>
    ensures { result ≡ place_count (read_constraints s.now) }
{
    count_sides(s, content(s)?, s.len())
}
