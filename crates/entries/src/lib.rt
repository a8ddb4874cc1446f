// One name of a certificate string: a GeneralName, an attribute, a subtree. `start` and `end` are where its element's content
// starts and ends, and `tag` is that element's tag.
#![tactic(auto, using(crate::proofs::Laws::laws))]

ghost use Rattle.std.specs.Prelude.{◌+◌, ◌≤◌, ◌≡◌, true, length, get_or};
ghost use Rattle.rules.specs.San.{srv_oid, sealed_tag, good_srv_name};
ghost use Rattle.rules.specs.Matching.{srv_text, tagged_text};
ghost use Rattle.reading.specs.Reader.{is_some, raw};
ghost use Rattle.reading.specs.Strings.{read_name};
ghost use Rattle.rules.specs.Bytes.{same};
ghost use Rattle.entries.specs.Entries.{other_kind, other_at, name_at, kind_by, attribute_at, subtree_at, good_name_at, good_subtree_name_at, good_subtree_at, form_of, form_by, whole_at, text_place, text_start};

use der::{ElementError, content_start, read_element, tagged, value};
use dns::dns_restriction;
use octets::{ascii, same_bytes, wide};
use rules::SRV_OID;
use srv::restriction;
use words::word;

// Kinds of a listing's rows: an SRVName, "10 for a CN with tag 0C, 13 or 16, 11 for another CN, 12 otherwise".
pub const SRV_NAME: usize = 9;

pub const TEXT_CN: usize = 10;

pub const OTHER_CN: usize = 11;

const NO_CN: usize = 12;

// "The CN's OID content is 55 04 03."
const CN_OID: [u8; 3] = [0x55, 0x04, 0x03];

// A name as a listing and a verdict meet it: its kind in the listing; the tag of the element whose content is its text, and where that
// starts. It ends where the name ends.
#[derive(Clone, Copy)]
pub struct Name {
    pub kind: usize,
    pub tag: u8,
    pub text: usize,
}

// A name or a string is not put together as the grammar writes one.
#[derive(Clone, Copy, Debug, PartialEq, Eq)]
pub struct Unreadable;

impl From<ElementError> for Unreadable {
    ghost from_gives = { λ _ unreadable. unreadable ≡ record {} };

    fn from(_why: ElementError) -> Unreadable {
        Unreadable
    }
}

// A form of names that constraints restrict.
#[derive(Clone, Copy, Debug, PartialEq, Eq)]
pub enum NameForm {
    Srv,
    Dns,
}

impl From<usize> for NameForm {
    ghost from_gives = { λ kind form. form ≡ form_by kind };

    fn from(kind: usize) -> NameForm {
        if kind == SRV_NAME {
            NameForm::Srv
        } else {
            NameForm::Dns
        }
    }
}

// Whether an OID is that of an SRVName: eight bytes, compared as one number.
fn is_srv_oid(oid: &[u8]) -> bool
    ensures { result ≡ same oid.now srv_oid }
{
    oid.len() == 8 && word(oid, 0) == word(&SRV_OID, 0)
}

// The kind of an otherName, by its OID: "9 for an SRVName", else A0's low five bits.
fn other_kind(oid: &[u8]) -> usize
    ensures { result ≡ other_kind oid.now }
{
    if is_srv_oid(oid) { SRV_NAME } else { 0 }
}

// "A0, otherName: an OID element (tag 06, content not empty), then tag A0 holding exactly one element."
fn other_name(s: &[u8], start: usize, end: usize) -> Result<Name, Unreadable>
    requires start_le_end { start ≤ end }
    requires end_in_bounds { end ≤ length s.now }
    ensures { result ≡ other_at s.now start end }
{
    let oid = tagged(s, start, end, 0x06)?;
    if oid.start == oid.next {
        return Err(Unreadable);
    }
    let inner = tagged(s, oid.next, end, 0xA0)?;
    if inner.next != end {
        return Err(Unreadable);
    }
    let value = value(s, inner.start, end)?;
    if value.next != end {
        return Err(Unreadable);
    }
    Ok(Name {
        kind: other_kind(&s[oid.start..oid.next]),
        tag: value.tag,
        text: value.start,
    })
}

// A GeneralName, before its own rules are asked: "Kinds: tag's low five bits; 9 for an SRVName".
pub fn name_shape(s: &[u8], tag: u8, start: usize, end: usize) -> Result<Name, Unreadable>
    requires start_le_end { start ≤ end }
    requires end_in_bounds { end ≤ length s.now }
    ensures { result ≡ name_at s.now tag start end }
{
    if tag == 0xA0 {
        return other_name(s, start, end);
    }
    Ok(Name {
        kind: wide(tag % 32),
        tag,
        text: start,
    })
}

// "in a subject 10 for a CN with tag 0C, 13 or 16, 11 for another CN, 12 otherwise"
fn attribute_kind(cn: bool, tag: u8) -> usize
    ensures { result ≡ kind_by cn tag }
{
    match tag {
        _ if !cn => NO_CN,
        0x0C | 0x13 | 0x16 => TEXT_CN,
        _ => OTHER_CN,
    }
}

// "attributes (30) of one OID element and one value element"
pub fn attribute(s: &[u8], tag: u8, start: usize, end: usize) -> Result<Name, Unreadable>
    requires start_le_end { start ≤ end }
    requires end_in_bounds { end ≤ length s.now }
    ensures { result ≡ attribute_at s.now tag start end }
{
    if tag != 0x30 {
        return Err(Unreadable);
    }
    let oid = tagged(s, start, end, 0x06)?;
    if oid.start == oid.next {
        return Err(Unreadable);
    }
    let value = value(s, oid.next, end)?;
    if value.next != end {
        return Err(Unreadable);
    }
    let cn = same_bytes(&s[oid.start..oid.next], &CN_OID);
    Ok(Name {
        kind: attribute_kind(cn, value.tag),
        tag: value.tag,
        text: value.start,
    })
}

// "30 elements, and each of those exactly one GeneralName", before that name's own rules are asked.
pub fn subtree_shape(s: &[u8], tag: u8, start: usize, end: usize) -> Result<Name, Unreadable>
    requires start_le_end { start ≤ end }
    requires end_in_bounds { end ≤ length s.now }
    ensures { result ≡ subtree_at s.now tag start end }
{
    if tag != 0x30 {
        return Err(Unreadable);
    }
    let name = read_element(s, start, end)?;
    if name.next != end {
        return Err(Unreadable);
    }
    name_shape(s, name.tag, name.start, end)
}

// "87, 88, A3, A4, A5": an arm for each, of which the compiler makes one test of a bit.
fn is_sealed_tag(tag: u8) -> bool
    ensures { result ≡ sealed_tag tag }
{
    match tag {
        0x87 => true,
        0x88 => true,
        0xA3 => true,
        0xA4 => true,
        0xA5 => true,
        _ => false,
    }
}

// "that inner element has tag 16, at least one byte, all below 128"
fn good_srv(tag: u8, text: &[u8]) -> bool
    ensures { result ≡ good_srv_name tag text.now }
{
    tag == 0x16 && !text.is_empty() && ascii(text)
}

// The rules of an otherName: "If the OID is the eight bytes ..".
fn good_other(s: &[u8], start: usize, end: usize) -> bool
    requires start_le_end { start ≤ end }
    requires end_in_bounds { end ≤ length s.now }
    ensures { result ≡ good_name_at s.now 0xA0 start end }
{
    let Ok(name) = other_name(s, start, end) else {
        return false;
    };
    name.kind != SRV_NAME || good_srv(name.tag, &s[name.text..end])
}

// The rules of a GeneralName that is no otherName: "81, 82, 86: every byte below 128. 87, 88, A3, A4, A5: content not looked into. Tags
// not named here are unreadable." It is written into the loops that read names, which is faster than a call for each name.
#[inline(always)]
fn good_plain(tag: u8, content: &[u8]) -> bool
    requires { tag ≡ 0xA0 → ⊥ }
    ensures { result ≡ is_some (read_name (raw tag content.now)) }
{
    is_sealed_tag(tag) || matches!(tag, 0x81 | 0x82 | 0x86) && ascii(content)
}

// Whether a GeneralName is readable. Those of a subtree ask `good_plain`, so that the compiler writes this into the one loop that calls it.
pub fn good_name(s: &[u8], tag: u8, start: usize, end: usize) -> bool
    requires start_le_end { start ≤ end }
    requires end_in_bounds { end ≤ length s.now }
    ensures { result ≡ good_name_at s.now tag start end }
{
    if tag == 0xA0 {
        return good_other(s, start, end);
    }
    good_plain(tag, &s[start..end])
}

// The rules of an otherName in a subtree: "An SRVName here has one of three texts".
#[tactic(auto, using(crate::proofs::Laws::restrictions))]
fn good_other_subtree(s: &[u8], start: usize, end: usize) -> bool
    requires start_le_end { start ≤ end }
    requires end_in_bounds { end ≤ length s.now }
    ensures { result ≡ good_subtree_name_at s.now 0xA0 start end }
{
    let Ok(name) = other_name(s, start, end) else {
        return false;
    };
    name.kind != SRV_NAME
        || good_srv(name.tag, &s[name.text..end]) && restriction(&s[name.text..end])
}

// The GeneralName of a subtree. Of a dNSName: "an empty text contains every name; any other text must be a domain, else 5". A domain is
// below 128 in every byte.
fn good_subtree_name(s: &[u8], tag: u8, start: usize, end: usize) -> bool
    requires start_le_end { start ≤ end }
    requires end_in_bounds { end ≤ length s.now }
    ensures { result ≡ good_subtree_name_at s.now tag start end }
{
    if tag == 0xA0 {
        return good_other_subtree(s, start, end);
    }
    if tag == 0x82 {
        return dns_restriction(&s[start..end]);
    }
    good_plain(tag, &s[start..end])
}

// Whether a subtree is readable.
#[tactic(auto, using(crate::proofs::Laws::good_subtrees))]
pub fn good_subtree(s: &[u8], tag: u8, start: usize, end: usize) -> bool
    requires start_le_end { start ≤ end }
    requires end_in_bounds { end ≤ length s.now }
    ensures { result ≡ good_subtree_at s.now tag start end }
{
    if tag != 0x30 {
        return false;
    }
    let Ok(name) = read_element(s, start, end) else {
        return false;
    };
    name.next == end && good_subtree_name(s, name.tag, name.start, end)
}

// Where the text of an SRVName starts, of an otherName whose length is not in short form.
fn other_text(s: &[u8], at: usize, end: usize) -> Option<usize>
    requires at_bound { at + 2 ≤ end }
    requires end_in_bounds { end ≤ length s.now }
    requires end_value { is_some (whole_at s.now at end) ≡ true }
    requires at_value { get_or s.now at 0 ≡ 0xA0 }
    ensures { result ≡ text_place srv_text s.now at end }
{
    let start = content_start(s, at, end);
    let Ok(name) = other_name(s, start, end) else {
        return None;
    };
    if name.kind != SRV_NAME {
        return None;
    }
    Some(name.text)
}

// Where the text of an SRVName starts, of the GeneralName that stands from `at` to `end` and has been validated; none where it is another
// name. Where its length is in short form, so are all lengths in it, and each part has its own place: A0, the length, 06, 8, the OID, A0,
// the length, the tag, the length, the text. It is written into the loops that hold names against references or subtrees.
#[inline(always)]
pub fn srv_place(s: &[u8], at: usize, end: usize) -> Option<usize>
    requires at_bound { at + 2 ≤ end }
    requires end_in_bounds { end ≤ length s.now }
    requires end_value { is_some (whole_at s.now at end) ≡ true }
    ensures { result ≡ text_place srv_text s.now at end }
{
    if s[at] != 0xA0 {
        return None;
    }
    if end - at < 16 {
        return None;
    }
    if 128 <= s[at + 1] {
        return other_text(s, at, end);
    }
    if s[at + 3] == 8 && is_srv_oid(&s[at + 4..at + 12]) {
        return Some(at + 16);
    }
    None
}

// The same of a name whose tag says what it is: 82 a dNSName, 86 a URI.
pub fn tagged_place(s: &[u8], at: usize, end: usize, tag: u8) -> Option<usize>
    requires at_bound { at + 2 ≤ end }
    requires end_in_bounds { end ≤ length s.now }
    requires end_value { is_some (whole_at s.now at end) ≡ true }
    requires fact { tag ≡ 0xA0 → ⊥ }
    ensures { result ≡ text_place (tagged_text tag) s.now at end }
{
    if s[at] != tag {
        return None;
    }
    Some(content_start(s, at, end))
}

// The same of a name of a form that constraints restrict. Nothing is judged again.
pub fn form_text(s: &[u8], at: usize, end: usize, form: NameForm) -> Option<usize>
    requires at_bound { at + 2 ≤ end }
    requires end_in_bounds { end ≤ length s.now }
    requires end_value { is_some (whole_at s.now at end) ≡ true }
    ensures { result ≡ text_place (form_of form).text s.now at end }
{
    match form {
        NameForm::Srv => srv_place(s, at, end),
        NameForm::Dns => tagged_place(s, at, end, 0x82),
    }
}

// Where the text of an SRVName starts as a number: past the end where the name is another.
pub fn srv_text(s: &[u8], at: usize, end: usize) -> usize
    requires at_bound { at + 2 ≤ end }
    requires end_in_bounds { end ≤ length s.now }
    requires end_value { is_some (whole_at s.now at end) ≡ true }
    ensures { result ≡ text_start end (text_place srv_text s.now at end) }
{
    srv_place(s, at, end).unwrap_or(end + 1)
}

// The same of a name whose tag says what it is.
pub fn tagged_text(s: &[u8], at: usize, end: usize, tag: u8) -> usize
    requires at_bound { at + 2 ≤ end }
    requires end_in_bounds { end ≤ length s.now }
    requires end_value { is_some (whole_at s.now at end) ≡ true }
    requires fact { tag ≡ 0xA0 → ⊥ }
    ensures { result ≡ text_start end (text_place (tagged_text tag) s.now at end) }
{
    tagged_place(s, at, end, tag).unwrap_or(end + 1)
}

// The same of a name of a form, by the form's kind in the listing: 9 an SRVName, else a dNSName.
pub fn name_text(s: &[u8], at: usize, end: usize, kind: usize) -> usize
    requires at_bound { at + 2 ≤ end }
    requires end_in_bounds { end ≤ length s.now }
    requires end_value { is_some (whole_at s.now at end) ≡ true }
    ensures { result ≡ text_start end (text_place (form_of (form_by kind)).text s.now at end) }
{
    form_text(s, at, end, NameForm::from(kind)).unwrap_or(end + 1)
}
