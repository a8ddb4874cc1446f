// The identifiers that a certificate presents: the text of a SAN entry, and what an RDN set of the subject presents. The strings were
// found readable before; all that is judged again here is an attribute, for its kind and the place of its value.
#![tactic(auto, using(crate::proofs::Laws::laws))]

ghost use Rattle.std.specs.Prelude.{◌+◌, ◌≤◌, ◌<◌, ◌≡◌, true, length};
ghost use Rattle.rules.specs.Bytes.{any};
ghost use Rattle.rules.specs.Numbers.{kind_number};
ghost use Rattle.rules.specs.Matching.{entry_text, blocks_cn, if_some};
ghost use Rattle.reading.specs.Reader.{is_some};
ghost use Rattle.reading.specs.Strings.{read_san, read_attribute, read_set};
ghost use Rattle.der.specs.Places.{element_at, found?};
ghost use Rattle.der.specs.Reads.{Read};
ghost use Rattle.der.specs.Runs.{Run, validated, names_of, content_start};
ghost use Rattle.entries.specs.Entries.{whole_at, text_place, text_start};
ghost use Rattle.presented.specs.Presented.{shown_at, attribute_at, with_cn, sole, set_at, first_set};

use der::{Element, element_end, read_element};
use entries::{OTHER_CN, TEXT_CN, attribute, srv_place, tagged_place};
use rules::{Kind, Place};

// An identifier: where its DER element lies, of a CN the attribute's SEQUENCE, and where its text lies.
#[derive(Clone, Copy)]
pub struct Identifier {
    pub element: Place,
    pub text: Place,
}

// An RDN set, as CN references meet it: what it presents to them, and where the next set starts.
#[derive(Clone, Copy)]
pub struct Entry {
    pub identifier: Option<Identifier>,
    pub next: usize,
}

// What an attribute is to its set.
#[derive(Clone, Copy)]
enum Role {
    // A CN, with what it presents if it is the only one of the set: nothing, where its tag is not 0C, 13 or 16.
    Cn(Option<Identifier>),
    Other,
}

// An attribute, and where the next starts.
#[derive(Clone, Copy)]
struct Typed {
    role: Role,
    next: usize,
}

// The CNs of a set: none; one, with what it presents; or more.
#[derive(Clone, Copy)]
enum Cns {
    Zero,
    One(Option<Identifier>),
    More,
}

impl Cns {
    // The CNs of a set, with one attribute more.
    #[tactic(auto, unfolding(crate::specs::Presented::with_cn))]
    fn with(self, role: Role) -> Cns
        ensures { result ≡ with_cn self role }
    {
        match (self, role) {
            (cns, Role::Other) => cns,
            (Cns::Zero, Role::Cn(alone)) => Cns::One(alone),
            (_, Role::Cn(_)) => Cns::More,
        }
    }

    // "in a set that has exactly one CN attribute, whatever the tags"
    #[tactic(auto, unfolding(crate::specs::Presented::sole))]
    fn sole(self) -> Option<Identifier>
        ensures { result ≡ sole self }
    {
        match self {
            Cns::One(alone) => alone,
            Cns::Zero | Cns::More => None,
        }
    }
}

// The identifier whose element starts at `at` and whose text starts at `text`: both end at `next`.
pub fn shown(at: usize, text: usize, next: usize) -> Identifier
    requires at_le_next { at ≤ next }
    requires text_le_next { text ≤ next }
    ensures { result ≡ shown_at at text next }
{
    Identifier {
        element: Place {
            start: at,
            length: next - at,
        },
        text: Place {
            start: text,
            length: next - text,
        },
    }
}

// The element at a place where one is known to be.
#[tactic(auto, using(crate::proofs::Laws::reading))]
fn known_element(s: &[u8], at: usize, end: usize) -> Element
    requires at_le_end { at ≤ end }
    requires end_in_bounds { end ≤ length s.now }
    requires end_value { found? (element_at s.now at end) ≡ true }
    ensures { Read s.now at end result.tag result.start result.next }
{
    read_element(s, at, end).unwrap()
}

// The attribute at a place of a set that ends at `end`.
#[tactic(auto, using(crate::proofs::Laws::attributes))]
fn attribute_at(s: &[u8], at: usize, end: usize) -> Typed
    requires at_lt_end { at < end }
    requires run { Run read_attribute s.now at end }
    ensures { result ≡ attribute_at s.now at end }
{
    let Element { tag, start, next } = known_element(s, at, end);
    let role = match attribute(s, tag, start, next) {
        Ok(name) if name.kind == TEXT_CN => Role::Cn(Some(shown(at, name.text, next))),
        Ok(name) if name.kind == OTHER_CN => Role::Cn(None),
        _ => Role::Other,
    };
    Typed { role, next }
}

// "CN-ID: .. the value of an attribute of type CN, tag 0C, 13 or 16, in a set that has exactly one CN attribute, whatever the tags."
#[tactic(auto, using(crate::proofs::Laws::sets))]
pub fn set_at(subject: &[u8], at: usize) -> Entry
    requires at_in_bounds { at < length subject.now }
    requires run { Run read_set subject.now at (length subject.now) }
    ensures { result ≡ set_at subject.now at }
{
    let set = known_element(subject, at, subject.len());
    let mut cns = Cns::Zero;
    let mut p = set.start;
    while p < set.next {
        let a = attribute_at(subject, p, set.next);
        cns = cns.with(a.role);
        p = a.next;
    }
    Entry {
        identifier: cns.sole(),
        next: set.next,
    }
}

// Where the first entry or set of a validated string stands; 0 in an absent string.
pub fn names_start(s: &[u8]) -> usize
    ensures { result ≡ content_start s.now }
{
    match read_element(s, 0, s.len()) {
        Ok(element) => element.start,
        Err(_) => 0,
    }
}

// Where the text starts that the SAN entry from `at` to `end` presents to references of a kind. "A reference matches only its own kind."
// It is written into the loop that holds names against a reference, which is faster than a call for each name.
#[inline(always)]
pub fn text_for(san: &[u8], at: usize, end: usize, kind: Kind) -> Option<usize>
    requires at_bound { at + 2 ≤ end }
    requires end_in_bounds { end ≤ length san.now }
    requires end_value { is_some (whole_at san.now at end) ≡ true }
    ensures { result ≡ text_place (entry_text (kind_number kind)) san.now at end }
{
    match kind {
        Kind::Dns => tagged_place(san, at, end, 0x82),
        Kind::Srv => srv_place(san, at, end),
        Kind::Uri => tagged_place(san, at, end, 0x86),
        Kind::Cn => None,
    }
}

// The same as a number, by the number of the kind in a record: past the end where the entry presents no text. Another number is no kind's,
// and nothing is presented to it.
#[tactic(auto, using(entries::proofs::Whole::as_number, crate::proofs::Entries::text_of_kind, crate::proofs::Entries::text_of_no_kind))]
pub fn entry_text(san: &[u8], at: usize, end: usize, kind: u8) -> usize
    requires at_bound { at + 2 ≤ end }
    requires end_in_bounds { end ≤ length san.now }
    requires end_value { is_some (whole_at san.now at end) ≡ true }
    ensures { result ≡ text_start end (text_place (entry_text kind) san.now at end) }
{
    let Ok(kind) = Kind::try_from(kind) else {
        return end + 1;
    };
    text_for(san, at, end, kind).unwrap_or(end + 1)
}

// Whether an entry of the SAN keeps CN references from counting: it is presented to references of some kind, "readable as a name or not".
#[tactic(auto, using(crate::proofs::Laws::blocking))]
fn blocks(san: &[u8], at: usize, end: usize) -> bool
    requires at_bound { at + 2 ≤ end }
    requires end_in_bounds { end ≤ length san.now }
    requires end_value { is_some (whole_at san.now at end) ≡ true }
    ensures { result ≡ if_some (whole_at san.now at end) blocks_cn }
{
    text_for(san, at, end, Kind::Dns).is_some()
        || text_for(san, at, end, Kind::Uri).is_some()
        || text_for(san, at, end, Kind::Srv).is_some()
}

// Whether any does.
#[tactic(auto, using(entries::proofs::Steps::steps, entries::proofs::Steps::names, crate::proofs::Laws::walk))]
fn blocks_cn(san: &[u8]) -> bool
    requires { validated read_san san.now ≡ true }
    ensures { result ≡ any blocks_cn (names_of read_san san.now) }
{
    let end = san.len();
    let mut at = names_start(san);
    while at < end {
        let next = element_end(san, at, end);
        if blocks(san, at, next) {
            return true;
        }
        at = next;
    }
    false
}

// Where the sets start that a CN reference is held against. "CN references count only if the SAN has no entry tagged 82 or 86 and no
// SRVName": if one blocks them, at the subject's end.
pub fn first_set(san: &[u8], subject: &[u8]) -> usize
    requires { validated read_san san.now ≡ true }
    ensures { result ≡ first_set san.now subject.now }
{
    if blocks_cn(san) {
        return subject.len();
    }
    names_start(subject)
}
