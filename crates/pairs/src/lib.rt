// The first pair of a reference and a presented identifier that match: lowest reference, then lowest name.
#![tactic(auto, using(crate::proofs::Laws::laws))]

ghost use Rattle.std.specs.Prelude.{◌+◌, ◌≤◌, ◌<◌, ◌/◌, ◌≡◌, true, length, drop, MatchOption, ⊤};
ghost use Rattle.rules.specs.Bytes.{part};
ghost use Rattle.rules.specs.Numbers.{record_size, cn_kind, kind_number};
ghost use Rattle.rules.specs.Records.{reference, good_records, references_of};
ghost use Rattle.rules.specs.Matching.{presented_to, text_matches, first_pair};
ghost use Rattle.rules.specs.declared.Kind.TheVariants.{Cn};
ghost use Rattle.reading.specs.Strings.{read_san, read_subject};
ghost use Rattle.der.specs.Runs.{validated, names_of};
ghost use Rattle.pairs.specs.Pairs.{witness_at, found_for, found_between, held_by, first_entry, Filters, HeldFits, SetFits};

use der::element_end;
use filter::{TABLE_SIZE, may_match, note};
use presented::{Identifier, first_set, names_start, set_at, shown, text_for};
use records::{Reference, reference_at};
use rules::{Kind, Place, RECORD_SIZE, Witness};

// Whether a text matches a reference. "A reference matches only its own kind". What is the same as a part of a good reference is not
// judged again.
fn text_matches(r: &Reference<'_>, text: &[u8]) -> bool
    ensures { result ≡ text_matches (reference (kind_number r.now.kind) r.now.service.now r.now.domain.text.now) text.now }
{
    match r.kind {
        Kind::Srv => srv::service_matches(r.service, r.domain.text, text),
        Kind::Uri => uri::scheme_matches(r.service, r.domain.text, text),
        Kind::Dns | Kind::Cn => dns::domain_matches(r.domain, text),
    }
}

// The text at a place.
fn text_at(s: &[u8], text: Place) -> &[u8]
    requires { text.start + text.length ≤ length s.now }
    ensures { result.now ≡ part s.now text.start text.length }
{
    &s[text.start..text.start + text.length]
}

// The witness of an identifier, which is the j-th of its string.
fn witness(i: usize, j: usize, identifier: Identifier, subject: bool) -> Witness
    ensures { result ≡ witness_at i j identifier subject }
{
    Witness {
        reference: i,
        presented: j,
        element: identifier.element,
        text: identifier.text,
        subject,
    }
}

// The first set that a CN reference matches, which is the i-th.
#[tactic(auto, using(crate::proofs::Search::set_laws_lem))]
fn first_cn(i: usize, r: &Reference<'_>, san: &[u8], subject: &[u8]) -> Option<Witness>
    requires r_value { r.now.kind ≡ Cn }
    requires san_value { validated read_san san.now ≡ true }
    requires subject_value { validated read_subject subject.now ≡ true }
    ensures value { result ≡ held_by (found_for i (reference cn_kind r.now.service.now r.now.domain.text.now) (presented_to cn_kind (names_of read_san san.now) (names_of read_subject subject.now))) }
    ensures held_fits { MatchOption result ⊤ (λ w. SetFits i subject.now w) }
{
    let mut at = first_set(san, subject);
    let mut j: usize = 0;
    while at < subject.len() {
        let set = set_at(subject, at);
        if let Some(identifier) = set.identifier
            && dns::dns_matches(r.domain.text, text_at(subject, identifier.text))
        {
            return Some(witness(i, j, identifier, true));
        }
        at = set.next;
        j += 1;
    }
    None
}

// Where the entries start that a reference is held against: at the SAN's end, where a table of the dNSNames' keys says that a DNS
// reference matches none of them.
fn first_entry(
    table: Option<&[u8; TABLE_SIZE]>,
    r: &Reference<'_>,
    start: usize,
    end: usize,
) -> usize
    ensures { result ≡ first_entry table.entry (kind_number r.now.kind) r.now.domain.text.now start end }
{
    match (table, r.kind) {
        (Some(table), Kind::Dns) if !may_match(table, r.domain) => end,
        _ => start,
    }
}

// The first pair of the references from one index to another: lowest reference, then lowest name.
#[tactic(auto, using(crate::proofs::Search::pair_laws, entries::proofs::Steps::steps, entries::proofs::Steps::names))]
fn first_between(
    references: &[u8],
    from: usize,
    to: usize,
    san: &[u8],
    subject: &[u8],
    table: Option<&[u8; TABLE_SIZE]>,
) -> Option<Witness>
    requires references_value { good_records references.now ≡ true }
    requires from_le_to { from ≤ to }
    requires to_in_bounds { to ≤ length references.now / record_size }
    requires san_value { validated read_san san.now ≡ true }
    requires subject_value { validated read_subject subject.now ≡ true }
    requires filters { Filters table (names_of read_san san.now) }
    ensures value { result ≡ held_by (found_between references.now san.now subject.now from to) }
    ensures held_fits { HeldFits references.now san.now subject.now result }
{
    let start = names_start(san);
    let end = san.len();
    let mut found = None;
    'pairs: for i in from..to {
        let r = reference_at(references, i);
        if let Kind::Cn = r.kind {
            found = first_cn(i, &r, san, subject);
            if found.is_some() {
                break 'pairs;
            }
        } else {
            let mut at = first_entry(table, &r, start, end);
            let mut j: usize = 0;
            while at < end {
                let next = element_end(san, at, end);
                if let Some(text) = text_for(san, at, next, r.kind)
                    && text_matches(&r, &san[text..next])
                {
                    found = Some(witness(i, j, shown(at, text, next), false));
                    break 'pairs;
                }
                at = next;
                j += 1;
            }
        }
    }
    found
}

// The first pair of the references past the first. Most of several references match no name: a DNS reference whose key no dNSName has is
// held against none of them.
#[tactic(auto, using(crate::proofs::Search::other_laws))]
fn first_of_others(references: &[u8], san: &[u8], subject: &[u8]) -> Option<Witness>
    requires references_value { good_records references.now ≡ true }
    requires san_value { validated read_san san.now ≡ true }
    requires subject_value { validated read_subject subject.now ≡ true }
    ensures value { result ≡ held_by (first_pair 1 (drop 1 (references_of references.now)) (names_of read_san san.now) (names_of read_subject subject.now)) }
    ensures held_fits { HeldFits references.now san.now subject.now result }
{
    let n = references.len() / RECORD_SIZE;
    if n < 2 {
        return None;
    }
    let mut table = [0; TABLE_SIZE];
    note(san, &mut table);
    first_between(references, 1, n, san, subject, Some(&table))
}

// "the pair reported is the first: lowest reference, then lowest name"
#[tactic(auto, using(crate::proofs::Search::whole_laws))]
pub fn first_pair(references: &[u8], san: &[u8], subject: &[u8]) -> Option<Witness>
    requires references_value { good_records references.now ≡ true }
    requires san_value { validated read_san san.now ≡ true }
    requires subject_value { validated read_subject subject.now ≡ true }
    ensures value { result ≡ held_by (first_pair 0 (references_of references.now) (names_of read_san san.now) (names_of read_subject subject.now)) }
    ensures held_fits { HeldFits references.now san.now subject.now result }
{
    first_between(references, 0, 1, san, subject, None).or_else(|| first_of_others(
        references, san, subject,
    ))
}
