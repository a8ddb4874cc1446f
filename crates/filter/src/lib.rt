// A filter before the search for the first pair: the keys of a SAN's dNSNames, noted in a table in one walk, so that a reference that no
// dNSName can match is not held against each of them.
#![tactic(auto, using(crate::proofs::Laws::laws))]

ghost use Rattle.std.specs.Prelude.{◌+◌, ◌≤◌, ◌<◌, ◌^◌, ◌%◌, ◌≡◌, true, length};
ghost use Rattle.reading.specs.Strings.{read_name, read_san};
ghost use Rattle.der.specs.Runs.{Run, validated, names_of, items_in};
ghost use Rattle.filter.specs.Keys.{keys, byte_at, word_at, sum_of, key_of, noted_text, has, has_all, may_match};

use der::{element_end, read_element};
use dns::begins_wild;
use entries::tagged_place;
use octets::Dotted;
use words::{long, word};

// How many keys there are, and the bytes of a table with a bit for each.
const KEYS: u64 = 16384;

pub const TABLE_SIZE: usize = 2048;

// The bit of the case in each of eight bytes.
const CASE: u64 = 0x2020202020202020;

// A byte without case.
fn byte_at(s: &[u8], i: usize) -> u64
    requires { i < length s.now }
    ensures { (result ≡ byte_at s.now i) × (result < 256) }
{
    long(s[i] | 0x20)
}

// Eight bytes without case, one half added to the other.
fn word_at(s: &[u8], at: usize) -> u64
    requires { at + 8 ≤ length s.now }
    ensures { (result ≡ word_at s.now at) × (result < 0x200000000) }
{
    let w = word(s, at) | CASE;
    w % 0x100000000 + w / 0x100000000 % 0x100000000
}

// What the key of a text is made of: enough bytes of its front, and some near its end, that names of one owner differ.
fn sum_of(s: &[u8]) -> u64
    ensures { result ≡ sum_of s.now }
{
    match s.len() {
        0 | 1 => 0,
        n @ 2..=7 => byte_at(s, 0) + byte_at(s, 1) * 0x100 + byte_at(s, n - 1) * 0x10000,
        n @ 8..=15 => word_at(s, 0) + word_at(s, n - 8) * 3,
        n => word_at(s, 0) + word_at(s, 8) * 3 + word_at(s, n - 16) * 5,
    }
}

// The key of a text: texts that are the same without case have the same.
fn key(s: &[u8]) -> usize
    ensures { (result ≡ key_of s.now) × (result < keys) }
{
    let n = sum_of(s);
    (n % 0x100000000 * 0x9E3779B1 / 0x100000 % KEYS) as usize
}

// The key under which a dNSName is noted: of a wildcard that of what stands past "*.".
fn name_key(text: &[u8]) -> usize
    ensures { (result ≡ key_of (noted_text text.now)) × (result < keys) }
{
    if begins_wild(text) {
        key(&text[2..])
    } else {
        key(text)
    }
}

// Whether a key is noted.
fn is_noted(table: &[u8; TABLE_SIZE], k: usize) -> bool
    requires { k < keys }
    ensures { result ≡ has table.now k }
{
    (table[k / 8] >> (k % 8)) % 2 == 1
}

// The bit of a key in its byte.
fn bit(k: usize) -> u8
    ensures { result ≡ 2 ^ (k % 8) }
{
    1 << (k % 8)
}

// The keys of the dNSNames among the entries from `start` to `end` are noted; what is noted already stays.
#[tactic(auto, using(entries::proofs::Steps::steps, entries::proofs::Steps::names, crate::proofs::Laws::walk))]
fn note_in(san: &[u8], start: usize, end: usize, table: &mut [u8; TABLE_SIZE])
    requires { Run read_name san.now start end }
    ensures { has_all table.new (items_in read_name san.now start end) ≡ true }
{
    let mut at = start;
    while at < end {
        let next = element_end(san, at, end);
        if let Some(text) = tagged_place(san, at, next, 0x82) {
            let k = name_key(&san[text..next]);
            table[k / 8] |= bit(k);
        }
        at = next;
    }
}

// The keys of a SAN's dNSNames are noted, in one walk.
#[tactic(auto, using(crate::proofs::Laws::whole))]
pub fn note(san: &[u8], table: &mut [u8; TABLE_SIZE])
    requires { validated read_san san.now ≡ true }
    ensures { has_all table.new (names_of read_san san.now) ≡ true }
{
    if let Ok(element) = read_element(san, 0, san.len()) {
        note_in(san, element.start, san.len(), table);
    }
}

// Whether a dNSName that is noted may match the domain of a reference.
#[tactic(auto, using(crate::proofs::Laws::laws, octets::proofs::Place::rest_after))]
pub fn may_match(table: &[u8; TABLE_SIZE], domain: Dotted<'_>) -> bool
    ensures { result ≡ may_match table.now domain.entry.text.now }
{
    is_noted(table, key(domain.text))
        || domain
            .past_dot()
            .is_some_and(|rest| is_noted(table, key(rest)))
}
