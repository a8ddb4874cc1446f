// DNS-IDs: whether a text is one, whether it matches the domain of a reference, and the dNSName restrictions of name constraints.
#![tactic(auto)]

ghost use Rattle.std.specs.Prelude.{◌≡◌, true, false, [], ◌∷◌, drop, MatchOption};
ghost use Rattle.rules.specs.Bytes.{begins};
ghost use Rattle.rules.specs.Names.{star, dot, domain, dns_id, dns_matches, dns_restriction, dns_within, dns_reaches};
ghost use Rattle.dns.specs.Wildcard.{wild_domain, past_first, wild_matches};

use octets::Dotted;

// What stands past the "*." that a text begins with.
pub fn past_star(s: &[u8]) -> Option<&[u8]>
    ensures { MatchOption result (begins (star ∷ dot ∷ []) s.now ≡ false) (λ t. (begins (star ∷ dot ∷ []) s.now ≡ true) × (t.now ≡ drop 2 s.now)) }
{
    match s {
        [b'*', b'.', t @ ..] => Some(t),
        _ => None,
    }
}

// Whether a text begins with "*.".
pub fn begins_wild(s: &[u8]) -> bool
    ensures { result ≡ begins (star ∷ dot ∷ []) s.now }
{
    past_star(s).is_some()
}

// Whether t is a domain that may stand past "*.": "at most 253 bytes in all", and "a wildcard needs at least two labels after it",
// with a dot between them.
#[tactic(auto, using(names::proofs::Labels::two_labels_lem), unfolding(crate::specs::Wildcard::wild_domain))]
fn wild_domain(t: &[u8]) -> bool
    ensures { result ≡ wild_domain t.now }
{
    t.len() <= 251 && names::domain(t) && octets::has(t, b'.')
}

// Whether a text is one label and then t: as many bytes at its end as t has are compared, up to the first that differs, and the dot
// before them is its first.
fn past_first(text: &[u8], t: &[u8]) -> bool
    ensures { result ≡ past_first text.now t.now }
{
    if text.len() <= t.len() {
        return false;
    }
    let at = text.len() - t.len() - 1;
    text[at] == b'.' && octets::same_text(t, &text[at + 1..]) && octets::find(text, b'.') == at
}

// "DNS-ID: a dNSName that is a domain, or `*.` and a domain (at most 253 bytes in all)."
#[tactic(auto, using(crate::proofs::Matching::wild_id, crate::proofs::Matching::plain_id))]
pub fn dns_id(s: &[u8]) -> bool
    ensures { result ≡ dns_id s.now }
{
    match past_star(s) {
        Some(t) => wild_domain(t),
        None => names::domain(s),
    }
}

// Whether a presented text is a DNS-ID and matches the reference: "`*` stands for exactly one whole label of the
// reference". The comparison comes first, and a text that differs is not looked at again.
#[tactic(auto, using(crate::proofs::Matching::wild_matches_lem, crate::proofs::Matching::plain_matches), unfolding(crate::specs::Wildcard::wild_matches))]
pub fn dns_matches(reference: &[u8], text: &[u8]) -> bool
    ensures { result ≡ dns_matches reference.now text.now }
{
    match past_star(text) {
        Some(t) => past_first(reference, t) && wild_domain(t),
        None => octets::same_text(text, reference) && names::domain(text),
    }
}

// Whether `*.` and a text is a DNS-ID that matches a reference, which is a domain. Lengths come first. A text that is what stands past the
// first dot of a domain is a domain itself, and short enough; that it has two labels must be asked.
fn wild_matches(reference: Dotted<'_>, rest: &[u8]) -> bool
    requires { domain reference.text.now ≡ true }
    ensures { result ≡ wild_matches reference.entry.text.now rest.now }
{
    reference.text.len() - reference.dot == rest.len() + 1
        && octets::same_text(rest, &reference.text[reference.dot + 1..])
        && octets::has(rest, b'.')
}

// Whether a presented text is a DNS-ID and matches a reference, which is a domain. A text that is a domain without case is one, and is not
// looked at again.
#[tactic(auto, using(crate::proofs::Matching::wild_matches_lem, crate::proofs::Known::known_plain))]
pub fn domain_matches(reference: Dotted<'_>, text: &[u8]) -> bool
    requires { domain reference.text.now ≡ true }
    ensures { result ≡ dns_matches reference.entry.text.now text.now }
{
    match past_star(text) {
        Some(rest) => wild_matches(reference, rest),
        None => octets::same_early(text, reference.text),
    }
}

// "an empty text contains every name; any other text must be a domain, else 5"
#[tactic(auto, using(crate::proofs::Subtrees::restriction_empty, crate::proofs::Subtrees::restriction_domain))]
pub fn dns_restriction(s: &[u8]) -> bool
    ensures { result ≡ dns_restriction s.now }
{
    s.is_empty() || names::domain(s)
}

// Whether a name lies in a dNSName subtree: "zero or more labels added on the left".
#[tactic(auto, using(crate::proofs::Subtrees::within_every, crate::proofs::Subtrees::within_some))]
pub fn dns_within(subtree: &[u8], name: &[u8]) -> bool
    ensures { result ≡ dns_within subtree.now name.now }
{
    subtree.is_empty() || names::domain_within(subtree, name)
}

// Whether a DNS-ID breaks an excluded dNSName subtree: it lies there, or it is a wildcard and the subtree is "one label and
// then the text after `*.`".
#[tactic(auto, using(crate::proofs::Subtrees::reaches_wild, crate::proofs::Subtrees::reaches_plain), unfolding(rules::specs::Names::dns_reaches))]
pub fn dns_reaches(subtree: &[u8], name: &[u8]) -> bool
    requires { dns_id name.now ≡ true }
    ensures { result ≡ dns_reaches subtree.now name.now }
{
    dns_within(subtree, name) || past_star(name).is_some_and(|t| past_first(subtree, t))
}
