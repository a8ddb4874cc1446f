// SRV-IDs, what they match, and the SRVName restrictions of name constraints.
#![tactic(auto)]

ghost use Rattle.std.specs.Prelude.{◌≡◌, true, false, [], ◌∷◌, ◌<◌, length, drop, MatchOption};
ghost use Rattle.rules.specs.Bytes.{any, begins};
ghost use Rattle.rules.specs.Names.{dot, is, underscore, same_text, service_of, srv_id, srv_matches, in_subtree};
ghost use Rattle.rules.specs.Names as rules;
ghost use Rattle.srv.specs.Parts.{srv_parts, parts_match};

use octets::Dotted;

// What stands past the underscore that a text begins with.
fn past_underscore(s: &[u8]) -> Option<&[u8]>
    ensures { MatchOption result (begins (underscore ∷ []) s.now ≡ false) (λ rest. (begins (underscore ∷ []) s.now ≡ true) × (rest.now ≡ drop 1 s.now)) }
{
    match s {
        [b'_', rest @ ..] => Some(rest),
        _ => None,
    }
}

// Whether a service, a dot and a domain follow the underscore.
#[tactic(auto, using(crate::proofs::Prefixed::domain_none, octets::proofs::Place::rest_after), unfolding(crate::specs::Parts::srv_parts))]
fn parts(rest: Dotted<'_>) -> bool
    ensures { result ≡ srv_parts rest.entry.text.now }
{
    names::service(rest.first_label()) && rest.past_dot().is_some_and(names::domain)
}

// "SRV-ID: "_", a service .., ".", a domain without wildcard."
#[tactic(auto, using(crate::proofs::Prefixed::srv_bare, crate::proofs::Prefixed::srv_underscored))]
pub fn srv_id(s: &[u8]) -> bool
    ensures { result ≡ srv_id s.now }
{
    past_underscore(s).is_some_and(|rest| parts(Dotted::new(rest)))
}

// "An SRVName here has one of three texts: `_service`, `_service.domain`, `domain`."
#[tactic(auto, using(crate::proofs::Prefixed::restriction_bare, crate::proofs::Prefixed::restriction_is, octets::proofs::Place::rest_after))]
pub fn restriction(s: &[u8]) -> bool
    ensures { result ≡ rules.restriction s.now }
{
    match past_underscore(s) {
        Some(rest) => {
            let rest = Dotted::new(rest);
            names::service(rest.first_label()) && rest.past_dot().is_none_or(names::domain)
        }
        None => names::domain(s),
    }
}

// Whether what follows the underscore is the service and the domain of a reference, with the dot in the place that the service leaves. A
// text that is a service or a domain without case is one, and is not looked at again.
fn parts_match(service: &[u8], domain: &[u8], rest: &[u8]) -> bool
    requires service_value { rules.service service.now ≡ true }
    requires domain_value { rules.domain domain.now ≡ true }
    requires service_in_bounds { length service.now < length rest.now }
    ensures { result ≡ parts_match service.now domain.now rest.now }
{
    let n = service.len();
    rest[n] == b'.'
        && octets::same_text(&rest[..n], service)
        && octets::same_text(&rest[n + 1..], domain)
}

// "Service or scheme and domain must both match, without case": of a reference whose service and domain are good. Lengths come first.
pub fn service_matches(service: &[u8], domain: &[u8], text: &[u8]) -> bool
    requires service_value { rules.service service.now ≡ true }
    requires domain_value { rules.domain domain.now ≡ true }
    ensures { result ≡ srv_matches service.now domain.now text.now }
{
    let n = service.len() + 2;
    n <= text.len()
        && text.len() - n == domain.len()
        && text[0] == b'_'
        && parts_match(service, domain, &text[1..])
}

// The same of any reference: one whose service or domain is not good matches nothing.
#[tactic(auto, using(crate::proofs::Match::match_no_service, crate::proofs::Match::match_no_domain))]
pub fn srv_matches(service: &[u8], domain: &[u8], text: &[u8]) -> bool
    ensures { result ≡ srv_matches service.now domain.now text.now }
{
    names::service(service) && names::domain(domain) && service_matches(service, domain, text)
}

// Whether a service without a dot is the one that an SRVName gives.
fn service_is(service: &[u8], name: &[u8]) -> bool
    requires { any (is dot) service.now ≡ false }
    ensures { result ≡ same_text service.now (service_of name.now) }
{
    let n = service.len();
    let Some((_, rest)) = name.split_first() else {
        return n == 0;
    };
    n <= rest.len()
        && octets::same_text(service, &rest[..n])
        && (rest.len() == n || rest[n] == b'.')
}

// "It lies in a subtree if the service is equal, without case, where one is given, and the subtree's labels are the last
// labels of its domain where a domain is given." The name is an SRV-ID: a subtree with its service has its own first dot where the name
// has it, or ends there. The domain is compared first, as it differs more often. It is asked of each subtree, and marked so that the compiler
// writes it into those loops.
#[inline(always)]
pub fn in_subtree(subtree: &[u8], name: Dotted<'_>) -> bool
    requires { srv_id name.text.now ≡ true }
    ensures { result ≡ in_subtree subtree.now name.entry.text.now }
{
    let first = name.dot;
    let domain = &name.text[first + 1..];
    if past_underscore(subtree).is_none() {
        return names::domain_within(subtree, domain);
    }
    let service = &name.text[1..first];
    if subtree.len() <= first {
        return service_is(service, subtree);
    }
    subtree[first] == b'.'
        && names::domain_within(&subtree[first + 1..], domain)
        && service_is(service, subtree)
}
