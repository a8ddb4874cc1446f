// URI-IDs, and what they match.
#![tactic(auto)]

ghost use Rattle.std.specs.Prelude.{◌≡◌, true, false, [], ◌∷◌, ◌≤◌, length, drop, MatchOption};
ghost use Rattle.rules.specs.Bytes.{before, begins};
ghost use Rattle.rules.specs.Names.{slash, uri_id, uri_matches};
ghost use Rattle.rules.specs.Names as rules;
ghost use Rattle.uri.specs.Parts as spec;

// What stands past the "//" that a text begins with.
fn past_slashes(s: &[u8]) -> Option<&[u8]>
    ensures { MatchOption result (begins (slash ∷ slash ∷ []) s.now ≡ false) (λ rest. (begins (slash ∷ slash ∷ []) s.now ≡ true) × (rest.now ≡ drop 2 s.now)) }
{
    match s {
        [b'/', b'/', rest @ ..] => Some(rest),
        _ => None,
    }
}

// Whether a byte is "/", "?", "#" or b.
#[inline(always)]
#[tactic(auto, unfolding(crate::specs::Parts::stops, rules::specs::Names::authority_end))]
fn stops(b: u8, x: u8) -> bool
    ensures { result ≡ spec.stops b x }
{
    matches!(x, b'/' | b'?' | b'#') || x == b
}

// The index of the first "/", "?", "#" or b, or the length where there is none. Written into its callers, where b is known, four tests are
// one test of a bit.
#[inline(always)]
fn stop(s: &[u8], b: u8) -> usize
    ensures { (result ≡ length (before (spec.stops b) s.now)) × (result ≤ length s.now) }
{
    s.iter().position(|x| stops(b, *x)).unwrap_or(s.len())
}

// "an authority up to the first "/", "?", "#" or the end: optionally a text (perhaps empty) without "@" and then "@": what
// is left of it past that "@".
fn host_and_port(rest: &[u8]) -> &[u8]
    ensures { result.now ≡ spec.host_port rest.now }
{
    let n = stop(rest, b'@');
    match rest.get(n) {
        Some(b'@') => {
            let host = &rest[n + 1..];
            &host[..stop(host, b'/')]
        }
        _ => &rest[..n],
    }
}

// What is left of an authority past its "@", where one stands past the "//" that a text begins with.
fn host_in(tail: &[u8]) -> Option<&[u8]>
    ensures { MatchOption result (begins (slash ∷ slash ∷ []) tail.now ≡ false) (λ h. (begins (slash ∷ slash ∷ []) tail.now ≡ true) × (h.now ≡ spec.host_port (drop 2 tail.now))) }
{
    past_slashes(tail).map(host_and_port)
}

// "a domain, optionally ":" and digits or nothing"
fn hosted(h: &[u8]) -> bool
    ensures { result ≡ spec.hosted h.now }
{
    let n = octets::find(h, b':');
    names::domain(&h[..n]) && (n == h.len() || octets::digits(&h[n + 1..]))
}

// "URI-ID: a scheme as in a record, "://", then an authority"
pub fn uri_id(s: &[u8]) -> bool
    ensures { result ≡ uri_id s.now }
{
    let n = octets::find(s, b':');
    n < s.len() && names::scheme(&s[..n]) && host_in(&s[n + 1..]).is_some_and(hosted)
}

// Whether the host is the domain of a reference, with nothing or a port after it. A text that is a domain without case is one, and is not
// looked at again.
fn host_matches(domain: &[u8], h: &[u8]) -> bool
    requires { rules.domain domain.now ≡ true }
    ensures { result ≡ spec.host_matches domain.now h.now }
{
    let n = domain.len();
    n <= h.len()
        && octets::same_text(&h[..n], domain)
        && (n == h.len() || (h[n] == b':' && octets::digits(&h[n + 1..])))
}

// "Service or scheme and domain must both match, without case": of a reference whose scheme and domain are good. The lengths leave one
// place for the colon, and a text with no room for the domain past "://" is left before its host is sought.
pub fn scheme_matches(scheme: &[u8], domain: &[u8], text: &[u8]) -> bool
    requires scheme_value { rules.scheme scheme.now ≡ true }
    requires domain_value { rules.domain domain.now ≡ true }
    ensures { result ≡ uri_matches scheme.now domain.now text.now }
{
    let n = scheme.len();
    n < text.len()
        && domain.len() + 2 < text.len() - n
        && text[n] == b':'
        && octets::same_text(&text[..n], scheme)
        && host_in(&text[n + 1..]).is_some_and(|h| host_matches(domain, h))
}

// The same of any reference: one whose scheme or domain is not good matches nothing.
#[tactic(auto, using(crate::proofs::Uri::match_no_scheme, crate::proofs::Uri::match_no_domain))]
pub fn uri_matches(scheme: &[u8], domain: &[u8], text: &[u8]) -> bool
    ensures { result ≡ uri_matches scheme.now domain.now text.now }
{
    names::scheme(scheme) && names::domain(domain) && scheme_matches(scheme, domain, text)
}
