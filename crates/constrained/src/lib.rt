// The constraints of all issuers: which entry of a SAN breaks which string first. All strings have been validated, and nothing is judged
// twice: a name and its form are told by their first bytes. One walk serves SRVNames and dNSNames; the form is a parameter. What is marked
// `inline(always)` is compiled once for each form, so that a walk does not ask for the form again at each subtree.
#![tactic(auto)]

ghost use Rattle.std.specs.Prelude.{ℕ, ◌+◌, ◌-◌, ◌≤◌, ◌≡◌, true, false, not, ◌||◌, map, length, IfSome, MatchOption};
ghost use Rattle.std.specs.Iterator.{at_most, YieldsFirstBy};
ghost use Rattle.std.specs.List.{list_any};
ghost use Rattle.std.proofs.Math.Option.{none, some};
ghost use Rattle.std.proofs.Math.Dec.{ltb};
ghost use Rattle.rules.specs.Bytes.{all};
ghost use Rattle.rules.specs.Matching.{breaks_as, breaks, first_broken, first_breach, subtrees_of};
ghost use Rattle.rules.specs.Matching as rules;
ghost use Rattle.rules.specs.Constraints.{permitted, excluded};
ghost use Rattle.reading.specs.Reader.{is_some};
ghost use Rattle.reading.specs.Strings.{read_name, read_san, read_subtree, read_constraints};
ghost use Rattle.der.specs.Runs.{Run, validated, names_of};
ghost use Rattle.entries.specs.Entries.{form_of, whole_at};
ghost use Rattle.entries.specs.declared.NameForm.TheVariants.{Srv, Dns};
ghost use Rattle.issuers.specs.Strings.{strings_in};
ghost use Rattle.constrained.specs.Facts.{run_prop, form_sides_prop};
ghost use Rattle.constrained.specs.Subtrees.{texts_of, lies_in, reaches, Narrowed, SideRun, content_at, BothSides, FormSides, restricting};
ghost use Rattle.constrained.specs.Breaches.{first_of, breach_of};

use der::{content_start, element_end, read_element};
use entries::{NameForm, form_text};
use octets::Dotted;
use rules::Breach;

// A name that has been validated: the part of a string that it fills.
#[derive(Clone, Copy)]
struct ValidName<'a> {
    bytes: &'a [u8],
    start: usize,
    end: usize,
    ghost room: { start + 2 ≤ end },
    ghost fits: { end ≤ length bytes.now },
    ghost whole: { is_some (whole_at bytes.now start end) ≡ true },
}

impl<'a> ValidName<'a> {
    ghost use Rattle.constrained.specs.Walks.{name_in};

    // Its text, if it is of the form.
    #[inline(always)]
    #[tactic(auto, using(crate::proofs::Walks::texts))]
    fn text(&self, form: NameForm) -> Option<&'a [u8]>
        ensures { MatchOption result ((form_of form).text (name_in self.now) ≡ none) (λ text. (form_of form).text (name_in self.now) ≡ some text.now) }
    {
        let start = form_text(self.bytes, self.start, self.end, form)?;
        Some(&self.bytes[start..self.end])
    }
}

// The entries of a SAN that are left.
#[derive(Clone, Copy)]
struct Entries<'a> {
    bytes: &'a [u8],
    at: usize,
    end: usize,
    ghost run: { Run read_name bytes.now at end } by { run_prop read_name bytes.now at end },
}

impl<'a> Entries<'a> {
    ghost use Rattle.constrained.specs.Walks.{entries_left};

    // All of them; none, where the SAN is absent.
    fn new(san: &'a [u8]) -> Self
        requires { validated read_san san.now ≡ true }
        ensures value { entries_left result ≡ names_of read_san san.entry.now }
        ensures bound { result.end ≤ length san.entry.now }
    {
        let at = match read_element(san, 0, san.len()) {
            Ok(whole) => whole.start,
            Err(_) => 0,
        };
        Entries {
            bytes: san,
            at,
            end: san.len(),
        }
    }
}

impl<'a> Iterator for Entries<'a> {
    ghost use Rattle.constrained.specs.Walks.{name_in, entries_left};

    type Item = ValidName<'a>;

    ghost next_gives = { YieldsFirstBy name_in entries_left };

    ghost remaining = { λ s. at_most (s.end - s.at) };

    #[tactic(auto, using(entries::proofs::Steps::steps, entries::proofs::Steps::names, crate::proofs::Walks::entry_steps))]
    fn next(&mut self) -> Option<ValidName<'a>> {
        if self.end <= self.at {
            return None;
        }
        let start = self.at;
        self.at = element_end(self.bytes, start, self.end);
        Some(ValidName {
            bytes: self.bytes,
            start,
            end: self.at,
        })
    }
}

// The subtrees of a part of the constraints that are left.
#[derive(Clone, Copy)]
struct Subtrees<'a> {
    bytes: &'a [u8],
    at: usize,
    end: usize,
    ghost run: { Run read_subtree bytes.now at end } by { run_prop read_subtree bytes.now at end },
}

impl<'a> Iterator for Subtrees<'a> {
    ghost use Rattle.constrained.specs.Walks.{SubtreeGives};

    type Item = ValidName<'a>;

    ghost next_gives = { SubtreeGives };

    ghost remaining = { λ s. at_most (s.end - s.at) };

    #[tactic(auto, using(entries::proofs::Steps::steps, entries::proofs::Steps::names, crate::proofs::Walks::subtree_steps))]
    fn next(&mut self) -> Option<ValidName<'a>> {
        if self.end <= self.at {
            return None;
        }
        let start = content_start(self.bytes, self.at, self.end);
        self.at = element_end(self.bytes, self.at, self.end);
        Some(ValidName {
            bytes: self.bytes,
            start,
            end: self.at,
        })
    }
}

impl<'a> Subtrees<'a> {
    // Where the first subtree of the form stands; where the last one ends, if there is none.
    #[tactic(auto, using(crate::proofs::Parts::narrowing))]
    fn first_of_form(self, form: NameForm) -> usize
        ensures { Narrowed (form_of form) self.entry.bytes.now self.entry.at self.entry.end result }
    {
        let mut rest = self;
        let mut at = rest.at;
        while let Some(subtree) = rest.next() {
            if subtree.text(form).is_some() {
                return at;
            }
            at = rest.at;
        }
        at
    }
}

// An identifier of a form.
#[derive(Clone, Copy)]
struct Identifier<'a> {
    form: NameForm,
    name: Dotted<'a>,
    ghost is_one: { (form_of form).id name.text.now ≡ true },
}

impl<'a> Identifier<'a> {
    ghost use Rattle.constrained.specs.Walks.{name_in, subtrees_left};

    // The text as one, if it is one.
    fn new(form: NameForm, text: &'a [u8]) -> Option<Self>
        ensures { MatchOption result ((form_of form).id text.entry.now ≡ false) (λ id. (id.form ≡ form) × (id.name.text.now ≡ text.entry.now)) }
    {
        let is_one = match form {
            NameForm::Srv => srv::srv_id(text),
            NameForm::Dns => dns::dns_id(text),
        };
        if !is_one {
            return None;
        }
        Some(Identifier {
            form,
            name: Dotted::new(text),
        })
    }

    // Whether it lies in a subtree; in one of another form it does not.
    #[inline(always)]
    #[tactic(auto, using(crate::proofs::Meeting::lies))]
    fn lies_in(&self, subtree: &ValidName<'_>) -> bool
        ensures { result ≡ lies_in (form_of self.now.form) self.now.name.text.now (name_in subtree.now) }
    {
        let Some(text) = subtree.text(self.form) else {
            return false;
        };
        match self.form {
            NameForm::Srv => srv::in_subtree(text, self.name),
            NameForm::Dns => dns::dns_within(text, self.name.text),
        }
    }

    // Whether it breaks a subtree that is excluded.
    #[inline(always)]
    #[tactic(auto, using(crate::proofs::Meeting::reaching))]
    fn reaches(&self, subtree: &ValidName<'_>) -> bool
        ensures { result ≡ reaches (form_of self.now.form) self.now.name.text.now (name_in subtree.now) }
    {
        let Some(text) = subtree.text(self.form) else {
            return false;
        };
        match self.form {
            NameForm::Srv => srv::in_subtree(text, self.name),
            NameForm::Dns => dns::dns_reaches(text, self.name.text),
        }
    }

    // Whether it lies in one of the subtrees.
    #[inline(always)]
    #[tactic(auto, using(crate::proofs::Meeting::any_laws))]
    fn lies_in_any(&self, subtrees: Subtrees<'_>) -> bool
        ensures { result ≡ list_any (lies_in (form_of self.now.form) self.now.name.text.now) (subtrees_left subtrees.entry) }
    {
        for subtree in subtrees {
            if self.lies_in(&subtree) {
                return true;
            }
        }
        false
    }

    // Whether it breaks one of them where they are excluded.
    #[inline(always)]
    #[tactic(auto, using(crate::proofs::Meeting::any_laws))]
    fn reaches_any(&self, subtrees: Subtrees<'_>) -> bool
        ensures { result ≡ list_any (reaches (form_of self.now.form) self.now.name.text.now) (subtrees_left subtrees.entry) }
    {
        for subtree in subtrees {
            if self.reaches(&subtree) {
                return true;
            }
        }
        false
    }
}

// The subtrees of one side, from the content of its first element to where the last one ends.
#[derive(Clone, Copy)]
struct Part {
    start: usize,
    end: usize,
}

impl Part {
    const EMPTY: Part = Part { start: 0, end: 0 };

    fn is_empty(&self) -> bool
        ensures { result ≡ not (ltb self.now.start self.now.end) }
    {
        self.end <= self.start
    }
}

// The permitted subtrees and the excluded ones.
#[derive(Clone, Copy)]
struct Sides {
    permitted: Part,
    excluded: Part,
}

impl Sides {
    const NONE: Sides = Sides {
        permitted: Part::EMPTY,
        excluded: Part::EMPTY,
    };

    // Whether there is any subtree.
    #[tactic(auto, using(crate::proofs::Permission::any_sides))]
    fn any(&self) -> bool
        ensures { result ≡ restricting self.now }
    {
        !self.permitted.is_empty() || !self.excluded.is_empty()
    }
}

// The content of the element at a place; nothing, where no element is.
#[tactic(auto, using(crate::proofs::Groups::contents))]
fn content_at(s: &[u8], at: usize, end: usize) -> Part
    requires at_le_end { at ≤ end }
    requires end_in_bounds { end ≤ length s.now }
    ensures { result ≡ content_at s.now at end }
{
    match read_element(s, at, end) {
        Ok(element) => Part {
            start: element.start,
            end: element.next,
        },
        Err(_) => Part::EMPTY,
    }
}

// The sides that stand from `start` to `end`: "A0 (permitted), A1 (excluded), or both in that order".
#[tactic(auto, using(crate::proofs::Groups::sides))]
fn sides_from(s: &[u8], start: usize, end: usize) -> Sides
    requires { SideRun s.now start end }
    ensures { BothSides s.now result }
{
    let Ok(element) = read_element(s, start, end) else {
        return Sides::NONE;
    };
    let first = Part {
        start: element.start,
        end: element.next,
    };
    if element.tag == 0xA1 {
        return Sides {
            permitted: Part::EMPTY,
            excluded: first,
        };
    }
    Sides {
        permitted: first,
        excluded: content_at(s, element.next, end),
    }
}

// Where the subtrees of each side stand in a string.
#[tactic(auto, using(crate::proofs::Groups::whole))]
fn both_sides(s: &[u8]) -> Sides
    requires { validated read_constraints s.now ≡ true }
    ensures { BothSides s.now result }
{
    match read_element(s, 0, s.len()) {
        Ok(whole) => sides_from(s, whole.start, s.len()),
        Err(_) => Sides::NONE,
    }
}

// What a string holds of one form: its sides, each from its first subtree of the form on, and empty where it has none.
#[derive(Clone, Copy)]
struct FormSubtrees<'a> {
    form: NameForm,
    constraints: &'a [u8],
    sides: Sides,
    ghost of_form: { FormSides (form_of form) constraints.now sides } by { form_sides_prop (form_of form) constraints.now sides },
}

impl<'a> FormSubtrees<'a> {
    ghost use Rattle.constrained.specs.Walks.{name_in, subtrees_left};

    #[inline(always)]
    fn new(form: NameForm, constraints: &'a [u8], sides: Sides) -> Self
        requires { BothSides constraints.now sides }
        ensures form { result.form ≡ form }
        ensures constraints { result.constraints.now ≡ constraints.entry.now }
    {
        let permitted = Subtrees {
            bytes: constraints,
            at: sides.permitted.start,
            end: sides.permitted.end,
        };
        let excluded = Subtrees {
            bytes: constraints,
            at: sides.excluded.start,
            end: sides.excluded.end,
        };
        FormSubtrees {
            form,
            constraints,
            sides: Sides {
                permitted: Part {
                    start: permitted.first_of_form(form),
                    end: permitted.end,
                },
                excluded: Part {
                    start: excluded.first_of_form(form),
                    end: excluded.end,
                },
            },
        }
    }

    #[tactic(auto, using(crate::proofs::Permission::permitted_texts))]
    fn permitted(&self) -> Subtrees<'a>
        ensures { texts_of (form_of self.now.form) (subtrees_left result) ≡ subtrees_of (form_of self.now.form) permitted (names_of read_constraints self.now.constraints.now) }
    {
        Subtrees {
            bytes: self.constraints,
            at: self.sides.permitted.start,
            end: self.sides.permitted.end,
        }
    }

    #[tactic(auto, using(crate::proofs::Permission::excluded_texts))]
    fn excluded(&self) -> Subtrees<'a>
        ensures { texts_of (form_of self.now.form) (subtrees_left result) ≡ subtrees_of (form_of self.now.form) excluded (names_of read_constraints self.now.constraints.now) }
    {
        Subtrees {
            bytes: self.constraints,
            at: self.sides.excluded.start,
            end: self.sides.excluded.end,
        }
    }

    // "each presented SRVName must be an SRV-ID, lie in no excluded SRVName subtree, and, if any permitted SRVName subtree exists,
    // lie in one"; of dNSNames the same.
    #[inline(always)]
    fn allows(&self, text: &[u8]) -> bool
        requires { restricting self.now.sides ≡ true }
        ensures { result ≡ rules.allowed (form_of self.now.form) (names_of read_constraints self.now.constraints.now) text.now }
    {
        let Some(id) = Identifier::new(self.form, text) else {
            return false;
        };
        if id.reaches_any(self.excluded()) {
            return false;
        }
        self.sides.permitted.is_empty() || id.lies_in_any(self.permitted())
    }

    // Whether an entry of the SAN is a name of the form that breaks the string.
    #[inline(always)]
    #[tactic(auto, using(crate::proofs::Permission::breaking))]
    fn broken_by(&self, entry: &ValidName<'_>) -> bool
        ensures { result ≡ breaks_as (form_of self.now.form) (names_of read_constraints self.now.constraints.now) (name_in entry.now) }
    {
        self.sides.any()
            && match entry.text(self.form) {
                Some(text) => !self.allows(text),
                None => false,
            }
    }
}

// What a string holds of each form.
#[derive(Clone, Copy)]
struct Restrictions<'a> {
    srv: FormSubtrees<'a>,
    dns: FormSubtrees<'a>,
    ghost of_srv: { srv.form ≡ Srv },
    ghost of_dns: { dns.form ≡ Dns },
    ghost of_one: { dns.constraints.now ≡ srv.constraints.now },
}

impl<'a> Restrictions<'a> {
    ghost use Rattle.constrained.specs.Walks.{name_in};

    fn new(constraints: &'a [u8]) -> Self
        requires { validated read_constraints constraints.now ≡ true }
        ensures { result.srv.constraints.now ≡ constraints.entry.now }
    {
        let sides = both_sides(constraints);
        Restrictions {
            srv: FormSubtrees::new(NameForm::Srv, constraints, sides),
            dns: FormSubtrees::new(NameForm::Dns, constraints, sides),
        }
    }

    // Whether there is any subtree of either form.
    fn any(&self) -> bool
        ensures { result ≡ restricting self.now.srv.sides || restricting self.now.dns.sides }
    {
        self.srv.sides.any() || self.dns.sides.any()
    }

    // Whether an entry of the SAN breaks the string.
    #[tactic(auto, using(crate::proofs::Entry::either))]
    fn broken_by(&self, entry: &ValidName<'_>) -> bool
        ensures { result ≡ breaks (names_of read_constraints self.now.srv.constraints.now) (name_in entry.now) }
    {
        self.srv.broken_by(entry) || self.dns.broken_by(entry)
    }
}

// The index of the first entry of a SAN that breaks one string; the index counts all entries from 0. Where the string holds no subtree of
// either form, the SAN is not looked at.
fn first_broken(san: &[u8], constraints: &[u8]) -> Option<usize>
    requires san_value { validated read_san san.now ≡ true }
    requires constraints_value { validated read_constraints constraints.now ≡ true }
    ensures value { result ≡ first_of (first_broken 0 (names_of read_constraints constraints.now) (names_of read_san san.now)) }
    ensures bound { IfSome result (λ i. i ≤ length san.now) }
{
    let restrictions = Restrictions::new(constraints);
    if !restrictions.any() {
        return None;
    }
    Entries::new(san).position(|entry| restrictions.broken_by(&entry))
}

// "All of them must hold"; "lowest issuer first, then lowest name".
#[tactic(auto, using(crate::proofs::Strings::laws))]
pub fn first_breach(san: &[u8], constraints: &[u8], lengths: &[usize]) -> Option<Breach>
    requires san_value { validated read_san san.now ≡ true }
    requires constraints_value { all (validated read_constraints) (strings_in lengths.now constraints.now) ≡ true }
    ensures value { result ≡ breach_of (first_breach 0 (map (names_of read_constraints) (strings_in lengths.now constraints.now)) (names_of read_san san.now)) }
    ensures issuer_bound { IfSome result (λ b. (b.issuer ≤ 8) × (b.presented ≤ length san.now)) }
{
    if !issuers::lengths_fit(lengths, constraints.len()) {
        return None;
    }
    for issuer in 0..lengths.len() {
        let string = issuers::string_of(lengths, constraints, issuer);
        if let Some(presented) = first_broken(san, string) {
            return Some(Breach { issuer, presented });
        }
    }
    None
}
