// A walk over the names of a certificate string: each step shows the row of one name. What a step calls is written into the loop that
// walks, so that the cursor stays in registers.
#![tactic(auto, using(crate::proofs::Laws::laws))]

ghost use Rattle.std.specs.Prelude.{◌≤◌, ◌≡◌, length};
ghost use Rattle.std.specs.Iterator.{YieldsFirst, item_count};
ghost use Rattle.steps.specs.Steps.{source_of, cursor, next_group, set_opened, side_opened, after_name, shape_at, row_start, start, step};
ghost use Rattle.steps.specs.Rows.{rows_left, walk_of};

use der::{Element, read_element, tagged};
use entries::{Name, Unreadable, attribute, name_shape, subtree_shape};
use octets::wide;
use rules::Row;

// A certificate string: what its names are, and how it groups them.
#[derive(Clone, Copy, Debug, PartialEq, Eq)]
pub enum Source {
    San,
    Subject,
    Constraints,
}

// A caller names the string by a number: 0 for the SAN, 1 for the subject, any other for the constraints.
impl From<usize> for Source {
    ghost from_gives = { λ which source. source ≡ source_of which };

    fn from(which: usize) -> Source {
        match which {
            0 => Source::San,
            1 => Source::Subject,
            _ => Source::Constraints,
        }
    }
}

// Where a walk stands: at a name, in a part that ends at `end`, with that name's group.
#[derive(Clone, Copy)]
pub struct Cursor {
    pub at: usize,
    pub end: usize,
    pub group: usize,
}

impl Cursor {
    // At the first name of a part.
    fn into_part(part: Element, group: usize) -> Cursor
        ensures { result ≡ cursor part.start part.next group }
    {
        Cursor {
            at: part.start,
            end: part.next,
            group,
        }
    }

    // At the end, where no part is left.
    fn past(at: usize, group: usize) -> Cursor
        ensures { result ≡ cursor at at group }
    {
        Cursor { at, end: at, group }
    }
}

// A name's row, and where the walk goes on.
#[derive(Clone, Copy)]
pub struct Step {
    pub row: Row,
    pub next: Cursor,
}

// The number after a group's: each group takes a byte at least, so that it is never greater than the place after it.
fn next_group(group: usize, at: usize) -> usize
    ensures { result ≡ next_group group at }
{
    if group < at { group + 1 } else { group }
}

// The first attribute of the set at `at`, with the set's number; the end where no set is left.
#[tactic(auto, using(crate::proofs::Laws::parts))]
fn open_set(s: &[u8], at: usize, group: usize) -> Cursor
    requires { at ≤ length s.now }
    ensures { result ≡ set_opened s.now at group }
{
    match tagged(s, at, s.len(), 0x31) {
        Ok(set) => Cursor::into_part(set, group),
        Err(_) => Cursor::past(at, group),
    }
}

// The first subtree of the side at `at`: "A0 (permitted), A1 (excluded)"; the end where no side is left.
#[tactic(auto, using(crate::proofs::Laws::parts))]
fn open_side(s: &[u8], at: usize) -> Cursor
    requires { at ≤ length s.now }
    ensures { result ≡ side_opened s.now at }
{
    match read_element(s, at, s.len()) {
        Ok(side) => Cursor::into_part(side, wide(side.tag % 2)),
        Err(_) => Cursor::past(at, 0),
    }
}

impl Source {
    // The first name.
    #[tactic(auto, using(crate::proofs::Laws::starts))]
    pub fn start(self, s: &[u8]) -> Cursor
        ensures { result ≡ start self s.now }
    {
        let Ok(whole) = tagged(s, 0, s.len(), 0x30) else {
            return Cursor::past(0, 0);
        };
        match self {
            Source::San => Cursor::into_part(whole, 0),
            Source::Subject => open_set(s, whole.start, 0),
            Source::Constraints => open_side(s, whole.start),
        }
    }

    // What an element of a part is as a name.
    #[inline(always)]
    fn shape(self, s: &[u8], element: Element) -> Result<Name, Unreadable>
        requires start_le_next { element.start ≤ element.next }
        requires next_in_bounds { element.next ≤ length s.now }
        ensures { result ≡ shape_at self s.now element }
    {
        let Element { tag, start, next } = element;
        match self {
            Source::San => name_shape(s, tag, start, next),
            Source::Subject => attribute(s, tag, start, next),
            Source::Constraints => subtree_shape(s, tag, start, next),
        }
    }

    // Where the row of a name starts: where its element does, at `at`. "A subtree's row is its GeneralName", which is its content.
    fn row_start(self, at: usize, content: usize) -> usize
        ensures { result ≡ row_start self at content }
    {
        match self {
            Source::San | Source::Subject => at,
            Source::Constraints => content,
        }
    }

    // What follows a name that ends at `next`, in the part of the cursor `c`: the next of this part, or the first of the next part.
    // "Group: entry index", "RDN index".
    #[inline(always)]
    fn after(self, s: &[u8], next: usize, c: Cursor) -> Cursor
        requires { next ≤ length s.now }
        ensures { result ≡ after_name self s.now next c.end c.group }
    {
        match self {
            Source::San => Cursor {
                at: next,
                end: c.end,
                group: next_group(c.group, next),
            },
            Source::Subject if next == c.end => open_set(s, next, next_group(c.group, next)),
            Source::Constraints if next == c.end => open_side(s, next),
            _ => Cursor {
                at: next,
                end: c.end,
                group: c.group,
            },
        }
    }

    // The name at the cursor, if one stands there.
    #[inline(always)]
    #[tactic(auto, using(crate::proofs::Laws::names))]
    pub fn step(self, s: &[u8], c: Cursor) -> Option<Step>
        ensures { result ≡ step self s.now c }
    {
        if s.len() < c.end || c.end < c.at {
            return None;
        }
        let element = read_element(s, c.at, c.end).ok()?;
        let name = self.shape(s, element).ok()?;
        let start = self.row_start(c.at, element.start);
        Some(Step {
            row: Row {
                kind: name.kind,
                start,
                length: element.next - start,
                group: c.group,
            },
            next: self.after(s, element.next, c),
        })
    }

    // The rows of the names, one after the other.
    pub fn rows<'a>(self, bytes: &'a [u8]) -> Rows<'a>
        ensures { result ≡ walk_of self bytes.entry }
    {
        Rows {
            source: self,
            bytes,
            cursor: self.start(bytes),
        }
    }
}

// A walk that is under way: the string, and where the walk stands.
#[derive(Clone, Copy)]
pub struct Rows<'a> {
    source: Source,
    bytes: &'a [u8],
    cursor: Cursor,
}

impl<'a> Iterator for Rows<'a> {
    type Item = Row;

    ghost next_gives = { YieldsFirst rows_left };

    ghost remaining = { item_count rows_left };

    #[inline(always)]
    fn next(&mut self) -> Option<Row> {
        let shown = self.source.step(self.bytes, self.cursor)?;
        self.cursor = shown.next;
        Some(shown.row)
    }
}
