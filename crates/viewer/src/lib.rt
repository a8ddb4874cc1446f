// The help desk's viewer (request 3/13): it holds the certificate bytes and its position, and each step shows one row. `view_at`
// does the work over plain parameters; `open` and `step` are thin. A row's group is a count from the start of the string, so each
// step reads the string from there. `which` is 0 for the SAN, 1 for the subject, any other number for the constraints.
#![tactic(auto, using(crate::proofs::Laws::laws))]

ghost use Rattle.std.specs.Prelude.{◌≡◌};
ghost use Rattle.reading.specs.Calls.{opening_on, view_on};
ghost use Rattle.viewer.specs.Viewers.{opened_by, stepped_by};

use listing::opened;
use rules::{Row, View};

// "a viewer that holds the certificate bytes and its position, for each of the three strings"
#[derive(Drop)]
pub struct Viewer<'a> {
    pub der: &'a [u8],
    pub which: usize,
    pub at: usize,
}

// What an opening answers, and the viewer.
#[derive(Drop)]
pub struct Opened<'a> {
    pub answer: usize,
    pub viewer: Viewer<'a>,
}

// What a step shows, and the viewer after it.
#[derive(Drop)]
pub struct Stepped<'a> {
    pub row: Option<Row>,
    pub viewer: Viewer<'a>,
}

// "Opening unreadable bytes is refused with 3, 4 or 5, over-long ones with 7, in 01's order."
pub fn opening(der: &[u8], which: usize) -> usize
    ensures { result ≡ opening_on which der.now }
{
    match opened(der, which) {
        Ok(_) => rules::ACCEPTED,
        Err(refusal) => refusal.into(),
    }
}

// "Each step shows the first row of 01's listing that starts at or past the position, whatever position it's handed; if there is
// none, or the listing refuses the bytes, it says that it's at the end." "After a row the position stands just past its element."
pub fn view_at(der: &[u8], which: usize, at: usize) -> View
    ensures { result ≡ view_on which der.now at }
{
    let Ok(mut names) = opened(der, which) else {
        return View { row: None, at };
    };
    match names.rows.find(|row| at <= row.start) {
        Some(row) => View {
            row: Some(row),
            at: row.start + row.length,
        },
        None => View { row: None, at },
    }
}

// "It opens at position 0, refused or not"
pub fn open<'a>(der: &'a [u8], which: usize) -> Opened<'a>
    ensures { result ≡ opened_by der.entry which }
{
    Opened {
        answer: opening(der, which),
        viewer: Viewer { der, which, at: 0 },
    }
}

// A step: what is shown, and the viewer moved on.
pub fn step<'a>(v: Viewer<'a>) -> Stepped<'a>
    ensures { result ≡ stepped_by v.entry }
{
    let View { row, at } = view_at(v.der, v.which, v.at);
    Stepped {
        row,
        viewer: Viewer { at, ..v },
    }
}

// A step of a viewer that stands at a position, with plain parameters: whoever calls it holds no viewer.
pub fn viewed(der: &[u8], which: usize, position: usize) -> View
    ensures { result ≡ view_on which der.now position }
{
    let stepped = step(Viewer {
        der,
        which,
        at: position,
    });
    View {
        row: stepped.row,
        at: stepped.viewer.at,
    }
}
