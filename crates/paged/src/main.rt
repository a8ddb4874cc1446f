// Pages through fixed strings with the viewer, and writes for each what the opening answers and what five steps show; then, for
// every position from 0 to two past the string, where the row starts that is shown from there. The stored output is held, line by line, to
// the second program's (tests/second/tests/stored.rs).
#![tactic(auto)]

use rules::View;
use std::io;

// A string that is paged through: `which` is 0 for a SAN, 1 for a subject, 2 for constraints.
#[derive(Clone, Copy)]
struct Text<'a> {
    title: &'a str,
    bytes: &'a [u8],
    which: usize,
}

const TWO_ENTRIES: &[u8] = b"\x30\x0A\x82\x03a.b\x82\x03b.c";

const THREE_ATTRIBUTES: &[u8] =
    b"\x30\x24\x31\x16\x30\x08\x06\x03\x55\x04\x0A\x0C\x01o\x30\x0A\x06\x03\x55\x04\x03\x0C\x03a.b\x31\x0A\x30\x08\x06\x03\x55\x04\x03\x1E\x01x";

const THREE_SUBTREES: &[u8] =
    b"\x30\x32\xA0\x14\x30\x12\xA0\x10\x06\x08\x2B\x06\x01\x05\x05\x07\x08\x07\xA0\x04\x16\x02_m\xA1\x1A\x30\x05\x82\x03a.b\x30\x11\xA0\x0F\x06\x08\x2B\x06\x01\x05\x05\x07\x08\x07\xA0\x03\x16\x01b";

const TEXTS: [Text; 12] = [
    // A string of each kind with more names than one; names without a byte of text.
    Text {
        title: "two entries",
        bytes: TWO_ENTRIES,
        which: 0,
    },
    Text {
        title: "three attributes",
        bytes: THREE_ATTRIBUTES,
        which: 1,
    },
    Text {
        title: "three subtrees",
        bytes: THREE_SUBTREES,
        which: 2,
    },
    Text {
        title: "empty names",
        bytes: b"\x30\x04\x82\x00\x82\x00",
        which: 0,
    },
    // No names as each of the three strings, and no bytes.
    Text {
        title: "30 00 as a SAN",
        bytes: b"\x30\x00",
        which: 0,
    },
    Text {
        title: "30 00 as a subject",
        bytes: b"\x30\x00",
        which: 1,
    },
    Text {
        title: "30 00 as constraints",
        bytes: b"\x30\x00",
        which: 2,
    },
    Text {
        title: "no SAN",
        bytes: b"",
        which: 0,
    },
    Text {
        title: "no subject",
        bytes: b"",
        which: 1,
    },
    Text {
        title: "no constraints",
        bytes: b"",
        which: 2,
    },
    // Strings that are refused.
    Text {
        title: "a byte after the SAN",
        bytes: b"\x30\x02\x82\x00\x00",
        which: 0,
    },
    Text {
        title: "a subject as a SAN",
        bytes: THREE_ATTRIBUTES,
        which: 0,
    },
];

// A row and the position after it, or the end and the position.
fn write_view(rt: &impl Print, view: View) -> io::Result<()> {
    let at = view.at;
    match view.row {
        Some(row) => print!(rt;
            "{} {} {} {} then {at}",
            row.kind, row.start, row.length, row.group
        ),
        None => print!(rt; "end {at}"),
    }
}

impl Text<'_> {
    fn viewed(self, at: usize) -> View {
        viewer::viewed(self.bytes, self.which, at)
    }

    // The opening's answer, and five steps from there.
    fn page(self, rt: &impl Print) -> io::Result<()> {
        let answer = viewer::opening(self.bytes, self.which);
        print!(rt; "{}: {answer}", self.title)?;
        let mut at = 0;
        for separator in ["; ", ", ", ", ", ", ", ", "] {
            let view = self.viewed(at);
            rt.print(separator)?;
            write_view(rt, view)?;
            at = view.at;
        }
        rt.println("")
    }

    // A step from each position to two past the string, and where the row starts that it shows.
    fn from_each(self, rt: &impl Print) -> io::Result<()> {
        let last = self.bytes.len() + 2;
        print!(rt; "{}, from 0 to {last}:", self.title)?;
        for at in 0..=last {
            match self.viewed(at).row {
                Some(row) => print!(rt; " {}", row.start)?,
                None => rt.print(" -")?,
            }
        }
        rt.println("")
    }
}

fn main(rt: HostRuntime) -> io::Result<()> {
    for text in TEXTS {
        text.page(&rt)?;
        text.from_each(&rt)?;
    }
    // A step from a position far past the string.
    for at in [4294967295, 9223372036854775808, 18446744073709551615] {
        print!(rt; "two entries from {at}: ")?;
        write_view(&rt, viewer::viewed(TWO_ENTRIES, 0, at))?;
        rt.println("")?;
    }
    Ok(())
}
