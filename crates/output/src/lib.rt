// Bytes and DER elements put into a lent buffer, from left to right.
#![tactic(auto)]

ghost use Rattle.std.specs.Prelude.{◌≡◌, ◌<◌, ◌≤◌, ◌+◌, length};
ghost use Rattle.rules.specs.Der.{element};
ghost use Rattle.output.specs.Output.{Fits, Put, start, element_size};

// How many bytes an element has whose content has n.
#[tactic(auto, using(crate::proofs::Laws::laws))]
pub fn element_size(n: usize) -> usize
    requires { n < 65536 }
    ensures { (result ≡ element_size n) × (result ≤ n + 4) }
{
    if n < 128 {
        n + 2
    } else if n < 256 {
        n + 3
    } else {
        n + 4
    }
}

// Puts a text at a place, and gives the place past it. Byte by byte: `copy_from_slice` calls `memmove` of the C library, which nothing else
// here needs.
fn put_at(buffer: &mut [u8], at: usize, text: &[u8]) -> usize
    requires { Fits buffer.old at text.now }
    ensures { Put buffer.old at text.now buffer.new result }
{
    for k in 0..text.len() {
        buffer[at + k] = text[k];
    }
    at + text.len()
}

// A lent buffer that is written from left to right, and the place to go on at.
#[derive(Drop)]
pub struct Out<'a> {
    pub buffer: &'a mut [u8],
    pub at: usize,
}

impl Out<'_> {
    // Puts a text.
    pub fn put_text(&mut self, text: &[u8])
        requires { Fits self.old.buffer.now self.old.at text.now }
        ensures put { Put self.old.buffer.now self.old.at text.now self.new.buffer.now self.new.at }
        ensures same_buffer { self.new.buffer.ghost_name ≡ self.old.buffer.ghost_name }
    {
        self.at = put_at(self.buffer, self.at, text);
    }

    // Puts the bytes of an element before its content. "Every length is definite and shortest: one byte to 127; 81 and a byte from 128 to
    // 255; 82 and two bytes from 256."
    #[tactic(auto, using(crate::proofs::Laws::laws))]
    pub fn put_start(&mut self, tag: u8, n: usize)
        requires n_bound { n < 65536 }
        requires fits { Fits self.old.buffer.now self.old.at (start tag n) }
        ensures put { Put self.old.buffer.now self.old.at (start tag n) self.new.buffer.now self.new.at }
        ensures same_buffer { self.new.buffer.ghost_name ≡ self.old.buffer.ghost_name }
    {
        if n < 128 {
            self.put_text(&[tag, n as u8]);
        } else if n < 256 {
            self.put_text(&[tag, 0x81, n as u8]);
        } else {
            self.put_text(&[tag, 0x82, (n / 256) as u8, (n % 256) as u8]);
        }
    }

    // Puts an element.
    #[tactic(auto, using(crate::proofs::Laws::laws))]
    pub fn put_element(&mut self, tag: u8, content: &[u8])
        requires content_len_bound { length content.now < 65536 }
        requires fits { Fits self.old.buffer.now self.old.at (element tag content.now) }
        ensures put { Put self.old.buffer.now self.old.at (element tag content.now) self.new.buffer.now self.new.at }
        ensures same_buffer { self.new.buffer.ghost_name ≡ self.old.buffer.ghost_name }
    {
        self.put_start(tag, content.len());
        self.put_text(content);
    }
}
