// Bytes and numbers, one text behind the other, as far as the lent slice goes. Assumes nothing.
#![tactic(auto, using(crate::specs::WriterLaws::texts))]

ghost use Rattle.std.specs.Prelude.{◌≡◌, [], ◌∷◌, ◌++◌, ◌<◌, ◌≤◌, codes, decimal, length, take};
ghost use Rattle.base.specs.Bytes.{number};
ghost use Rattle.base.specs.Sizes.{set_bytes};
ghost use Rattle.listing.specs.Words.{hex, hex_digit, said};
ghost use Rattle.listing.specs.Writer.{◌with_text◌, at_front};

use base::SET_BYTES;

// A lent slice, and the next place in it to write. What finds no room is dropped.
#[derive(Drop)]
pub struct Writer<'a> {
    pub bytes: &'a mut [u8],
    pub next: usize,
}

// A digit, in lower case.
#[tactic(auto, unfolding(crate::specs::Words::hex_digit))]
fn hex_digit(x: u8) -> u8
    requires { x < 16 }
    ensures { result ≡ hex_digit x }
{
    if x < 10 { b'0' + x } else { b'a' + (x - 10) }
}

impl<'a> Writer<'a> {
    // At the front of a slice.
    pub fn new(bytes: &'a mut [u8]) -> Writer<'a>
        ensures { result ≡ at_front bytes.entry }
    {
        Writer { bytes, next: 0 }
    }

    // Back to the front.
    pub fn clear(&mut self)
        ensures { self.new ≡ record self.old { next = 0 } }
    {
        self.next = 0;
    }

    // What is written.
    pub fn written(&self) -> &[u8]
        requires { self.now.next ≤ length self.now.bytes.now }
        ensures { result.now ≡ take self.now.next self.now.bytes.now }
    {
        &self.bytes[..self.next]
    }

    // One byte.
    #[tactic(auto, using(crate::specs::WriterLaws::text_one, crate::specs::WriterLaws::text_full))]
    fn put_byte(&mut self, x: u8)
        ensures { self.new ≡ self.old with_text (x ∷ []) }
    {
        if self.next < self.bytes.len() {
            self.bytes[self.next] = x;
            self.next += 1;
        }
    }

    // Bytes, as they are.
    #[tactic(auto, using(crate::specs::WriterLaws::text_more, crate::specs::WriterLaws::texts))]
    pub fn put(&mut self, text: &[u8])
        ensures { self.new ≡ self.old with_text text.now }
    {
        for &x in text {
            self.put_byte(x);
        }
    }

    // A number in decimal: the digits in front of the last one, and the last one. (The crate itoa takes twice the instructions on numbers of a few digits.)
    pub fn put_decimal(&mut self, x: u32)
        ensures { self.new ≡ self.old with_text decimal x }
    {
        if x < 10 {
            self.put_byte(b'0' + x as u8);
        } else {
            self.put_decimal(x / 10);
            self.put_byte(b'0' + (x % 10) as u8);
        }
    }

    // A word and a number.
    pub fn put_number(&mut self, word: &[u8], x: u32)
        ensures { self.new ≡ self.old with_text said word.now x }
    {
        self.put(word);
        self.put_decimal(x);
    }

    // The set in bytes p in hex: the highest byte first, two digits a byte.
    // (The crate hex keeps the order of the bytes, and can fail.)
    #[tactic(auto, using(crate::specs::WriterLaws::text_none, crate::specs::WriterLaws::text_hex, crate::specs::WriterLaws::text_hex_all))]
    fn put_hex(&mut self, p: &[u8])
        requires { length p.now ≡ set_bytes }
        ensures { self.new ≡ self.old with_text hex (number p.now) }
    {
        for i in (0..SET_BYTES).rev() {
            self.put_byte(hex_digit(p[i] / 16));
            self.put_byte(hex_digit(p[i] % 16));
        }
    }

    // A space, and the set in bytes p in hex.
    pub fn put_set(&mut self, p: &[u8])
        requires { length p.now ≡ set_bytes }
        ensures { self.new ≡ self.old with_text (codes " " ++ hex (number p.now)) }
    {
        self.put(b" ");
        self.put_hex(p);
    }
}
