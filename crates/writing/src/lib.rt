// Bytes put into lent text, one after another.
//
// Bytes for which the text has no room are left out, so no call asks for room.
#![tactic(auto)]

ghost use Rattle.std.specs.Prelude.{◌∷◌, []};
ghost use Rattle.writing.specs.Writing.{Puts};
ghost use Rattle.writing.specs.Texts.{Gains};

// Lent text, and the place in it where the next byte goes.
#[derive(Drop)]
pub struct Text<'a> {
    pub bytes: &'a mut [u8],
    pub at: usize,
}

impl<'a> Text<'a> {
    pub fn put_byte(&mut self, byte: u8)
        ensures { Gains self.old self.new (byte ∷ []) }
    {
        if self.at < self.bytes.len() {
            self.bytes[self.at] = byte;
            self.at += 1;
        }
    }

    pub fn put(&mut self, bytes: &[u8])
        ensures { Gains self.old self.new bytes.now }
    {
        for byte in bytes {
            self.put_byte(*byte);
        }
    }
}

// One byte, for a caller that keeps text and place apart; the place behind it.
pub fn put_byte(text: &mut [u8], at: usize, byte: u8) -> usize
    ensures { Puts (byte ∷ []) text.old at text.new result }
{
    put_bytes(text, at, &[byte])
}

// The same for bytes.
pub fn put_bytes(text: &mut [u8], at: usize, bytes: &[u8]) -> usize
    ensures { Puts bytes.now text.old at text.new result }
{
    let mut text = Text { bytes: text, at };
    text.put(bytes);
    text.at
}
