// Which bytes make a word, and which are blank. The meaning stands in specs/Bytes.
#![tactic(auto, unfolding(crate::specs::Bytes::either, crate::specs::Bytes::within))]

ghost use Rattle.std.specs.Prelude.{◌≡◌, drop};
ghost use Rattle.tokens.specs.Bytes.{is_upper_byte, is_word_byte, is_blank_byte, begins, is_escaped_byte, head};

pub fn is_upper(byte: u8) -> bool
    ensures { result ≡ is_upper_byte byte }
{
    byte.is_ascii_uppercase()
}

pub fn is_word(byte: u8) -> bool
    ensures { result ≡ is_word_byte byte }
{
    if byte.is_ascii_alphabetic() {
        return true;
    }
    byte.is_ascii_digit() || byte == b'_'
}

pub fn is_blank(byte: u8) -> bool
    ensures { result ≡ is_blank_byte byte }
{
    matches!(byte, b' ' | b'\t' | b'\n')
}

pub fn begins(byte: u8) -> bool
    ensures { result ≡ begins byte }
{
    byte.is_ascii_alphabetic() || byte == b'\''
}

pub fn is_escaped(byte: u8) -> bool
    ensures { result ≡ is_escaped_byte byte }
{
    matches!(byte, b'\'' | b'\\')
}

// The byte at a place, 0 at the end as in `head` of specs/Bytes: a byte 0 begins no token and goes on none.
pub fn first(text: &[u8], at: usize) -> u8
    ensures { result ≡ head (drop at text.now) }
{
    text.get(at).copied().unwrap_or(0)
}
