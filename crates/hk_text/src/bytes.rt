//! What a byte can be in a line: a blank, a part of a word, a symbol.

ghost use Rattle.std.specs.Prelude.{◌≡◌};
ghost use Rattle.hk_text.specs.Bytes.{is_blank, is_word_start, is_word_byte, is_symbol_byte, is_symbol_pair};

/// What begins a comment, which goes on to the end of its line.
pub const COMMENT: u8 = b'#';

/// Whether a byte only separates tokens.
pub fn is_blank(byte: u8) -> bool
    ensures { result ≡ is_blank byte }
{
    matches!(byte, b' ' | b'\t' | b'\r')
}

/// Whether a word may begin with this byte.
pub fn is_word_start(byte: u8) -> bool
    ensures { result ≡ is_word_start byte }
{
    byte.is_ascii_alphabetic() || byte == b'_'
}

/// Whether a word may go on with this byte.
pub fn is_word_byte(byte: u8) -> bool
    ensures { result ≡ is_word_byte byte }
{
    is_word_start(byte) || byte.is_ascii_digit()
}

/// Whether the byte alone is a symbol.
pub fn is_symbol_byte(byte: u8) -> bool
    ensures { result ≡ is_symbol_byte byte }
{
    matches!(
        byte,
        b'.' | b'<'
            | b'>'
            | b'{'
            | b'}'
            | b'('
            | b')'
            | b'['
            | b']'
            | b','
            | b':'
            | b'+'
            | b'-'
            | b'*'
            | b'|'
            | b'&'
            | b'\\'
    )
}

/// Whether the two bytes are one symbol.
pub fn is_symbol_pair(first: u8, second: u8) -> bool
    ensures { result ≡ is_symbol_pair first second }
{
    matches!(
        (first, second),
        (b'.', b'.') | (b'<', b'=') | (b'>', b'=') | (b'=', b'=')
    )
}
