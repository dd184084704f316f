// The bytes of names.
ghost use Rattle.std.specs.Prelude.{◌≡◌};
ghost use Rattle.rpp_words.specs.Names.{is_name_byte};

/// Whether a byte may follow the first of a name, in a source or in the notes of an image.
pub fn is_name_byte(byte: u8) -> bool
    ensures { result ≡ is_name_byte byte }
{
    byte.is_ascii_alphabetic() || byte.is_ascii_digit() || byte == b'_' || byte == b'\''
}
