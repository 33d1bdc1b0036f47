// Characters of statements (X3.9 section 3.1).
ghost use Rattle.std.specs.Prelude.{◌≡◌};
ghost use Rattle.std.specs.List.{list_all};
ghost use Rattle.text_base.specs.Chars.{is_upper, is_digit, is_name_byte, to_upper};

/// Whether a character is an upper-case letter (X3.9 section 3.1).
pub fn is_upper(byte: u8) -> bool
    ensures { result ≡ is_upper byte }
{
    65 <= byte && byte <= 90
}

/// Whether a character is a digit (X3.9 section 3.1).
pub fn is_digit(byte: u8) -> bool
    ensures { result ≡ is_digit byte }
{
    48 <= byte && byte <= 57
}

/// Whether a character may stand in a name: a letter or a digit (X3.9 section 3.1), or an underscore.
pub fn is_name_byte(byte: u8) -> bool
    ensures { result ≡ is_name_byte byte }
{
    is_upper(byte) || is_digit(byte) || byte == b'_'
}

/// The character as it is read: a lower-case letter as the letter (X3.9 section 3.1).
pub fn to_upper(byte: u8) -> u8
    ensures { result ≡ to_upper byte }
{
    if 97 <= byte && byte <= 122 {
        byte - 32
    } else {
        byte
    }
}

/// Whether all characters are digits (X3.9 section 3.1).
pub fn are_digits(text: &[u8]) -> bool
    ensures { result ≡ list_all is_digit text.now }
{
    text.iter().all(|byte| is_digit(*byte))
}

/// Whether all characters are letters or digits (X3.9 section 3.1), or underscores.
pub fn are_name_bytes(text: &[u8]) -> bool
    ensures { result ≡ list_all is_name_byte text.now }
{
    text.iter().all(|byte| is_name_byte(*byte))
}
