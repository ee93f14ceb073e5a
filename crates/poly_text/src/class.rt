//! The classes of bytes.
ghost use Rattle.std.specs.Prelude.{◌≡◌, ◌<◌};
ghost use Rattle.text_laws.specs.Bytes.{class_of};
ghost use Rattle.text_laws.specs.Reading.{is_digit, is_word};
ghost use Rattle.poly_text.specs.Codes.{digit_of};

use text_laws::ByteClass;

/// What a byte of a text is.
#[inline(always)]
#[tactic(auto, unfolding(text_laws::specs::Bytes::class_of))]
pub fn class_of_byte(b: u8) -> ByteClass
    ensures { result ≡ class_of b }
{
    match b {
        b' ' | b'\t' => ByteClass::Blank,
        b'0'..=b'9' => ByteClass::Digit,
        b'A'..=b'Z' | b'a'..=b'z' | b'_' => ByteClass::Letter,
        b'+' | b'-' => ByteClass::Sign,
        b'*' => ByteClass::Star,
        b'^' => ByteClass::Caret,
        _ => ByteClass::Other,
    }
}

/// For each byte the digit of its class: a blank, a digit, a letter, a sign, a star, a caret, or another.
static CLASSES: [u8; 256] = *b"\
    66666666606666666666666666666666\
    06666666664363661111111111666666\
    62222222222222222222222222266652\
    62222222222222222222222222266666\
    66666666666666666666666666666666\
    66666666666666666666666666666666\
    66666666666666666666666666666666\
    66666666666666666666666666666666";

/// The digit of the byte's class.
#[inline(always)]
pub fn class_digit(b: u8) -> u8
    ensures class { result ≡ digit_of (class_of b) }
    ensures low { result < 8 }
{
    CLASSES[b as usize] % 8
}

/// Whether the byte is a digit.
#[inline(always)]
pub fn is_digit_byte(b: u8) -> bool
    ensures { result ≡ is_digit (class_of b) }
{
    class_digit(b) == 1
}

/// Whether the byte is a letter or a digit.
#[inline(always)]
pub fn is_word_byte(b: u8) -> bool
    ensures { result ≡ is_word (class_of b) }
{
    let class = class_digit(b);
    class == 1 || class == 2
}
