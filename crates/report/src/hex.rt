ghost use Rattle.std.specs.Prelude.{◌≡◌, IfOk, Some, None, MatchOption};
ghost use Rattle.report.specs.Hex.{blank, digit, byte_of, hex};

use std::alloc::{AllocError, Global};

// Whether the character is a space, a tab, or of the end of a line.
// Not `is_ascii_whitespace`, which takes the form feed too.
fn is_blank(c: u8) -> bool
    ensures { result ≡ blank c }
{
    matches!(c, b' ' | b'\t' | b'\r' | b'\n')
}

// The value of a digit; none where the character is no digit.
fn digit_value(c: u8) -> Option<u8>
    ensures { result ≡ digit c }
{
    char::from(c).to_digit(16).map(|value| value as u8)
}

// The byte that two digits stand for; none where one of them is no digit.
fn byte(high: u8, low: u8) -> Option<u8>
    ensures { result ≡ byte_of (digit high) (digit low) }
{
    Some(16 * digit_value(high)? + digit_value(low)?)
}

// The bytes that a hexadecimal text stands for: two digits a byte, with blanks
// before, between and after bytes. None where the text is anything else.
pub fn hex_bytes(heap: Global, text: &[u8]) -> Result<Option<Vec<u8>>, AllocError>
    ensures { IfOk result (λ o. MatchOption o (hex text.now ≡ None) (λ v. hex text.now ≡ Some v.items)) }
{
    let mut bytes = Vec::new(heap);
    let mut rest = text;
    // a blank takes one character and a byte two, so chunks would not do
    while let Some((high, after)) = rest.split_first() {
        if is_blank(*high) {
            rest = after;
            continue;
        }
        let Some((low, after)) = after.split_first() else {
            return Ok(None);
        };
        let Some(b) = byte(*high, *low) else {
            return Ok(None);
        };
        bytes.push(b)?;
        rest = after;
    }
    Ok(Some(bytes))
}
