// Bytes from hexadecimal digits.
use std::alloc::{AllocError, Global};

fn digit(letter: u8) -> Option<u8> {
    char::from(letter).to_digit(16).map(|digit| digit as u8)
}

// The bytes that the digits spell, the high digit first; what is no digit is skipped.
pub(crate) fn bytes_of(heap: Global, letters: &[u8]) -> Result<Vec<u8>, AllocError> {
    let mut bytes = Vec::new(heap);
    let mut high = None;
    for letter in letters {
        match (digit(*letter), high) {
            (Some(low), Some(byte)) => {
                bytes.push(low.wrapping_add(byte))?;
                high = None;
            }
            (Some(first), None) => high = Some(first.wrapping_mul(16)),
            (None, _) => {}
        }
    }
    Ok(bytes)
}
