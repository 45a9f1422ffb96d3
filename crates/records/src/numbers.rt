// Numbers in bytes, the lowest byte first.

// How many bytes a number has.
pub const NUMBER_BYTES: usize = 8;

// The byte at a place, 0 past the end.
pub fn byte_at(bytes: &[u8], at: usize) -> u8 {
    bytes.get(at).copied().unwrap_or(0)
}

// The number that begins at a place. Bytes past the end are 0.
pub fn number_at(bytes: &[u8], at: usize) -> u64 {
    let mut number = [0u8; NUMBER_BYTES];
    for (to, from) in number.iter_mut().zip(bytes.iter().skip(at)) {
        *to = *from;
    }
    u64::from_le_bytes(number)
}
