// Buffers that hold a pattern before they are lent, so that a byte that was written to shows.
fn pattern(i: usize) -> u8 {
    (i % 251) as u8
}

pub(crate) fn fill(buffer: &mut [u8]) {
    for (i, byte) in buffer.iter_mut().enumerate() {
        *byte = pattern(i);
    }
}

// Whether the bytes from an offset on are as they were.
pub(crate) fn kept(buffer: &[u8], from: usize) -> bool {
    buffer
        .iter()
        .enumerate()
        .skip(from)
        .all(|(i, byte)| *byte == pattern(i))
}
