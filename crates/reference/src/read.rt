// Numbers out of bytes, the lowest first. What lies past an end reads as 0, so no reader asks for a bound. They do what `words`
// does, with which the reference shares nothing.
fn bytes<const N: usize>(s: &[u8], at: usize) -> [u8; N] {
    let mut bytes = [0; N];
    for (to, from) in bytes.iter_mut().zip(s.get(at..).unwrap_or(&[])) {
        *to = *from;
    }
    bytes
}

pub(crate) fn byte(s: &[u8], at: usize) -> u8 {
    s.get(at).copied().unwrap_or(0)
}

pub(crate) fn half(s: &[u8], at: usize) -> u16 {
    u16::from_le_bytes(bytes(s, at))
}

pub(crate) fn word(s: &[u8], at: usize) -> u32 {
    u32::from_le_bytes(bytes(s, at))
}

// Writes the lowest bytes of a number; what would lie past the end is left out.
pub(crate) fn put(s: &mut [u8], at: usize, count: usize, number: u32) {
    if let Some(rest) = s.get_mut(at..) {
        for (to, from) in rest.iter_mut().take(count).zip(number.to_le_bytes()) {
            *to = from;
        }
    }
}
