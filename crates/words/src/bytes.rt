// Little-endian reads and writes. A byte past the end reads as 0; inside, a read is one load, and a write of up to four bytes one store.
ghost use Rattle.std.specs.Prelude.{◌≡◌, ℕ, ◌+◌, ◌*◌, ◌<◌, ◌≤◌, length, if◌then◌else◌, nat_le, slice_index};
ghost use Rattle.model.specs.Words.{read_bytes, write_bytes};

use std::array;

// The number of four bytes, the lowest first: the library's, with the sum in its contract, which the decoder goes by.
pub fn little_endian(a: u8, b: u8, c: u8, d: u8) -> u32
    ensures { result ≡ a + 256 * b + 65536 * c + 16777216 * d }
{
    u32::from_le_bytes([a, b, c, d])
}

// The byte at an offset.
pub fn byte_at(bytes: &[u8], at: usize) -> u8
    ensures { result ≡ slice_index bytes.now at }
{
    bytes.get(at).copied().unwrap_or(0)
}

// The N bytes from an offset on.
fn bytes_at<const N: usize>(bytes: &[u8], at: usize) -> [u8; N]
    ensures { (i : ℕ) → i < N → slice_index result i ≡ slice_index bytes.now (at + i) }
{
    let mut taken = [0; N];
    if at.checked_add(N).is_some_and(|end| end <= bytes.len()) {
        taken.copy_from_slice(&bytes[at..at + N]);
    } else if at < bytes.len() {
        let rest = &bytes[at..];
        taken = array::from_fn(|i| byte_at(rest, i));
    }
    taken
}

// The number of the two bytes at an offset. A function for each type, as `from_le_bytes` belongs to the type and to no trait.
#[tactic(auto, unfolding(model::specs::Words::read_bytes))]
pub fn read_u16(bytes: &[u8], at: usize) -> u16
    ensures { result ≡ read_bytes 2 bytes.now at }
{
    u16::from_le_bytes(bytes_at(bytes, at))
}

// The number of the four bytes at an offset.
#[tactic(auto, unfolding(model::specs::Words::read_bytes))]
pub fn read_u32(bytes: &[u8], at: usize) -> u32
    ensures { result ≡ read_bytes 4 bytes.now at }
{
    u32::from_le_bytes(bytes_at(bytes, at))
}

// The low N bytes of a number, from an offset on; nothing where they are not all there. N is at most four here. The functions below, which
// other crates may call, ask nothing of their callers.
#[tactic(auto, using(crate::proofs::Writes::put_written))]
fn write<const N: usize>(bytes: &mut [u8], at: usize, x: u32)
    requires { N ≤ 4 }
    ensures { bytes.new ≡ (if nat_le (at + N) (length bytes.old) then write_bytes N x bytes.old at else bytes.old) }
{
    if N <= bytes.len() && at <= bytes.len() - N {
        bytes[at..at + N].copy_from_slice(&x.to_le_bytes()[..N]);
    }
}

// The low N bytes of a number, from an offset on, for any N and any offset: those of them that lie within the bytes. Up to four that all do
// are one store; a number's bytes past its fourth are 0. Bytes, offset and number go apart in each of these: they are what a store takes,
// and nothing else goes with them.
pub fn store<const N: usize>(bytes: &mut [u8], at: usize, x: u32)
    ensures { bytes.new ≡ write_bytes N x bytes.old at }
{
    if N <= 4 && N <= bytes.len() && at <= bytes.len() - N {
        write::<N>(bytes, at, x);
    } else {
        let mut rest = x;
        for i in 0..N.min(bytes.len().saturating_sub(at)) {
            bytes[at + i] = (rest % 256) as u8;
            rest /= 256;
        }
    }
}

// The two bytes of a number, from an offset on; nothing where they are not all there.
pub fn write_u16(bytes: &mut [u8], at: usize, x: u16)
    ensures { bytes.new ≡ (if nat_le (at + 2) (length bytes.old) then write_bytes 2 x bytes.old at else bytes.old) }
{
    write::<2>(bytes, at, u32::from(x));
}

// The four bytes of a number, from an offset on; nothing where they are not all there.
pub fn write_u32(bytes: &mut [u8], at: usize, x: u32)
    ensures { bytes.new ≡ (if nat_le (at + 4) (length bytes.old) then write_bytes 4 x bytes.old at else bytes.old) }
{
    write::<4>(bytes, at, x);
}
