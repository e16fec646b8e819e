// The layout: base, size and guard, and refusal 5.
ghost use Rattle.std.specs.Prelude.{◌≡◌};
ghost use Rattle.model.specs.File.{layout_of, is_region_size, is_layout};

use model::Layout;

// Where base, size and guard stand in the field's value.
const BASE: usize = 0;

const SIZE: usize = 4;

const GUARD: usize = 8;

// The layout that the bytes give; bytes past the end are zero.
pub fn layout_of(bytes: &[u8]) -> Layout
    ensures { result ≡ layout_of bytes.now }
{
    Layout {
        base: words::bytes::read_u32(bytes, BASE),
        size: words::bytes::read_u32(bytes, SIZE),
        guard: words::bytes::read_u32(bytes, GUARD),
    }
}

// A power of two from 256 to 65,536.
fn is_region_size(size: u32) -> bool
    ensures { result ≡ is_region_size size }
{
    matches!(
        size,
        256 | 512 | 1024 | 2048 | 4096 | 8192 | 16384 | 32768 | 65536
    )
}

// The rules of a layout.
#[tactic(auto, using(crate::proofs::Layouts::region_size_positive), unfolding(model::specs::File::is_layout))]
pub fn is_layout(layout: Layout) -> bool
    ensures { result ≡ is_layout layout }
{
    let Layout { base, size, guard } = layout;
    is_region_size(size)
        && guard <= 4096
        && base % size == 0
        && guard <= base
        && (base as u64) + (size as u64) + (guard as u64) <= 0x1_0000_0000
}
