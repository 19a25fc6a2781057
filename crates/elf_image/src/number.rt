//! Little-endian numbers in a file. A byte past the end counts as 0, as in the definitions.
ghost use Rattle.std.specs.Prelude.{◌≡◌, ◌<◌, ◌^◌, slice_index};
ghost use Rattle.elf_spec.specs.Number.{u16_at, u32_at};

/// The byte at a place.
pub(crate) fn byte_at(bytes: &[u8], place: usize) -> u8
    ensures { result ≡ slice_index bytes.now place }
{
    bytes.get(place).copied().unwrap_or(0)
}

/// The number of two bytes at a place.
pub(crate) fn u16_at(bytes: &[u8], place: usize) -> u16
    requires { place < 2 ^ 63 }
    ensures { result ≡ u16_at bytes.now place }
{
    u16::from_le_bytes([byte_at(bytes, place), byte_at(bytes, place + 1)])
}

/// The number of four bytes at a place.
pub(crate) fn u32_at(bytes: &[u8], place: usize) -> u32
    requires { place < 2 ^ 62 }
    ensures { result ≡ u32_at bytes.now place }
{
    u32::from_le_bytes([
        byte_at(bytes, place),
        byte_at(bytes, place + 1),
        byte_at(bytes, place + 2),
        byte_at(bytes, place + 3),
    ])
}
