// Little-endian numbers in bytes.
ghost use Rattle.std.specs.Prelude.{◌≡◌, ◌+◌, ◌≤◌, length};
ghost use Rattle.std.specs.Option.{option_map};
ghost use Rattle.pe_unwind_info.specs.Numbers.{u16_at, u32_at, first_u16, first_u32};

pub(crate) fn u16_at(bytes: &[u8], offset: usize) -> u16
    requires { offset + 2 ≤ length bytes.now }
    ensures { result ≡ u16_at offset bytes.now }
{
    u16::from_le_bytes([bytes[offset], bytes[offset + 1]])
}

pub(crate) fn u32_at(bytes: &[u8], offset: usize) -> u32
    requires { offset + 4 ≤ length bytes.now }
    ensures { result ≡ u32_at offset bytes.now }
{
    u32::from_le_bytes([
        bytes[offset],
        bytes[offset + 1],
        bytes[offset + 2],
        bytes[offset + 3],
    ])
}

/// The number of the first two bytes, with the bytes after them.
pub(crate) fn split_u16(bytes: &[u8]) -> Option<(u16, &[u8])>
    ensures { option_map (λ p. (p.0, p.1.now)) result ≡ first_u16 bytes.now }
{
    if bytes.len() < 2 {
        None
    } else {
        Some((u16_at(bytes, 0), &bytes[2..]))
    }
}

/// The number of the first four bytes, with the bytes after them.
pub(crate) fn split_u32(bytes: &[u8]) -> Option<(u32, &[u8])>
    ensures { option_map (λ p. (p.0, p.1.now)) result ≡ first_u32 bytes.now }
{
    if bytes.len() < 4 {
        None
    } else {
        Some((u32_at(bytes, 0), &bytes[4..]))
    }
}
