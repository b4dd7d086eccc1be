// The header of a perf.data file.
ghost use Rattle.std.specs.Prelude.{◌≡◌, ◌+◌, ◌≤◌, length, IsTrue};
ghost use Rattle.std.specs.Option.{option_map};
ghost use Rattle.memory_image.specs.Words.{u16_at};
ghost use Rattle.perf_data.specs.FileHeader.{is_foreign, has_header_of, is_pipe, has_file_header};
ghost use Rattle.perf_data.specs.FileHeader.{section, attribute_size, is_unfinished};

use memory_image::u64_at;

const MAGIC: [u8; 8] = *b"PERFILE2";

// the same number in the other byte order
const FOREIGN_MAGIC: [u8; 8] = *b"2ELIFREP";

/// The size of the header of a file.
pub(crate) const HEADER_SIZE: usize = 104;

// the header of older files has no bits of features
const OLDER_HEADER_SIZE: usize = 72;

const PIPE_HEADER_SIZE: usize = 16;

const OWN_SIZE_OFFSET: usize = 8;

const ATTRIBUTE_SIZE_OFFSET: usize = 16;

/// Where the header tells of the section of the attributes.
pub(crate) const ATTRIBUTES_OFFSET: usize = 24;

/// Where the header tells of the section of the records.
pub(crate) const RECORDS_OFFSET: usize = 40;

/// The little-endian number of the two bytes from an offset on.
pub(crate) fn u16_at(bytes: &[u8], offset: usize) -> u16
    requires { offset + 2 ≤ length bytes.now }
    ensures { result ≡ u16_at bytes.now offset }
{
    u16::from_le_bytes([bytes[offset], bytes[offset + 1]])
}

/// Whether a machine of the other byte order wrote the file.
pub(crate) fn is_foreign(bytes: &[u8]) -> bool
    ensures { result ≡ is_foreign bytes.now }
{
    bytes.starts_with(&FOREIGN_MAGIC)
}

/// Whether bytes begin with a header of this size.
fn has_header_of(size: usize, bytes: &[u8]) -> bool
    requires { 16 ≤ size }
    ensures value { result ≡ has_header_of size bytes.now }
    ensures whole { IsTrue result → size ≤ length bytes.now }
{
    bytes.len() >= size
        && bytes.starts_with(&MAGIC)
        && u64_at(bytes, OWN_SIZE_OFFSET) == size as u64
}

/// Whether bytes begin with the header that perf writes to a pipe.
pub(crate) fn is_pipe(bytes: &[u8]) -> bool
    ensures { result ≡ is_pipe bytes.now }
{
    has_header_of(PIPE_HEADER_SIZE, bytes)
}

/// Whether bytes begin with the header of a file.
pub(crate) fn has_file_header(bytes: &[u8]) -> bool
    ensures value { result ≡ has_file_header bytes.now }
    ensures whole { IsTrue result → 72 ≤ length bytes.now }
{
    has_header_of(HEADER_SIZE, bytes) || has_header_of(OLDER_HEADER_SIZE, bytes)
}

/// The size of an attribute in the file.
pub(crate) fn attribute_size(bytes: &[u8]) -> u64
    requires { 72 ≤ length bytes.now }
    ensures { result ≡ attribute_size bytes.now }
{
    u64_at(bytes, ATTRIBUTE_SIZE_OFFSET)
}

/// Whether the recording didn't end.
pub(crate) fn is_unfinished(bytes: &[u8]) -> bool
    requires { 72 ≤ length bytes.now }
    ensures { result ≡ is_unfinished bytes.now }
{
    u64_at(bytes, RECORDS_OFFSET + 8) == 0
}

/// The section of which the header tells at a place: its offset in the file, and its bytes. `None` where it doesn't lie
/// within the file.
pub(crate) fn section(bytes: &[u8], place: usize) -> Option<(u64, &[u8])>
    requires { place + 16 ≤ length bytes.now }
    ensures { option_map (λ p. (p.0, p.1.now)) result ≡ section bytes.now place }
{
    let offset = u64_at(bytes, place);
    let size = u64_at(bytes, place + 8);
    let whole = bytes.len() as u64;
    if offset <= whole && size <= whole - offset {
        Some((offset, &bytes[offset as usize..][..size as usize]))
    } else {
        None
    }
}
