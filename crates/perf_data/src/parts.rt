// Reading bytes from left to right.
ghost use Rattle.std.specs.Prelude.{◌≡◌, ◌<◌};
ghost use Rattle.std.specs.Option.{option_map};
ghost use Rattle.perf_data.specs.Parts.{skip, split, first_word, skip_items};

use memory_image::u64_at;

const WORD_SIZE: usize = 8;

/// What follows so many bytes. `None` where they aren't there.
#[inline]
pub(crate) fn skip(size: u64, bytes: &[u8]) -> Option<&[u8]>
    ensures { option_map (λ rest. rest.now) result ≡ skip size bytes.now }
{
    if (bytes.len() as u64) < size {
        None
    } else {
        Some(&bytes[size as usize..])
    }
}

/// So many bytes, and what follows them. `None` where they aren't there.
#[inline]
pub(crate) fn split(size: u64, bytes: &[u8]) -> Option<(&[u8], &[u8])>
    ensures { option_map (λ p. (p.0.now, p.1.now)) result ≡ split size bytes.now }
{
    if (bytes.len() as u64) < size {
        None
    } else {
        let size = size as usize;
        Some((&bytes[..size], &bytes[size..]))
    }
}

/// The first word, and what follows it. `None` where it isn't there.
#[inline]
pub(crate) fn first_word(bytes: &[u8]) -> Option<(u64, &[u8])>
    ensures { option_map (λ p. (p.0, p.1.now)) result ≡ first_word bytes.now }
{
    if bytes.len() < WORD_SIZE {
        None
    } else {
        Some((u64_at(bytes, 0), &bytes[WORD_SIZE..]))
    }
}

/// What follows so many items of a size. `None` where they aren't there.
#[inline]
pub(crate) fn skip_items(count: u64, size: u64, bytes: &[u8]) -> Option<&[u8]>
    requires { 0 < size }
    ensures { option_map (λ rest. rest.now) result ≡ skip_items count size bytes.now }
{
    match count.checked_mul(size) {
        Some(all) => skip(all, bytes),
        None => None,
    }
}
