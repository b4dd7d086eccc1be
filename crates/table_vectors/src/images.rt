// Images of memory, records, counted steps and the two ends: outside values, that calls can succeed,
// and each type through its trait once.
ghost use Rattle.std.specs.Prelude.{◌≤◌, length};

use crate::asserting::expect_equal;
use memory_image::{
    Counted, Failed, ImageError, Keyed, Ledger, MemoryImage, MemorySink, MemorySource, NoLedger,
    PlainSink, PlainSource, Record, Records, Sink, Source, StdinSource, StdoutSink, Steps,
};
use std::test::Fail;

/// A record of two numbers, as formats have them: an address at 0 and a size at 4.
#[derive(Clone, Copy, Debug, PartialEq, Eq)]
struct Entry {
    address: u32,
    size: u16,
}

impl Record for Entry {
    ghost use Rattle.std.proofs.Common.{◌≡◌, ◌∙◌, ◌≤◌, length, drop, ap, sym, subst};
    ghost use Rattle.std.proofs.Common.{lit≤};
    ghost use Rattle.memory_image.specs.Words.{u16_at, u32_at, same_from_u16_at, same_from_u32_at};
    ghost use Rattle.memory_image.specs.Words.{same_end};
    ghost use Rattle.table_vectors.specs.declared.images.Entry.{Entry as Value};

    const SIZE: usize = 6;

    ghost SIZE = { 6 };

    ghost value_of = { λ bytes. record { address = u32_at bytes 0; size = u16_at bytes 4 } };

    fn read(bytes: &[u8]) -> Entry {
        Entry {
            address: u32::from_le_bytes([bytes[0], bytes[1], bytes[2], bytes[3]]),
            size: u16::from_le_bytes([bytes[4], bytes[5]]),
        }
    }

    ghost has_size = { lit≤ tt };

    ghost keeps_all = { λ xs ys m n b c e.
        let same : length xs ≡ length ys = m ∙ sym n in
        let sizes : drop 4 xs ≡ drop 4 ys = same_from_u16_at xs ys 4 same (subst (λ l. 6 ≤ l) (sym m) (lit≤ tt)) b c (ap (λ (v : Value). v.size) e) (same_end 6 xs ys m n) in
        same_from_u32_at xs ys 0 same (subst (λ l. 4 ≤ l) (sym m) (lit≤ tt)) b c (ap (λ (v : Value). v.address) e) sizes };
}

impl Keyed for Entry {
    ghost key = { λ entry. entry.address };

    fn read_key(bytes: &[u8]) -> u32 {
        Entry::read(bytes).address
    }
}

#[test]
fn regions_are_taken_or_refused(rt: HostRuntime) -> Result<(), Fail> {
    let mut image = MemoryImage::new(rt.alloc());
    expect_equal(&rt, image.add(0x7000, &[]), Err(ImageError::Empty));
    expect_equal(&rt, image.add(u64::MAX, &[7]), Ok(()));
    expect_equal(&rt, image.add(u64::MAX, &[7, 8]), Err(ImageError::Wraps));
    expect_equal(&rt, image.add(0x7000, &[0xaa; 16]), Ok(()));
    expect_equal(
        &rt,
        image.add(0x7008, &[0; 16]),
        Err(ImageError::Overlap(0x7000)),
    );
    expect_equal(&rt, image.add(0x7010, &[1, 2, 3, 4]), Ok(()));
    expect_equal(
        &rt,
        image.add(0x6fff, &[9; 100]),
        Err(ImageError::Overlap(0x7000)),
    );
    expect_equal(&rt, image.read_u64(0x7008), Some(0xaaaa_aaaa_aaaa_aaaa));
    expect_equal(&rt, image.read_u64(0x700c), Some(0x0403_0201_aaaa_aaaa));
    expect_equal(&rt, image.read_u64(0x700d), None);
    expect_equal(&rt, image.read_u32(0x7010), Some(0x0403_0201));
    expect_equal(&rt, image.read_u32(0x700f), Some(0x0302_01aa));
    expect_equal(&rt, image.read_u32(0x7012), None);
    expect_equal(&rt, image.read_u64(u64::MAX), None);
    expect_equal(&rt, image.byte(u64::MAX), Some(7));
    expect_equal(&rt, image.byte(0x6fff), None);
    expect_equal(&rt, image.from(0x700e), Some([0xaa, 0xaa].as_slice()));
    expect_equal(&rt, image.from(0x7014).is_none(), true);
    Ok(())
}

/// The word at an address of an image with one region more.
fn read_over(image: &MemoryImage<'static>, bytes: &[u8], address: u64) -> Option<u64> {
    match MemoryImage::over(image, 0x7fa0, bytes) {
        Ok(over) => over.read_u64(address),
        Err(_) => None,
    }
}

/// Why an image doesn't take one region more, if it doesn't.
fn refused_over<'a>(
    image: &'a MemoryImage<'a>,
    address: u64,
    bytes: &'a [u8],
) -> Option<ImageError> {
    match MemoryImage::over(image, address, bytes) {
        Ok(_) => None,
        Err(error) => Some(error),
    }
}

/// One region more over an image.
fn over<'a>(
    image: &'a MemoryImage<'a>,
    address: u64,
    bytes: &'a [u8],
) -> Result<MemoryImage<'a>, Fail> {
    let image = MemoryImage::over(image, address, bytes)
        .ok()
        .ok_or("refused")?;
    Ok(image)
}

/// How many bytes the region of an address has from there on.
fn count_from(image: &MemoryImage<'_>, address: u64) -> Option<usize> {
    match image.from(address) {
        Some(bytes) => Some(bytes.len()),
        None => None,
    }
}

#[test]
fn a_region_is_taken_over_an_image(rt: HostRuntime) -> Result<(), Fail> {
    let mut image: MemoryImage<'static> = MemoryImage::new(rt.alloc());
    expect_equal(&rt, image.add(0x7000, &[0xaa; 16]), Ok(()));
    expect_equal(&rt, image.add(0x7fb0, &[0xbb; 16]), Ok(()));
    let stack = [1, 2, 3, 4, 5, 6, 7, 8, 9, 10, 11, 12, 13, 14, 15, 16];
    for (address, word) in [
        (0x7000, Some(0xaaaa_aaaa_aaaa_aaaa)),
        (0x7fa0, Some(0x0807_0605_0403_0201)),
        (0x7fa8, Some(0x100f_0e0d_0c0b_0a09)),
        (0x7fac, Some(0xbbbb_bbbb_100f_0e0d)),
        (0x7fb0, Some(0xbbbb_bbbb_bbbb_bbbb)),
        (0x7f9f, None),
        (0x7fb9, None),
    ] {
        expect_equal(&rt, read_over(&image, &stack, address), word);
    }
    expect_equal(&rt, read_over(&image, &stack[..8], 0x7fa0).is_some(), true);
    expect_equal(&rt, read_over(&image, &stack[..8], 0x7fa4), None);
    Ok(())
}

#[test]
fn images_over_images_refuse_as_images_do(rt: HostRuntime) -> Result<(), Fail> {
    let mut tables: MemoryImage<'static> = MemoryImage::new(rt.alloc());
    expect_equal(&rt, tables.add(0x7000, &[0xaa; 16]), Ok(()));
    for (address, bytes, error) in [
        (0x6fff, [].as_slice(), ImageError::Empty),
        (u64::MAX, [1, 2].as_slice(), ImageError::Wraps),
        (0x6fff, [1, 2].as_slice(), ImageError::Overlap(0x7000)),
        (0x700f, [1].as_slice(), ImageError::Overlap(0x7000)),
    ] {
        let refused = refused_over(&tables, address, bytes);
        expect_equal(&rt, refused, Some(error));
    }
    Ok(())
}

#[test]
fn images_over_images_over_images_refuse_what_overlaps_any(rt: HostRuntime) -> Result<(), Fail> {
    let mut tables: MemoryImage<'static> = MemoryImage::new(rt.alloc());
    expect_equal(&rt, tables.add(0x7000, &[0xaa; 16]), Ok(()));
    let stack = over(&tables, 0x7010, &[1, 2, 3, 4, 5, 6, 7, 8])?;
    let mut signal_stack = over(&stack, 0x7ff0, &[9; 8])?;
    for (address, start) in [
        (0x6ff8, 0x7000),
        (0x7008, 0x7000),
        (0x7010, 0x7010),
        (0x7ff7, 0x7ff0),
    ] {
        let refused = refused_over(&signal_stack, address, &[0; 16]);
        expect_equal(&rt, refused, Some(ImageError::Overlap(start)));
    }
    let overlap = Err(ImageError::Overlap(0x7ff0));
    expect_equal(&rt, signal_stack.add(0x7ff0, &[1]), overlap);
    let no_memory = Err(ImageError::NoMemory);
    expect_equal(&rt, signal_stack.add(0x8000, &[1]), no_memory);
    Ok(())
}

#[test]
fn images_over_images_over_images_are_read(rt: HostRuntime) -> Result<(), Fail> {
    let mut tables: MemoryImage<'static> = MemoryImage::new(rt.alloc());
    expect_equal(&rt, tables.add(0x7000, &[0xaa; 16]), Ok(()));
    let stack = over(&tables, 0x7010, &[1, 2, 3, 4, 5, 6, 7, 8])?;
    let signal_stack = over(&stack, 0x7ff0, &[9; 8])?;
    for (address, word) in [
        (0x700c, 0x0403_0201_aaaa_aaaa),
        (0x7ff0, 0x0909_0909_0909_0909),
    ] {
        expect_equal(&rt, signal_stack.read_u64(address), Some(word));
    }
    for (address, count) in [(0x7010, Some(8)), (0x7017, Some(1)), (0x7018, None)] {
        expect_equal(&rt, count_from(&signal_stack, address), count);
    }
    Ok(())
}

#[test]
fn errors_are_told(rt: HostRuntime) -> Result<(), Fail> {
    for (error, text) in [
        (ImageError::Empty, "empty region"),
        (ImageError::Wraps, "region past the last address"),
        (
            ImageError::Overlap(0x7000),
            "region overlaps the one at 0x7000",
        ),
        (ImageError::NoMemory, "no memory"),
    ] {
        expect_equal(&rt, format!(in rt.alloc(); "{error}")?.as_str(), text);
    }
    Ok(())
}

fn first<T: Record>(records: &Records<'_, T>) -> Option<T> {
    records.get(0)
}

fn last_up_to<T: Keyed>(records: &Records<'_, T>, key: u32) -> Option<T> {
    records.get(records.boundary(key)?)
}

#[test]
fn sorted_records_are_searched(rt: HostRuntime) -> Result<(), Fail> {
    let bytes = [
        0x10, 0x20, 0x40, 0, 3, 0, 0x11, 0x20, 0x40, 0, 4, 1, 0x11, 0x20, 0x40, 0, 5, 0, 0, 0, 0,
        0xff, 6, 0,
    ];
    let records = Records::<Entry>::over(&bytes, 0, 4).ok_or("fits")?;
    for (key, place) in [
        (0x40_200f, None),
        (0x40_2010, Some(0)),
        (0x40_2011, Some(2)),
        (0xfeff_ffff, Some(2)),
        (0xff00_0000, Some(3)),
        (u32::MAX, Some(3)),
    ] {
        expect_equal(&rt, records.boundary(key), place);
    }
    let third = Entry {
        address: 0x40_2011,
        size: 5,
    };
    expect_equal(&rt, last_up_to(&records, 0x40_2012), Some(third));
    expect_equal(&rt, records.after(4).boundary(0), None);
    if records.len() > 2 {
        expect_equal(&rt, records.at(2), third);
    }
    Ok(())
}

#[test]
fn records_are_read(rt: HostRuntime) -> Result<(), Fail> {
    let bytes = [9, 0x10, 0x20, 0x40, 0, 3, 0, 0x11, 0x20, 0x40, 0, 4, 1, 9];
    let records = Records::<Entry>::over(&bytes, 1, 2).ok_or("fits")?;
    let second = Entry {
        address: 0x40_2011,
        size: 0x104,
    };
    expect_equal(&rt, records.len(), 2);
    expect_equal(&rt, records.get(1), Some(second));
    expect_equal(&rt, first(&records.after(1)), Some(second));
    expect_equal(&rt, records.get(2), None);
    expect_equal(&rt, records.after(usize::MAX).len(), 0);
    expect_equal(&rt, Records::<Entry>::over(&bytes, 3, 2).is_none(), true);
    expect_equal(&rt, Records::<Entry>::over(&bytes, 14, 0).is_some(), true);
    expect_equal(
        &rt,
        Records::<Entry>::over(&bytes, u64::MAX, 0).is_none(),
        true,
    );
    expect_equal(
        &rt,
        Records::<Entry>::over(&bytes, 0, usize::MAX).is_none(),
        true,
    );
    Ok(())
}

fn take_two<L: Ledger>(steps: &mut Steps<L>) {
    steps.tick();
    steps.tick();
}

#[test]
fn steps_are_counted(rt: HostRuntime) -> Result<(), Fail> {
    let mut counted = Steps::new(Counted { count: 0 });
    take_two(&mut counted);
    expect_equal(&rt, counted.ledger().count, 2);
    let mut none = Steps::new(NoLedger);
    take_two(&mut none);
    expect_equal(&rt, *none.ledger(), NoLedger);
    expect_equal(&rt, std::mem::size_of::<Steps<NoLedger>>(), 0);
    expect_equal(&rt, std::mem::size_of::<Steps<Counted>>(), 8);
    Ok(())
}

fn give<S: Source>(source: &mut S, into: &mut [u8]) -> Result<usize, Failed> {
    source.read(into)
}

fn take<S: Sink>(sink: &mut S, from: &[u8]) -> Result<usize, Failed> {
    sink.write(from)
}

#[test]
fn sources_give(rt: HostRuntime) -> Result<(), Fail> {
    let mut into = [0; 8];
    let mut source = MemorySource::new(b"abcdef", 4, &[1]);
    expect_equal(&rt, give(&mut source, &mut into), Ok(4));
    expect_equal(&rt, give(&mut source, &mut into), Err(Failed));
    expect_equal(&rt, give(&mut source, &mut into), Ok(2));
    expect_equal(&rt, &into[..4], b"efcd".as_slice());
    expect_equal(&rt, give(&mut source, &mut into), Ok(0));
    let mut plain = PlainSource::new(b"xyz", 2);
    expect_equal(&rt, give(&mut plain, &mut into), Ok(2));
    expect_equal(&rt, give(&mut plain, &mut into), Ok(1));
    expect_equal(&rt, give(&mut plain, &mut into), Ok(0));
    let mut standard = StdinSource::new(rt.stdin());
    expect_equal(&rt, give(&mut standard, &mut []), Ok(0));
    Ok(())
}

#[test]
fn sinks_take(rt: HostRuntime) -> Result<(), Fail> {
    let mut sink = MemorySink::new(rt.alloc(), 3, &[0])?;
    expect_equal(&rt, take(&mut sink, b"ab"), Err(Failed));
    expect_equal(&rt, take(&mut sink, b"ab"), Ok(2));
    expect_equal(&rt, take(&mut sink, b"cd"), Ok(1));
    expect_equal(&rt, take(&mut sink, b"d"), Err(Failed));
    expect_equal(&rt, take(&mut sink, b""), Ok(0));
    expect_equal(&rt, sink.held(), b"abc".as_slice());
    let mut plain = PlainSink::new();
    expect_equal(&rt, take(&mut plain, b"abc"), Ok(3));
    expect_equal(&rt, plain.taken(), 3);
    let mut standard = StdoutSink::new(rt.stdout());
    expect_equal(&rt, take(&mut standard, b""), Ok(0));
    Ok(())
}
