// Finders by program headers.
use crate::asserting::expect_equal;
use crate::headers::{FRAMES, HEADER};
use memory_image::{MemoryImage, NoLedger, Records, Steps};
use std::alloc::Global;
use std::test::Fail;
use unwinding_core::{FDEFinder, FDESearchResult, Phdr, PhdrFinder, PhdrObject};

// Headers of an object: of each its type, where it begins from the base on, and its size.
fn headers_of(alloc: Global, headers: &[(u32, u64, u64)]) -> Result<Vec<u8>, Fail> {
    let mut bytes = Vec::new(alloc);
    for (kind, address, size) in headers {
        bytes.extend_from_slice(&kind.to_le_bytes())?;
        // flags, and where the part lies in the file
        bytes.extend_from_slice(&[0; 12])?;
        bytes.extend_from_slice(&address.to_le_bytes())?;
        // the physical address and the size in the file
        bytes.extend_from_slice(&[0; 16])?;
        bytes.extend_from_slice(&size.to_le_bytes())?;
        bytes.extend_from_slice(&[0; 8])?;
    }
    Ok(bytes)
}

fn asked<'a>(
    alloc: Global,
    image: &MemoryImage<'a>,
    headers: &[u8],
    pc: u64,
) -> Result<Option<FDESearchResult<'a>>, Fail> {
    let mut finder = PhdrFinder::new(alloc);
    if let Some(headers) = Records::<Phdr>::over(headers, 0, headers.len() / 56) {
        finder.add(PhdrObject {
            base: 0x40_0000,
            headers,
        })?;
    }
    let mut steps = Steps::new(NoLedger);
    Ok(finder.find_fde(image, pc, &mut steps))
}

const LOADED: u32 = 1;

const DYNAMIC: u32 = 2;

const HEADER_OF_FRAMES: u32 = 0x6474_e550;

// The tags 5, 3 and 3 with values, and what stands after the end.
const TAGS: [u64; 10] = [5, 9, 3, 0x40_6000, 3, 0x40_7000, 0, 0, 3, 7];

#[test]
fn an_object_is_searched_by_its_headers(rt: HostRuntime) -> Result<(), Fail> {
    let frames = hex::decode(rt.alloc(), FRAMES)?;
    let header = hex::decode(rt.alloc(), HEADER)?;
    let mut tags = Vec::new(rt.alloc());
    for tag in TAGS {
        tags.extend_from_slice(&tag.to_le_bytes())?;
    }
    let mut image = MemoryImage::new(rt.alloc());
    image.add(0x50_0000, &frames)?;
    image.add(0x50_4000, &header)?;
    image.add(0x40_5000, &tags)?;
    let no_header = headers_of(rt.alloc(), &[(LOADED, 0x1000, 0x80), (DYNAMIC, 0x5000, 80)])?;
    assert!(rt; asked(rt.alloc(), &image, &no_header, 0x40_1020)?.is_none());
    // the last header of a type counts, and the range that passes the last address doesn't
    let whole = headers_of(
        rt.alloc(),
        &[
            (HEADER_OF_FRAMES, 0x9000, 0),
            (LOADED, 0, 0x9000),
            (LOADED, 0x1000, 0x50),
            (DYNAMIC, 0x5000, 80),
            (HEADER_OF_FRAMES, 0x10_4000, 36),
            (LOADED, 0x1000, u64::MAX),
        ],
    )?;
    let Some(found) = asked(rt.alloc(), &image, &whole, 0x40_1020)? else {
        assert!(rt; false);
        return Ok(());
    };
    expect_equal(&rt, found.fde.initial_address(), 0x40_1020);
    expect_equal(&rt, found.bases.text, Some(0x40_1000));
    expect_equal(&rt, found.bases.data_base, Some(0x40_6000));
    expect_equal(&rt, found.bases.hdr, Some(0x50_4000));
    expect_equal(&rt, found.bases.frame, Some(0x50_0000));
    let Some(found) = asked(rt.alloc(), &image, &whole, 0x40_1050)? else {
        assert!(rt; false);
        return Ok(());
    };
    expect_equal(&rt, found.bases.text, Some(0x40_0000));
    assert!(rt; asked(rt.alloc(), &image, &whole, 0x40_1080)?.is_none());
    Ok(())
}
