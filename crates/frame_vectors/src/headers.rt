// Headers of frame tables.
use crate::asserting::expect_equal;
use memory_image::{Counted, MemoryImage, Steps};
use std::test::Fail;
use unwinding_core::{FDEFinder, GnuHdrFinder};

// The descriptions of three functions, 0x401000 to 0x401020, 0x401020 to 0x401050 and 0x401050 to
// 0x401080, in a frame table at 0x500000.
pub const FRAMES: &str =
    "1400000000000000017a5200017810011b0c070890010000180000001c000000e00ff0ff2000000000410e10860\
    2430d064583031c00000000000000017a504c5200017810079bb92f00001b1b0c07089001000018000000240000\
    00c40ff0ff30000000049b1f0000410e10830200002000000040000000d80ff0ff30000000048b1f0000420e104\
    10e18440e2083038e0200000000";

// Its header at 0x504000.
pub const HEADER: &str = "011b033bfcbfffff0300000000d0efff18c0ffff20d0efff54c0ffff50d0efff70c0ffff";

// What a finder finds by the header for an address: where the function starts, whether its frame
// table lies at 0x500000, and how many entries were read.
fn found(image: &MemoryImage, pc: u64) -> (Option<u64>, bool, u64) {
    let finder = GnuHdrFinder::new(0x40_1000, 0x40_1080, 0x50_4000);
    let mut steps = Steps::new(Counted { count: 0 });
    match finder.find_fde(image, pc, &mut steps) {
        Some(found) => (
            Some(found.fde.initial_address()),
            found.bases.frame == Some(0x50_0000) && found.bases.hdr == Some(0x50_4000),
            steps.ledger().count,
        ),
        None => (None, false, steps.ledger().count),
    }
}

// Three entries are three, and 3 has two binary digits.
#[test]
fn three_functions_are_found_by_a_header(rt: HostRuntime) -> Result<(), Fail> {
    let frames = hex::decode(rt.alloc(), FRAMES)?;
    let header = hex::decode(rt.alloc(), HEADER)?;
    let mut image = MemoryImage::new(rt.alloc());
    image.add(0x50_0000, &frames)?;
    image.add(0x50_4000, &header)?;
    let cases = [
        (0x40_0fff, None),
        (0x40_1000, Some(0x40_1000)),
        (0x40_101f, Some(0x40_1000)),
        (0x40_1020, Some(0x40_1020)),
        (0x40_104f, Some(0x40_1020)),
        (0x40_1050, Some(0x40_1050)),
        (0x40_107f, Some(0x40_1050)),
        (0x40_1080, None),
    ];
    for (pc, start) in cases {
        let (at, tables, entries) = found(&image, pc);
        expect_equal(&rt, at, start);
        expect_equal(&rt, tables, start.is_some());
        assert!(rt; entries <= 2);
    }
    Ok(())
}
