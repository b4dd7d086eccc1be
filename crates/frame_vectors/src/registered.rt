// Registered frame tables, and finders that are asked in turn.
use crate::asserting::expect_equal;
use crate::headers::{FRAMES, HEADER};
use memory_image::{MemoryImage, NoLedger, Steps};
use std::test::Fail;
use unwinding_core::{
    CustomFinder, EhFrameFinder, FDEFinder, FrameInfo, GlobalFinder, GnuHdrFinder, Object,
    PhdrFinder, Registry, StaticFinder,
};

// The description of one function, 0x401000 to 0x401010, in a frame table at 0x500000.
const ONE: &str =
    "1400000000000000017a5200017810011b0c070890010000140000001c000000e00ff0ff1000000000410e108302000000000000";

// The list of the one table's address, with its end.
const LIST: &str = "00005000000000000000000000000000";

// What would name the same tables for each address.
#[derive(Drop)]
struct Named(FrameInfo);

impl EhFrameFinder for Named {
    ghost use Rattle.std.specs.Prelude.{◌≡◌, Some};

    ghost names = { λ n pc info. info ≡ Some n.0 };

    fn find(&self, pc: u64) -> Option<FrameInfo> {
        let _ = pc;
        Some(self.0)
    }
}

fn start<F: FDEFinder>(finder: &F, image: &MemoryImage, pc: u64) -> Option<u64> {
    let mut steps = Steps::new(NoLedger);
    let found = finder.find_fde(image, pc, &mut steps)?;
    Some(found.fde.initial_address())
}

fn object(begin: u64, multiple: bool) -> Object {
    Object {
        begin,
        tbase: 0,
        dbase: 0,
        multiple,
    }
}

#[test]
fn tables_are_registered_and_removed(rt: HostRuntime) -> Result<(), Fail> {
    let frames = hex::decode(rt.alloc(), ONE)?;
    let mut image = MemoryImage::new(rt.alloc());
    image.add(0x50_0000, &frames)?;
    let mut registry = Registry::new(rt.alloc());
    registry.register_frame(0x50_0000)?;
    registry.register_frame_info(0x50_0000)?;
    expect_equal(&rt, start(&registry, &image, 0x40_1005), Some(0x40_1000));
    let table = Some(object(0x50_0000, false));
    expect_equal(&rt, registry.deregister_frame(0x50_0000), table);
    expect_equal(&rt, registry.deregister_frame(0x50_0000), table);
    expect_equal(&rt, registry.deregister_frame(0x50_0000), None);
    expect_equal(&rt, start(&registry, &image, 0x40_1005), None);
    // 0 is the address of no table
    registry.register_frame(0)?;
    registry.register_frame_info_bases(0, 1, 2)?;
    registry.register_frame_table(0)?;
    registry.register_frame_info_table(0)?;
    expect_equal(&rt, registry.deregister_frame_info(0), None);
    Ok(())
}

// Each registration is the first of a new registry, and is taken from it by another of the calls.
#[test]
fn each_registration_is_found(rt: HostRuntime) -> Result<(), Fail> {
    let frames = hex::decode(rt.alloc(), ONE)?;
    let list = hex::decode(rt.alloc(), LIST)?;
    let mut image = MemoryImage::new(rt.alloc());
    image.add(0x50_0000, &frames)?;
    image.add(0x50_5000, &list)?;
    let mut registry = Registry::new(rt.alloc());
    registry.register_frame_info_bases(0x50_0000, 0, 0)?;
    expect_equal(&rt, start(&registry, &image, 0x40_1005), Some(0x40_1000));
    expect_equal(&rt, start(&registry, &image, 0x40_1010), None);
    let table = Some(object(0x50_0000, false));
    expect_equal(&rt, registry.deregister_frame_info_bases(0x50_0000), table);
    let listed = Some(object(0x50_5000, true));
    let mut registry = Registry::new(rt.alloc());
    registry.register_frame_info_table_bases(0x50_5000, 0, 0)?;
    expect_equal(&rt, start(&registry, &image, 0x40_1005), Some(0x40_1000));
    expect_equal(&rt, registry.deregister_frame_info(0x50_5000), listed);
    let mut registry = Registry::new(rt.alloc());
    registry.register_frame_info_table(0x50_5000)?;
    expect_equal(&rt, start(&registry, &image, 0x40_1005), Some(0x40_1000));
    expect_equal(&rt, registry.deregister_frame(0x50_5000), listed);
    let mut registry = Registry::new(rt.alloc());
    registry.register_frame_table(0x50_5000)?;
    expect_equal(&rt, start(&registry, &image, 0x40_1005), Some(0x40_1000));
    Ok(())
}

#[test]
fn finders_are_asked_in_turn(rt: HostRuntime) -> Result<(), Fail> {
    let one = hex::decode(rt.alloc(), ONE)?;
    let frames = hex::decode(rt.alloc(), FRAMES)?;
    let header = hex::decode(rt.alloc(), HEADER)?;
    let mut image = MemoryImage::new(rt.alloc());
    image.add(0x50_0000, &frames)?;
    image.add(0x50_4000, &header)?;
    image.add(0x60_0000, &one)?;
    let mut registry = Registry::new(rt.alloc());
    // the same bytes 0x100000 higher describe the code there
    registry.register_frame(0x60_0000)?;
    let mut finder = GlobalFinder {
        custom: Some(CustomFinder::<Named>::new()),
        registry: Some(registry),
        gnu: None,
        phdr: Some(PhdrFinder::new(rt.alloc())),
        fixed: Some(StaticFinder::new(0x40_1000, 0x40_1050, 0x50_0000)),
    };
    expect_equal(&rt, start(&finder, &image, 0x50_1005), Some(0x50_1000));
    expect_equal(&rt, start(&finder, &image, 0x40_1020), Some(0x40_1020));
    expect_equal(&rt, start(&finder, &image, 0x40_1050), None);
    finder.gnu = Some(GnuHdrFinder::new(0x40_1050, 0x40_1080, 0x50_4000));
    expect_equal(&rt, start(&finder, &image, 0x40_1050), Some(0x40_1050));
    finder.fixed = None;
    expect_equal(&rt, start(&finder, &image, 0x40_1020), None);
    Ok(())
}
