//! Three functions, two of which have language tables, and what is claimed of them.

use memory_image::MemoryImage;
use std::alloc::{AllocError, Global};
use table_check::{
    ClaimStep, Claims, EhAction, FrameInfo, FrameInfoKind, Reason, Register, Verdict, check,
};

const RBX: Register = Register(3);

const RBP: Register = Register(6);

const R14: Register = Register(14);

// A CIE and the FDE of the first function; a CIE with a personality, the FDEs of the others, and
// the end of the list.
const FRAMES: &[u8] =
    b"\x14\x00\x00\x00\x00\x00\x00\x00\x01\x7a\x52\x00\x01\x78\x10\x01\x1b\x0c\x07\x08\x90\x01\x00\x00\
    \x18\x00\x00\x00\x1c\x00\x00\x00\xe0\x0f\xf0\xff\x20\x00\x00\x00\x00\x41\x0e\x10\x86\x02\x43\x0d\x06\x45\x83\x03\
    \x1c\x00\x00\x00\x00\x00\x00\x00\x01\x7a\x50\x4c\x52\x00\x01\x78\x10\x07\x9b\xb9\x2f\x00\x00\x1b\x1b\
    \x0c\x07\x08\x90\x01\x00\x00\
    \x18\x00\x00\x00\x24\x00\x00\x00\xc4\x0f\xf0\xff\x30\x00\x00\x00\x04\x9b\x1f\x00\x00\x41\x0e\x10\x83\x02\x00\x00\
    \x20\x00\x00\x00\x40\x00\x00\x00\xd8\x0f\xf0\xff\x30\x00\x00\x00\x04\x8b\x1f\x00\x00\
    \x42\x0e\x10\x41\x0e\x18\x44\x0e\x20\x83\x03\x8e\x02\x00\x00\
    \x00\x00\x00\x00";

// Their language tables, and the cell of their personality.
const LANGUAGES: &[u8] =
    b"\xff\xff\x01\x08\x08\x10\x20\x00\x20\x10\x00\x00\xff\x9b\x0c\x01\x04\x08\x10\x20\x01\x01\x00\x00\x00\x00\x00";

const CELL: &[u8] = b"\x00\x40\x40\x00\x00\x00\x00\x00";

// A function that pushes RBP, sets it, pushes RBX and allocates 8 bytes.
fn claim_first(claims: &mut Claims) -> Result<(), AllocError> {
    claims.push(0x40_1000, 0x40_1020, false)?;
    claims.step(1, ClaimStep::Push(RBP))?;
    claims.step(4, ClaimStep::Set(0))?;
    claims.step(5, ClaimStep::Push(RBX))?;
    claims.step(9, ClaimStep::Allocate(8))?;
    claims.body(0x40_1009, 0x40_1020)?;
    Ok(())
}

// One that pushes RBX, with a cleanup.
fn claim_second(claims: &mut Claims, pad: u64) -> Result<(), AllocError> {
    claims.push(0x40_1020, 0x40_1050, false)?;
    claims.step(1, ClaimStep::Push(RBX))?;
    claims.body(0x40_1021, 0x40_1050)?;
    claims.table()?;
    claims.site(0x40_1028, 0x40_1038, EhAction::Cleanup(pad))?;
    claims.site(0x40_1040, 0x40_1050, EhAction::None)?;
    Ok(())
}

// One that pushes R14 and RBX and allocates 8 bytes, with a handler.
fn claim_third(claims: &mut Claims) -> Result<(), AllocError> {
    claims.push(0x40_1050, 0x40_1080, false)?;
    claims.step(2, ClaimStep::Push(R14))?;
    claims.step(3, ClaimStep::Push(RBX))?;
    claims.step(7, ClaimStep::Allocate(8))?;
    claims.body(0x40_1057, 0x40_1080)?;
    claims.table()?;
    claims.site(0x40_1058, 0x40_1068, EhAction::Catch(0x40_1070))?;
    Ok(())
}

// The three functions, of which the second has its landing pad at an address.
fn claims_of(alloc: Global, pad: u64) -> Result<Claims, AllocError> {
    let mut claims = Claims::new(alloc);
    claim_first(&mut claims)?;
    claim_second(&mut claims, pad)?;
    claim_third(&mut claims)?;
    Ok(claims)
}

// What a check answers where the personality's cell stands at an address.
fn verdict(alloc: Global, cell: u64, claims: &mut Claims) -> Option<Verdict> {
    let mut image = MemoryImage::new(alloc);
    image.add(0x50_0000, FRAMES).ok()?;
    image.add(0x50_2000, LANGUAGES).ok()?;
    image.add(cell, CELL).ok()?;
    let frame = FrameInfo {
        text_base: None,
        kind: FrameInfoKind::EhFrame(0x50_0000),
    };
    Some(check(&image, 0x40_1000, 0x40_1080, frame, claims))
}

#[test]
fn language_tables_are_described(rt: HostRuntime) -> Result<(), AllocError> {
    let mut claims = claims_of(rt.alloc(), 0x40_1040)?;
    assert!(rt; verdict(rt.alloc(), 0x50_3000, &mut claims) == Some(Verdict::Yes));
    let program = Some(Verdict::No(Reason::Program(1)));
    assert!(rt; verdict(rt.alloc(), 0x50_4000, &mut claims) == program);
    let mut other = claims_of(rt.alloc(), 0x40_1044)?;
    let sites = Some(Verdict::No(Reason::Sites(1)));
    assert!(rt; verdict(rt.alloc(), 0x50_3000, &mut other) == sites);
    Ok(())
}
