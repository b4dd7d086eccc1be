//! Functions that push RBX, and what is claimed of them.

use memory_image::MemoryImage;
use std::alloc::{AllocError, Global};
use table_check::{
    ClaimStep, Claims, FrameInfo, FrameInfoKind, Reason, Register, Verdict, check,
    refusal_of_claims,
};

const RBX: Register = Register(3);

const RSI: Register = Register(4);

// A CIE, the FDE of a function of 16 bytes that pushes RBX, and the end of the list.
const PUSH_RBX: &[u8] =
    b"\x14\x00\x00\x00\x00\x00\x00\x00\x01\x7a\x52\x00\x01\x78\x10\x01\x1b\x0c\x07\x08\x90\x01\x00\x00\
    \x14\x00\x00\x00\x1c\x00\x00\x00\xe0\x0f\xf0\xff\x10\x00\x00\x00\x00\x41\x0e\x10\x83\x02\x00\x00\
    \x00\x00\x00\x00";

// A function that pushes a register, and whose body is all that follows.
fn pushing(alloc: Global, register: Register) -> Result<Claims, AllocError> {
    let mut claims = Claims::new(alloc);
    claims.push(0x40_1000, 0x40_1010, false)?;
    claims.step(1, ClaimStep::Push(register))?;
    claims.body(0x40_1001, 0x40_1010)?;
    Ok(claims)
}

// Why a claim is refused that pushes a register, in a module that ends at an address.
fn refusal(alloc: Global, register: Register, end: u64) -> Result<Option<Reason>, AllocError> {
    let claims = pushing(alloc, register)?;
    Ok(refusal_of_claims(&claims, 0x40_1000, end))
}

#[test]
fn claims_are_refused(rt: HostRuntime) -> Result<(), AllocError> {
    assert!(rt; refusal(rt.alloc(), RBX, 0x40_1010)?.is_none());
    assert!(rt; refusal(rt.alloc(), RSI, 0x40_1010)? == Some(Reason::Claim(0)));
    assert!(rt; refusal(rt.alloc(), RBX, 0x40_100f)? == Some(Reason::Range(0)));
    Ok(())
}

const TABLE: u64 = 0x50_0000;

const HEADER: u64 = 0x60_0000;

// The CIE, the FDEs of two functions of 8 bytes, each of which pushes RBX, and the end of the list.
const PUSH_TWICE: &[u8] =
    b"\x14\x00\x00\x00\x00\x00\x00\x00\x01\x7a\x52\x00\x01\x78\x10\x01\x1b\x0c\x07\x08\x90\x01\x00\x00\
    \x14\x00\x00\x00\x1c\x00\x00\x00\xe0\x0f\xf0\xff\x08\x00\x00\x00\x00\x41\x0e\x10\x83\x02\x00\x00\
    \x14\x00\x00\x00\x34\x00\x00\x00\xd0\x0f\xf0\xff\x08\x00\x00\x00\x00\x41\x0e\x10\x83\x02\x00\x00\
    \x00\x00\x00\x00";

// What a check answers of a module from 0x401000 to before 0x401010, in a memory with a frame table
// and a header.
fn verdict(
    alloc: Global,
    table: &[u8],
    header: &[u8],
    kind: FrameInfoKind,
    claims: &mut Claims,
) -> Option<Verdict> {
    let mut image = MemoryImage::new(alloc);
    image.add(TABLE, table).ok()?;
    image.add(HEADER, header).ok()?;
    let frame = FrameInfo {
        text_base: None,
        kind,
    };
    Some(check(&image, 0x40_1000, 0x40_1010, frame, claims))
}

// The same without a header.
fn verdict_on(alloc: Global, table: &[u8], claims: &mut Claims) -> Option<Verdict> {
    verdict(alloc, table, b"\x00", FrameInfoKind::EhFrame(TABLE), claims)
}

#[test]
fn entries_are_refused(rt: HostRuntime) {
    let mut none = Claims::new(rt.alloc());
    let first = Some(Verdict::No(Reason::Entry(0)));
    let cut_long = b"\xff\xff\xff\xff\x04\x00\x00\x00\x00\x00\x00\x00";
    assert!(rt; verdict_on(rt.alloc(), cut_long, &mut none) == first);
    let second = Some(Verdict::No(Reason::Entry(24)));
    assert!(rt; verdict_on(rt.alloc(), &PUSH_RBX[..47], &mut none) == second);
}

#[test]
fn tables_of_other_code_are_refused(rt: HostRuntime) -> Result<(), AllocError> {
    let mut half = Claims::new(rt.alloc());
    half.push(0x40_1000, 0x40_1008, false)?;
    half.step(1, ClaimStep::Push(RBX))?;
    half.body(0x40_1001, 0x40_1008)?;
    let extra = Some(Verdict::No(Reason::Extra(0x40_1000)));
    assert!(rt; verdict_on(rt.alloc(), PUSH_RBX, &mut half) == extra);
    assert!(rt; verdict_on(rt.alloc(), PUSH_TWICE, &mut half) == Some(Verdict::Yes));
    let mut whole = pushing(rt.alloc(), RBX)?;
    let missing = Some(Verdict::No(Reason::Missing(0)));
    assert!(rt; verdict_on(rt.alloc(), b"\x00\x00\x00\x00", &mut whole) == missing);
    let cut = Some(Verdict::No(Reason::Entry(24)));
    assert!(rt; verdict_on(rt.alloc(), &PUSH_RBX[..47], &mut whole) == cut);
    whole.table()?;
    let sites = Some(Verdict::No(Reason::Sites(0)));
    assert!(rt; verdict_on(rt.alloc(), PUSH_RBX, &mut whole) == sites);
    Ok(())
}

// What a check answers of the two functions with a header, without claims.
fn listed(alloc: Global, header: &[u8]) -> Option<Verdict> {
    let kind = FrameInfoKind::EhFrameHdr(HEADER);
    verdict(alloc, PUSH_TWICE, header, kind, &mut Claims::new(alloc))
}

#[test]
fn headers_list_the_descriptions(rt: HostRuntime) {
    let ascending = b"\x01\x1b\x03\x3b\xfc\xff\xef\xff\x02\x00\x00\x00\
        \x00\x10\xe0\xff\x18\x00\xf0\xff\x08\x10\xe0\xff\x30\x00\xf0\xff";
    assert!(rt; listed(rt.alloc(), ascending) == Some(Verdict::Yes));
    let descending = b"\x01\x1b\x03\x3b\xfc\xff\xef\xff\x02\x00\x00\x00\
        \x08\x10\xe0\xff\x30\x00\xf0\xff\x00\x10\xe0\xff\x18\x00\xf0\xff";
    let refused = Some(Verdict::No(Reason::HeaderTable));
    assert!(rt; listed(rt.alloc(), descending) == refused);
    let one = b"\x01\x1b\x03\x3b\xfc\xff\xef\xff\x01\x00\x00\x00\x00\x10\xe0\xff\x18\x00\xf0\xff";
    assert!(rt; listed(rt.alloc(), one) == refused);
    let none = b"\x01\x1b\xff\xff\xfc\xff\xef\xff";
    assert!(rt; listed(rt.alloc(), none) == refused);
    let version = b"\x02\x1b\x03\x3b\xfc\xff\xef\xff\x00\x00\x00\x00";
    assert!(rt; listed(rt.alloc(), version) == Some(Verdict::No(Reason::Header)));
}
