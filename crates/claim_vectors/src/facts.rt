//! What is claimed of a function that pushes RBX.

use fact_checks::{
    AuditError, ClaimedFacts, Difference, KnownRegister, KnownRegisters, Mismatch, SaidCfa,
    SaidRule, audit,
};
use memory_image::MemoryImage;
use std::alloc::Global;
use table_check::{FrameInfo, FrameInfoKind, Register};

// A CIE, the FDE of a function of 16 bytes at 0x401000 that pushes RBX, and the end of the list.
const PUSH_RBX: &[u8] =
    b"\x14\x00\x00\x00\x00\x00\x00\x00\x01\x7a\x52\x00\x01\x78\x10\x01\x1b\x0c\x07\x08\x90\x01\x00\x00\
    \x14\x00\x00\x00\x1c\x00\x00\x00\xe0\x0f\xf0\xff\x10\x00\x00\x00\x00\x41\x0e\x10\x83\x02\x00\x00\
    \x00\x00\x00\x00";

const TABLE: u64 = 0x50_0000;

const KEPT: KnownRegister = KnownRegister {
    slot: None,
    is_kept: true,
};

const PUSHED: KnownRegister = KnownRegister {
    slot: Some(16),
    is_kept: false,
};

// A frame whose CFA lies so far above RSP, and in which all registers but RBX are kept.
fn claim(from: u64, to: u64, rsp: u64, rbx: KnownRegister) -> ClaimedFacts {
    ClaimedFacts {
        from,
        to,
        rsp: Some(rsp),
        rbp: None,
        registers: KnownRegisters {
            rbx,
            rbp: KEPT,
            r12: KEPT,
            r13: KEPT,
            r14: KEPT,
            r15: KEPT,
        },
        is_outermost: false,
    }
}

fn audited(alloc: Global, claims: &[ClaimedFacts]) -> Result<Vec<Difference>, AuditError> {
    let mut image = MemoryImage::new(alloc);
    if image.add(TABLE, PUSH_RBX).is_err() {
        return Err(AuditError::NoMemory);
    }
    let frame = FrameInfo {
        text_base: None,
        kind: FrameInfoKind::EhFrame(TABLE),
    };
    audit(alloc, &image, frame, claims)
}

// Where and why the rows don't say a claim.
fn first(alloc: Global, claim: ClaimedFacts) -> Result<Option<(u64, Mismatch)>, AuditError> {
    let differences = audited(alloc, &[claim])?;
    match differences.first() {
        Some(found) => Ok(Some((found.address, found.mismatch))),
        None => Ok(None),
    }
}

#[test]
fn rows_say_claims(rt: HostRuntime) -> Result<(), AuditError> {
    let claims = [
        claim(0x40_1000, 0x40_1001, 8, KEPT),
        claim(0x40_1001, 0x40_1008, 16, PUSHED),
        claim(0x40_1008, 0x40_1010, 16, PUSHED),
    ];
    assert!(rt; audited(rt.alloc(), &claims)?.is_empty());
    Ok(())
}

#[test]
fn rows_differ(rt: HostRuntime) -> Result<(), AuditError> {
    let whole = first(rt.alloc(), claim(0x40_1000, 0x40_1010, 16, PUSHED))?;
    assert!(rt; whole == Some((0x40_1000, Mismatch::Cfa(SaidCfa::Above(Register(7), 8)))));
    let early = first(rt.alloc(), claim(0x40_1000, 0x40_1010, 8, KEPT))?;
    assert!(rt; early == Some((0x40_1001, Mismatch::Cfa(SaidCfa::Above(Register(7), 16)))));
    let kept = first(rt.alloc(), claim(0x40_1001, 0x40_1010, 16, KEPT))?;
    assert!(rt;
        kept == Some((
            0x40_1001,
            Mismatch::Rule(Register(3), SaidRule::Offset(0u64.wrapping_sub(16)))
        ))
    );
    let longer = first(rt.alloc(), claim(0x40_1001, 0x40_1011, 16, PUSHED))?;
    assert!(rt; longer == Some((0x40_1001, Mismatch::NoDescription)));
    Ok(())
}

#[test]
fn claims_out_of_order_are_refused(rt: HostRuntime) {
    let claims = [
        claim(0x40_1001, 0x40_1010, 16, PUSHED),
        claim(0x40_1000, 0x40_1001, 8, KEPT),
    ];
    assert!(rt; audited(rt.alloc(), &claims).err() == Some(AuditError::Claim(1)));
}
