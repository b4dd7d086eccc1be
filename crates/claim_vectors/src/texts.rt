//! Claims of a function that pushes RBX, from JSON to lines.
use fact_claims::{ClaimsError, audit_report, read_code, refused_line};
use std::alloc::Global;

/// The frame table of the function, and its module.
const MODULE: &str =
    "{\"regions\":[{\"address\":\"0x500000\",\"bytes\":\"1400000000000000017a5200017810011b0c070\
    890010000140000001c000000e00ff0ff1000000000410e108302000000000000\"}],\
    \"modules\":[{\"kind\":\"elf\",\"start\":\"0x401000\",\"end\":\"0x401010\",\
    \"eh_frame\":\"0x500000\"}]";

/// The texts one after another.
fn joined(alloc: Global, parts: &[&str]) -> Result<Vec<u8>, ClaimsError> {
    let mut bytes = Vec::new(alloc);
    for part in parts {
        bytes.extend_from_slice(part.as_bytes())?;
    }
    Ok(bytes)
}

/// What is written of the claims that the texts say.
fn reports(alloc: Global, parts: &[&str], expected: &str) -> Result<bool, ClaimsError> {
    let code = read_code(alloc, &joined(alloc, parts)?)?;
    let report = match code.audit(alloc) {
        Ok(differences) => audit_report(alloc, code.claims(), &differences)?,
        Err(error) => refused_line(alloc, code.claims(), error)?,
    };
    Ok(report.bytes() == expected.as_bytes())
}

/// Claims with several places, none, or some that no compiler takes.
#[test]
fn what_is_claimed_is_told(rt: HostRuntime) -> Result<(), ClaimsError> {
    let both = "{\"from\":\"0x401000\",\"to\":\"0x401001\",\"rsp\":\"0x18\",\"rbp\":\"0x10\",\
        \"saved\":{\"rbp\":\"0x10\",\"rbx\":\"0x18\"},\"kept\":[\"rbp\",\"r12\"]},";
    let odd = "{\"from\":\"0x401001\",\"to\":\"0x401002\",\"rbp\":\"0xfffffffffffffff8\",\
        \"saved\":{\"rbx\":\"0xfffffffffffffff0\"},\"outermost\":true},";
    let none = "{\"from\":\"0x401002\",\"to\":\"0x401010\"}]}";
    assert!(rt;
        reports(
            rt.alloc(),
            &[MODULE, ",\"claims\":[", both, odd, none],
            "differ 0x401000 claim 0 cfa r7+0x8; claimed cfa r7+0x18 or r6+0x10, \
            rule 3 c-0x18, rule 6 c-0x10 or same value, rule 12 same value, rule 13 unknown, \
            rule 14 unknown, rule 15 unknown, rule 16 c-0x8\n\
            differ 0x401001 claim 1 cfa r7+0x10; claimed cfa r6-0x8, rule 3 c+0x10, \
            rule 6 unknown, rule 12 unknown, rule 13 unknown, rule 14 unknown, rule 15 unknown, \
            rule 16 undefined\n\
            differ 0x401002 claim 2 cfa r7+0x10; claimed cfa unknown, rule 3 unknown, \
            rule 6 unknown, rule 12 unknown, rule 13 unknown, rule 14 unknown, rule 15 unknown, \
            rule 16 c-0x8\n\
            claims 3\ndiffer 3\nwithout a row 0\n",
        )?
    );
    Ok(())
}
