// Audits of claims of what is known of real files' code: where their frame tables don't say it. The claims
// lie where the program runs; docs/AUDITS.md says how they and the expected lines were made.
use anyhow::Result;
use fact_claims::{audit_report, read_code};
use std::{fs, str};

/// The claims of some functions of Debian 12's C library, of gcc's run-time library and of bash.
const FILES: [&str; 3] = ["libc.claims", "libgcc.claims", "bash.claims"];

/// Prints the file's name and what the audit of its claims finds.
fn print_audit(rt: &HostRuntime, name: &str) -> Result<()> {
    let text = fs::read_to_string(rt, name)?;
    let code = read_code(rt.alloc(), text.as_bytes())?;
    let differences = code.audit(rt.alloc())?;
    let report = audit_report(rt.alloc(), code.claims(), &differences)?;
    let lines = str::from_utf8(report.bytes())?;
    print!(rt; "{name}\n{lines}")?;
    Ok(())
}

/// Prints the audits of all files.
pub fn print_audits(rt: &HostRuntime) -> Result<()> {
    for name in FILES {
        print_audit(rt, name)?;
    }
    Ok(())
}
