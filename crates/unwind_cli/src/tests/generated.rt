// Summaries of deliveries over generated chains. Nothing is read for one.
use super::*;

/// Runs `generate` over a source whose reads all fail, and compares what it writes but for the number of
/// probes.
fn expect_summary(
    rt: &impl Abort,
    alloc: Global,
    count: &str,
    seed: &str,
    lines: &[&str],
) -> Result<(), Fail> {
    let text = joined(alloc, lines, "\n")?;
    let (number, written) = run_over(alloc, &["generate", count, seed], "", &[0, 1, 2], &[])?;
    assert_eq!(rt; number, 0);
    assert!(rt; written.starts_with(text.as_bytes()));
    let probes = &written[text.len()..];
    assert!(rt; probes.starts_with(b"probes "));
    Ok(())
}

#[test]
fn generated_chains_are_summed_up(rt: HostRuntime) -> Result<(), Fail> {
    let alloc = rt.alloc();
    let one = ["functions 1", "frames 1", "cleanups 0", "outcome installed"];
    expect_summary(&rt, alloc, "1", "0", &one)?;
    let seven = ["functions 7", "frames 7", "cleanups 1", "outcome installed"];
    expect_summary(&rt, alloc, "007", "07", &seven)?;
    let thousand = [
        "functions 1000",
        "frames 1000",
        "cleanups 249",
        "outcome installed",
    ];
    expect_summary(&rt, alloc, "1000", "7", &thousand)?;
    let most = [
        "functions 100000",
        "frames 100000",
        "cleanups 24999",
        "outcome installed",
    ];
    expect_summary(&rt, alloc, "100000", "18446744073709551615", &most)?;
    Ok(())
}

#[test]
fn other_counts_and_seeds_are_no_command(rt: HostRuntime) -> Result<(), Fail> {
    let alloc = rt.alloc();
    let others = [
        ["generate", "0", "1"],
        ["generate", "100001", "1"],
        ["generate", "1", "18446744073709551616"],
        ["generate", "+1", "0"],
        ["generate", "1", ""],
        ["generate", "1", "000000000000000000000"],
        ["walk", "1", "0"],
    ];
    for words in others.iter() {
        let (number, _) = run_over(alloc, words, "", &[], &[])?;
        assert_eq!(rt; number, 2);
    }
    Ok(())
}
