// The return addresses of cleanups.
use crate::asserting::expect_equal;
use stack_deliver::Resumes;
use std::test::Fail;

#[test]
fn the_first_entry_of_a_pad_counts(rt: HostRuntime) -> Result<(), Fail> {
    let mut resumes = Resumes::new(rt.alloc());
    expect_equal(&rt, resumes.add(0x40_1050, 0x40_1060), Ok(()));
    expect_equal(&rt, resumes.add(0x40_1020, 0x40_1030), Ok(()));
    expect_equal(&rt, resumes.add(0x40_1050, 0x40_1070), Ok(()));
    expect_equal(&rt, resumes.find(0x40_1020), Some(0x40_1030));
    expect_equal(&rt, resumes.find(0x40_1050), Some(0x40_1060));
    expect_equal(&rt, resumes.find(0x40_1051), None);
    Ok(())
}
