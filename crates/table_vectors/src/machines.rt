//! Columns of the machines beside x86-64, as their ABIs number registers: of x86 EBX 3, the return
//! address 8 and MXCSR 39; of AArch64 X30 30, SP 31 and V0 to V31 64 to 95; of RISC-V and LoongArch
//! the general registers 0 to 31 and the floating-point registers 32 to 63.
ghost use Rattle.std.specs.Prelude.{◌≡◌, true, is_some};

use crate::asserting::expect_equal;
use std::test::Fail;
use unwind_arch::{Machine, Register, RegisterMap, aarch64, loongarch64, riscv32, riscv64, x86};

// A context of a machine with a value in each of the four columns that unwinding needs.
fn filled<M: Machine>(context: &M::Context) -> M::Context
    ensures { is_some (M.Context.columns result M.SP.0) ≡ true }
{
    let mut filled = *context;
    filled.set(M::RA, 0x401000);
    filled.set(M::UNWIND_DATA_REG.0, 0xe0);
    filled.set(M::UNWIND_DATA_REG.1, 0xe1);
    filled.set(M::SP, 0x7ffe0000);
    filled
}

#[test]
fn machines_of_64_bits_have_their_columns(rt: HostRuntime) -> Result<(), Fail> {
    let mut arm = filled::<aarch64::Arch>(&aarch64::Context::default());
    expect_equal(
        &rt,
        (arm.sp, arm.gp[30], arm.gp[0], arm.gp[1]),
        (0x7ffe0000, 0x401000, 0xe0, 0xe1),
    );
    let risc = filled::<riscv64::Arch>(&riscv64::Context::default());
    expect_equal(
        &rt,
        (risc.gp[2], risc.gp[1], risc.gp[10], risc.gp[11]),
        (0x7ffe0000, 0x401000, 0xe0, 0xe1),
    );
    let mut loong = filled::<loongarch64::Arch>(&loongarch64::Context::default());
    expect_equal(
        &rt,
        (loong.gp[3], loong.gp[1], loong.gp[4], loong.gp[5]),
        (0x7ffe0000, 0x401000, 0xe0, 0xe1),
    );
    arm.fp[0] = 64;
    arm.fp[31] = 95;
    for column in [64, 95] {
        expect_equal(&rt, arm.get(Register(column)), Some(u64::from(column)));
    }
    for column in [32, 63, 96] {
        expect_equal(&rt, arm.set(Register(column), 1), None);
    }
    for column in [0, 31, 32, 40, 63] {
        expect_equal(&rt, loong.set(Register(column), 1), Some(()));
    }
    expect_equal(&rt, (loong.gp[31], loong.fp[0], loong.fp[31]), (1, 1, 1));
    expect_equal(&rt, loong.set(Register(64), 1), None);
    Ok(())
}

#[test]
fn machines_of_32_bits_have_their_columns(rt: HostRuntime) -> Result<(), Fail> {
    let mut intel = x86::Context::default();
    for column in [3, 8, 39] {
        expect_equal(&rt, intel.set(Register(column), 5), Some(()));
    }
    expect_equal(
        &rt,
        (intel.registers[3], intel.ra, intel.mcxsr, intel.fcw),
        (5, 5, 5, 0),
    );
    for column in [9, 38, 40] {
        expect_equal(&rt, intel.get(Register(column)), None);
    }
    let mut risc = riscv32::Context::default();
    expect_equal(&rt, risc.set(Register(31), 5), Some(()));
    expect_equal(&rt, risc.gp[31], 5);
    for column in [32, 40, 63] {
        expect_equal(&rt, risc.set(Register(column), 5), None);
    }
    Ok(())
}
