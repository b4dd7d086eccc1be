//! Register numbers of the psABI's table: RAX 0, RDX 1, RBX 3, RSP 7, R15 15, the return address
//! 16, the first vector register 17, MXCSR 64, and the control word of the x87 unit 65.
ghost use Rattle.std.specs.Prelude.{◌≡◌, true, is_some};

use crate::asserting::expect_equal;
use std::test::Fail;
use unwind_arch::x86_64::{Arch, Context};
use unwind_arch::{Machine, Register, RegisterMap};

// What a machine's stack pointer holds, by the machine alone.
fn stack_pointer<M: Machine>(context: &M::Context) -> Option<u64>
    ensures { is_some result ≡ true }
{
    context.get(M::SP)
}

#[test]
fn columns_are_those_of_the_abi(rt: HostRuntime) -> Result<(), Fail> {
    let mut context = Context::default();
    context.registers[3] = 0x33;
    context.ra = 0x401000;
    context.mcxsr = 0x1f80;
    context.fcw = 0x37f;
    expect_equal(&rt, context.get(Register(3)), Some(0x33));
    expect_equal(&rt, context.get(Register(16)), Some(0x401000));
    expect_equal(&rt, context.get(Register(64)), Some(0x1f80));
    expect_equal(&rt, context.get(Register(65)), Some(0x37f));
    expect_equal(&rt, context.get(Register(17)), None);
    expect_equal(&rt, context.set(Register(15), 5), Some(()));
    expect_equal(&rt, context.registers[15], 5);
    expect_equal(&rt, context.set(Register(66), 5), None);
    Ok(())
}

#[test]
fn a_machine_names_its_columns(rt: HostRuntime) -> Result<(), Fail> {
    let mut context = Context::default();
    expect_equal(&rt, context.set(Register(7), 0x7ffe0000), Some(()));
    expect_equal(&rt, stack_pointer::<Arch>(&context), Some(0x7ffe0000));
    expect_equal(&rt, context.set(Arch::UNWIND_DATA_REG.1, 9), Some(()));
    expect_equal(&rt, context.registers[1], 9);
    Ok(())
}
