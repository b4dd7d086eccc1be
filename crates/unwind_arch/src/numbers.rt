//! The numbers of the machines, as their ABIs and the GNU unwinder fix them.

ghost use Rattle.unwind_arch.specs.Numbers.{HasNumbers};
ghost use Rattle.unwind_arch.specs.declared.x86_64.TheConstants.Arch as x86_64;
ghost use Rattle.unwind_arch.specs.declared.x86_64.TheConstants.{MAX_REG_RULES as x86_64_rules};
ghost use Rattle.unwind_arch.specs.declared.x86.TheConstants.Arch as x86;
ghost use Rattle.unwind_arch.specs.declared.x86.TheConstants.{MAX_REG_RULES as x86_rules};
ghost use Rattle.unwind_arch.specs.declared.aarch64.TheConstants.Arch as aarch64;
ghost use Rattle.unwind_arch.specs.declared.aarch64.TheConstants.{MAX_REG_RULES as aarch64_rules};
ghost use Rattle.unwind_arch.specs.declared.riscv64.TheConstants.Arch as riscv64;
ghost use Rattle.unwind_arch.specs.declared.riscv64.TheConstants.{MAX_REG_RULES as riscv64_rules};
ghost use Rattle.unwind_arch.specs.declared.riscv32.TheConstants.Arch as riscv32;
ghost use Rattle.unwind_arch.specs.declared.riscv32.TheConstants.{MAX_REG_RULES as riscv32_rules};
ghost use Rattle.unwind_arch.specs.declared.loongarch64.TheConstants.Arch as loongarch64;
ghost use Rattle.unwind_arch.specs.declared.loongarch64.TheConstants.{MAX_REG_RULES as loongarch64_rules};

/// The columns of each machine's stack pointer and return address, those in which a landing pad
/// finds the exception and the selector, how many words of an exception the unwinder keeps to
/// itself, and the most rules of a row. A law: the function does nothing.
///
/// Source: the tables of DWARF register numbers of the System V x86-64 and i386 psABIs, of the Arm
/// 64-bit ABI, and of the RISC-V and LoongArch psABIs.
pub fn numbers_are_those_of_the_abis()
    ensures x86_64 { HasNumbers x86_64.SP x86_64.RA x86_64.UNWIND_DATA_REG
        x86_64.UNWIND_PRIVATE_DATA_SIZE x86_64_rules (7, 16, 0, 1, 6, 17) }
    ensures x86 { HasNumbers x86.SP x86.RA x86.UNWIND_DATA_REG x86.UNWIND_PRIVATE_DATA_SIZE
        x86_rules (4, 8, 0, 2, 5, 17) }
    ensures aarch64 { HasNumbers aarch64.SP aarch64.RA aarch64.UNWIND_DATA_REG
        aarch64.UNWIND_PRIVATE_DATA_SIZE aarch64_rules (31, 30, 0, 1, 2, 97) }
    ensures riscv64 { HasNumbers riscv64.SP riscv64.RA riscv64.UNWIND_DATA_REG
        riscv64.UNWIND_PRIVATE_DATA_SIZE riscv64_rules (2, 1, 10, 11, 2, 65) }
    ensures riscv32 { HasNumbers riscv32.SP riscv32.RA riscv32.UNWIND_DATA_REG
        riscv32.UNWIND_PRIVATE_DATA_SIZE riscv32_rules (2, 1, 10, 11, 2, 65) }
    ensures loongarch64 { HasNumbers loongarch64.SP loongarch64.RA loongarch64.UNWIND_DATA_REG
        loongarch64.UNWIND_PRIVATE_DATA_SIZE loongarch64_rules (3, 1, 4, 5, 2, 74) }
{}
