// The registers that unwind data and epilogs name.
ghost use Rattle.std.specs.Prelude.{◌≡◌, ◌<◌};
ghost use Rattle.pe_unwind_info.specs.Registers.{register_of, xmm_register_of};

/// A general purpose register. Its number, as `register as u8` too, is the one that instructions
/// and unwind codes use.
#[derive(Clone, Copy, Debug, PartialEq, Eq, Hash)]
pub enum Register {
    RAX,
    RCX,
    RDX,
    RBX,
    RSP,
    RBP,
    RSI,
    RDI,
    R8,
    R9,
    R10,
    R11,
    R12,
    R13,
    R14,
    R15,
}

impl TryFrom<u8> for Register {
    ghost use Rattle.std.specs.Prelude.{◌≡◌, ◌<◌, MatchResult};
    ghost use Rattle.pe_unwind_info.specs.Registers.{register_number, register_of};

    type Error = ();

    ghost try_from_gives = { λ number result. MatchResult result
        (λ register. (register ≡ register_of number) × (register_number register ≡ number))
        (λ _. 15 < number) };

    /// The register of this number; `Err(())` exactly above 15.
    fn try_from(number: u8) -> Result<Register, ()> {
        Ok(match number {
            0 => Register::RAX,
            1 => Register::RCX,
            2 => Register::RDX,
            3 => Register::RBX,
            4 => Register::RSP,
            5 => Register::RBP,
            6 => Register::RSI,
            7 => Register::RDI,
            8 => Register::R8,
            9 => Register::R9,
            10 => Register::R10,
            11 => Register::R11,
            12 => Register::R12,
            13 => Register::R13,
            14 => Register::R14,
            15 => Register::R15,
            _ => return Err(()),
        })
    }
}

/// An XMM register, of 128 bits. Its number, as `register as u8` too, is the one that unwind codes
/// use.
#[derive(Clone, Copy, Debug, PartialEq, Eq, Hash)]
pub enum XmmRegister {
    XMM0,
    XMM1,
    XMM2,
    XMM3,
    XMM4,
    XMM5,
    XMM6,
    XMM7,
    XMM8,
    XMM9,
    XMM10,
    XMM11,
    XMM12,
    XMM13,
    XMM14,
    XMM15,
}

impl TryFrom<u8> for XmmRegister {
    ghost use Rattle.std.specs.Prelude.{◌≡◌, ◌<◌, MatchResult};
    ghost use Rattle.pe_unwind_info.specs.Registers.{xmm_number, xmm_register_of};

    type Error = ();

    ghost try_from_gives = { λ number result. MatchResult result
        (λ register. (register ≡ xmm_register_of number) × (xmm_number register ≡ number))
        (λ _. 15 < number) };

    /// The XMM register of this number; `Err(())` exactly above 15.
    fn try_from(number: u8) -> Result<XmmRegister, ()> {
        Ok(match number {
            0 => XmmRegister::XMM0,
            1 => XmmRegister::XMM1,
            2 => XmmRegister::XMM2,
            3 => XmmRegister::XMM3,
            4 => XmmRegister::XMM4,
            5 => XmmRegister::XMM5,
            6 => XmmRegister::XMM6,
            7 => XmmRegister::XMM7,
            8 => XmmRegister::XMM8,
            9 => XmmRegister::XMM9,
            10 => XmmRegister::XMM10,
            11 => XmmRegister::XMM11,
            12 => XmmRegister::XMM12,
            13 => XmmRegister::XMM13,
            14 => XmmRegister::XMM14,
            15 => XmmRegister::XMM15,
            _ => return Err(()),
        })
    }
}

// the general register of a number below 16
pub(crate) fn register_at(number: u8) -> Register
    requires { number < 16 }
    ensures { result ≡ register_of number }
{
    match Register::try_from(number) {
        Ok(register) => register,
        Err(()) => unreachable!(),
    }
}

// the XMM register of a number below 16
pub(crate) fn xmm_register_at(number: u8) -> XmmRegister
    requires { number < 16 }
    ensures { result ≡ xmm_register_of number }
{
    match XmmRegister::try_from(number) {
        Ok(register) => register,
        Err(()) => unreachable!(),
    }
}
