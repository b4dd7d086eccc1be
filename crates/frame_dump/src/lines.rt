//! Entries and rows as text.

use eh_frame::{CfaRule, Cie, Error, Fde, Pointer, Register, RegisterRule, RowRef};
use std::alloc::AllocError;

/// Puts what a common information entry says.
pub fn put_cie(line: &mut String, cie: &Cie) -> Result<(), AllocError> {
    let (offset, version) = (cie.offset(), cie.version());
    let (code, data) = (cie.code_alignment(), cie.data_alignment());
    let Register(column) = cie.return_column();
    write!(
        line,
        "{offset:#x} cie version={version} code={code} data={data} return=r{column} \""
    )?;
    for letter in cie.augmentation() {
        line.push(char::from(*letter))?;
    }
    line.push('"')?;
    if let Some(personality) = cie.personality() {
        put_pointer(line, " personality", personality)?;
    }
    Ok(())
}

/// Puts what a description says of its function.
pub fn put_fde(line: &mut String, fde: &Fde) -> Result<(), AllocError> {
    let (offset, cie) = (fde.offset(), fde.cie().offset());
    let (start, len) = (fde.initial_address(), fde.len());
    write!(
        line,
        "{offset:#x} fde cie={cie:#x} start={start:#x} len={len:#x}"
    )?;
    match fde.lsda() {
        Some(lsda) => put_pointer(line, " lsda", lsda),
        None => Ok(()),
    }
}

fn put_pointer(line: &mut String, label: &str, pointer: Pointer) -> Result<(), AllocError> {
    match pointer {
        Pointer::Direct(address) => write!(line, "{label}={address:#x}")?,
        Pointer::Indirect(address) => write!(line, "{label}=[{address:#x}]")?,
    }
    Ok(())
}

/// Puts where the list of entries ends.
pub fn put_end(line: &mut String, offset: u64) -> Result<(), AllocError> {
    write!(line, "{offset:#x} end")?;
    Ok(())
}

/// Puts why something can't be read.
pub fn put_fault(line: &mut String, error: Error) -> Result<(), AllocError> {
    write!(line, " {error:?}")?;
    Ok(())
}

/// Puts what a row says otherwise than the one before it: the rule of the CFA, those of registers, a
/// dash for each register that no longer has one, and the size of the arguments. One expression
/// isn't told from another.
pub fn put_changes(line: &mut String, before: &RowRef, row: &RowRef) -> Result<(), AllocError> {
    if !is_cfa_like(row.cfa(), before.cfa()) {
        put_cfa(line, row.cfa())?;
    }
    for (register, rule) in row.registers() {
        if !has_rule(before, register, rule) {
            let Register(column) = register;
            write!(line, " r{column}=")?;
            put_rule(line, rule)?;
        }
    }
    put_gone(line, before, row)?;
    let arguments = row.saved_args_size();
    if arguments != before.saved_args_size() {
        write!(line, " arguments={arguments:#x}")?;
    }
    Ok(())
}

fn put_gone(line: &mut String, before: &RowRef, row: &RowRef) -> Result<(), AllocError> {
    for (register, _rule) in before.registers() {
        if !has_register(row, register) {
            let Register(column) = register;
            write!(line, " r{column}=-")?;
        }
    }
    Ok(())
}

fn has_rule(row: &RowRef, register: Register, rule: RegisterRule) -> bool {
    for (other, said) in row.registers() {
        if other == register {
            return is_rule_like(said, rule);
        }
    }
    false
}

fn is_rule_like(rule: RegisterRule, other: RegisterRule) -> bool {
    match (rule, other) {
        (RegisterRule::Expression(_), RegisterRule::Expression(_)) => true,
        (RegisterRule::ValExpression(_), RegisterRule::ValExpression(_)) => true,
        _ => rule == other,
    }
}

fn is_cfa_like(rule: CfaRule, other: CfaRule) -> bool {
    match (rule, other) {
        (CfaRule::Expression(_), CfaRule::Expression(_)) => true,
        _ => rule == other,
    }
}

fn has_register(row: &RowRef, register: Register) -> bool {
    for (other, _rule) in row.registers() {
        if other == register {
            return true;
        }
    }
    false
}

fn put_cfa(line: &mut String, rule: CfaRule) -> Result<(), AllocError> {
    match rule {
        CfaRule::RegisterAndOffset { register, offset } => {
            let (Register(column), offset) = (register, offset.cast_signed());
            write!(line, " cfa=r{column}{offset:+}")?;
        }
        CfaRule::Expression(_) => line.push_str(" cfa=exp")?,
    }
    Ok(())
}

fn put_rule(line: &mut String, rule: RegisterRule) -> Result<(), AllocError> {
    match rule {
        RegisterRule::Undefined => line.push('u')?,
        RegisterRule::SameValue => line.push('s')?,
        RegisterRule::Offset(offset) => {
            let offset = offset.cast_signed();
            write!(line, "c{offset:+}")?;
        }
        RegisterRule::ValOffset(offset) => {
            let offset = offset.cast_signed();
            write!(line, "v{offset:+}")?;
        }
        RegisterRule::Register(Register(register)) => write!(line, "r{register}")?,
        RegisterRule::Expression(_) => line.push_str("exp")?,
        RegisterRule::ValExpression(_) => line.push_str("vexp")?,
    }
    Ok(())
}
