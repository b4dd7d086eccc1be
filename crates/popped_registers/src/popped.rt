// Which registers were popped where a thread was interrupted.
ghost use Rattle.std.specs.Prelude.{◌≡◌, ◌≤◌, ◌+◌, IsTrue};
ghost use Rattle.std.specs.Option.{option_map};
ghost use Rattle.memory_image.specs.Image.{Span};
ghost use Rattle.frame_rows.specs.Rules.{cfa_meaning, rule_in, rule_meaning};
ghost use Rattle.unwind_definitions.specs.Caller.{cfa_value};
ghost use Rattle.unwind_definitions.specs.Expressions.{evaluation};
ghost use Rattle.unwind_arch.specs.ContextViews.{columns_of};
ghost use Rattle.unwinding_frames.specs.Calling.{value_given};
ghost use Rattle.popped_registers.specs.PoppedRegisters.{is_given_up, popped_by, slot_by};

use eh_frame::{CfaRule, Error, Register, RegisterMap, RegisterRule, RowRef, evaluate};
use memory_image::MemoryImage;
use unwind_arch::x86_64::{Context, RSP};
use unwinding_frames::StepError;

/// A register that was popped.
#[derive(Clone, Copy)]
pub(crate) struct PoppedRegister {
    /// The address of its slot, which lies below the stack pointer.
    pub(crate) slot: u64,
    /// What it holds.
    pub(crate) word: u64,
}

/// The canonical frame address. An expression begins with an empty stack.
///
/// # Errors
///
/// `Table` where the context hasn't the rule's register or the expression has no value, `Unmapped`
/// with the address of a number that the expression reads and that isn't wholly mapped.
pub(crate) fn cfa_of(
    image: &MemoryImage<'_>,
    context: &Context,
    rule: CfaRule<'_>,
) -> Result<u64, StepError>
    ensures { value_given result ≡ cfa_value (evaluation image.now) (columns_of context.now)
        (cfa_meaning rule.entry) }
{
    match rule {
        CfaRule::RegisterAndOffset { register, offset } => match context.get(register) {
            Some(value) => Ok(value.wrapping_add(offset)),
            None => Err(StepError::Table(Error::UnsupportedRegister)),
        },
        CfaRule::Expression(expression) => Ok(evaluate(expression, None, context, image)?),
    }
}

/// The rule of a register.
pub(crate) fn rule_of<'a>(row: &RowRef<'_, 'a>, register: Register) -> Option<RegisterRule<'a>>
    ensures { option_map rule_meaning result ≡ rule_in row.now.rules register.0 }
{
    for (column, rule) in row.registers() {
        if column == register {
            return Some(rule);
        }
    }
    None
}

/// Whether all of a slot lies below the stack pointer, and isn't wholly mapped.
fn is_given_up(image: &MemoryImage<'_>, stack_pointer: u64, slot: u64) -> bool
    ensures { result ≡ is_given_up image.now stack_pointer slot }
{
    stack_pointer >= 8 && slot <= stack_pointer - 8 && image.read_u64(slot).is_none()
}

/// The slot that a rule says, where it says one.
fn slot_by(
    image: &MemoryImage<'_>,
    context: &Context,
    cfa: u64,
    rule: Option<RegisterRule<'_>>,
) -> Option<u64>
    ensures { result ≡ slot_by image.now context.now cfa (option_map rule_meaning rule.entry) }
{
    match rule {
        Some(RegisterRule::Offset(offset)) => Some(cfa.wrapping_add(offset)),
        Some(RegisterRule::Expression(expression)) => {
            match evaluate(expression, Some(cfa), context, image) {
                Ok(slot) => Some(slot),
                Err(_) => None,
            }
        }
        _ => None,
    }
}

/// A register that was popped, by its rule and the canonical frame address: where the rule says a slot
/// that was given up.
pub(crate) fn popped_by(
    image: &MemoryImage<'_>,
    context: &Context,
    cfa: u64,
    register: Register,
    rule: Option<RegisterRule<'_>>,
) -> Option<PoppedRegister>
    ensures { result ≡ popped_by image.now context.now cfa register.0
        (option_map rule_meaning rule.entry) }
{
    let slot = slot_by(image, context, cfa, rule)?;
    if !is_given_up(image, context.registers[RSP], slot) {
        return None;
    }
    let word = context.get(register)?;
    Some(PoppedRegister { slot, word })
}
