//! What operations do. DWARF 5 section 2.5.

ghost use Rattle.std.specs.Prelude.{◌≡◌, ℕ, List, Result, ◌≤◌, ◌<◌, ◌^◌, length, IfOk, ◌==◌};
ghost use Rattle.memory_image.specs.Image.{number_at};
ghost use Rattle.unwind_definitions.specs.declared.error.Error.{Error as Fault};
ghost use Rattle.unwind_definitions.specs.Caller.{column_or_fault};
ghost use Rattle.unwind_definitions.specs.Expressions.{done, goes_on, after_move, after_branch, after_load};
ghost use Rattle.unwind_definitions.specs.Expressions.{after_column_push};
ghost use Rattle.frame_expressions.specs.OperationViews.{meaning};
ghost use Rattle.frame_expressions.specs.Answers.{GoesOn, Leaves};

use crate::error::EvalError;
use crate::operation::{ByteCount, Operation};
use crate::stack::Stack;
use memory_image::MemoryImage;
use unwind_arch::{Register, RegisterMap};
use unwind_definitions::Error;

/// Performs an operation of an expression of `end` bytes; the next one stands at `next`.
/// Answers where the expression goes on. After a fault the stack is unspecified.
#[tactic(auto, unfolding(unwind_definitions::specs::Expressions::done))]
pub(crate) fn perform<R: RegisterMap<Word = u64>>(
    operation: Operation,
    next: u64,
    end: u64,
    stack: &mut Stack,
    registers: &R,
    image: &MemoryImage<'_>,
) -> Result<u64, EvalError>
    requires next { next ≤ end }
    requires end { end < 2 ^ 63 }
    ensures does { (expression : List ℕ) → length expression ≡ end →
        GoesOn result stack.new (done image.now (R.columns registers.now) expression next stack.old
        (meaning operation)) }
    ensures within { IfOk result (λ n. n ≤ end) }
{
    match operation {
        Operation::Nop => Ok(next),
        Operation::Pop => after(stack.discard(), next),
        Operation::Swap => after(stack.swap(), next),
        Operation::Rotate => after(stack.rotate(), next),
        Operation::Push(word) => after(stack.push(word), next),
        Operation::PushRegister { register, offset } => {
            push_register(register, offset, next, stack, registers)
        }
        Operation::Pick(below) => after(stack.pick(below), next),
        Operation::Load(count) => load(count, next, stack, image),
        Operation::Change(change) => after(stack.change(change), next),
        Operation::Combine(combination) => after(stack.combine(combination), next),
        Operation::Divide(division) => after(stack.divide(division), next),
        Operation::Skip(distance) => target(distance, next, end),
        Operation::Branch(distance) => branch(distance, next, end, stack),
    }
}

// Where it goes on after an operation on the stack alone.
fn after(done: Result<(), Error>, next: u64) -> Result<u64, EvalError>
    ensures goes_on { (new : List ℕ) (due : Result (List ℕ) Fault) → Leaves done new due →
        GoesOn result new (goes_on next due) }
    ensures within { IfOk result (λ n. n ≡ next) }
{
    match done {
        Ok(()) => Ok(next),
        Err(e) => Err(EvalError::Table(e)),
    }
}

fn push_register<R: RegisterMap<Word = u64>>(
    register: Register,
    offset: u64,
    next: u64,
    stack: &mut Stack,
    registers: &R,
) -> Result<u64, EvalError>
    ensures does { GoesOn result stack.new
        (after_column_push next offset stack.old
        (column_or_fault (R.columns registers.now register.0))) }
    ensures within { IfOk result (λ n. n ≡ next) }
{
    match registers.get(register) {
        Some(value) => after(stack.push(value.wrapping_add(offset)), next),
        None => Err(EvalError::Table(Error::UnsupportedRegister)),
    }
}

fn load(
    count: ByteCount,
    next: u64,
    stack: &mut Stack,
    image: &MemoryImage<'_>,
) -> Result<u64, EvalError>
    ensures does { GoesOn result stack.new (after_load image.now next count.count stack.old) }
    ensures within { IfOk result (λ n. n ≡ next) }
{
    let address = stack.pop()?;
    match number(image, address, count) {
        Some(number) => after(stack.push(number), next),
        None => Err(EvalError::Unmapped(address)),
    }
}

// The number at an address. Words and halves of them are read at once.
#[tactic(auto, unfolding(memory_image::specs::Image::word_at, memory_image::specs::Image::half_at))]
fn number(image: &MemoryImage<'_>, address: u64, count: ByteCount) -> Option<u64>
    ensures { result ≡ number_at image.now address count.count }
{
    match count.count {
        8 => image.read_u64(address),
        4 => match image.read_u32(address) {
            Some(half) => Some(half as u64),
            None => None,
        },
        count => image.read_number(address, count as u64),
    }
}

// Where a branch leads.
fn target(distance: u64, next: u64, end: u64) -> Result<u64, EvalError>
    requires next { next ≤ end }
    requires end { end < 2 ^ 63 }
    ensures leads { (expression stack : List ℕ) → length expression ≡ end →
        GoesOn result stack (after_move expression next distance stack) }
    ensures within { IfOk result (λ n. n ≤ end) }
{
    let target = next.wrapping_add(distance);
    if target > end {
        return Err(EvalError::Table(Error::BadBranch));
    }
    Ok(target)
}

// The same, where the top isn't 0.
fn branch(distance: u64, next: u64, end: u64, stack: &mut Stack) -> Result<u64, EvalError>
    requires next { next ≤ end }
    requires end { end < 2 ^ 63 }
    ensures leads { (expression : List ℕ) → length expression ≡ end →
        GoesOn result stack.new (after_branch expression next distance stack.old) }
    ensures within { IfOk result (λ n. n ≤ end) }
{
    let word = stack.pop()?;
    if word == 0 {
        return Ok(next);
    }
    target(distance, next, end)
}
