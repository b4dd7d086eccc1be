//! Running an expression. DWARF 5 section 2.5.

ghost use Rattle.std.specs.Prelude.{◌≡◌, ◌↔◌, ℕ, Ok, Err};
ghost use Rattle.unwind_definitions.specs.Caller.{StepFault, Table};
ghost use Rattle.unwind_definitions.specs.Expressions.{HasValue, HasFault, IsEndless, initial_configuration};
ghost use Rattle.unwind_definitions.specs.Expressions.{operation_limit, evaluation};
ghost use Rattle.frame_expressions.specs.Answers.{value_given, stack_of};

use crate::error::EvalError;
use crate::perform::perform;
use crate::reading::read_operation;
use crate::stack::Stack;
use encoded_pointers::Cursor;
use memory_image::MemoryImage;
use unwind_arch::RegisterMap;
use unwind_definitions::Error;

/// The value of an expression, over the registers of a frame and an image of memory. The stack
/// begins with `initial`, or empty.
///
/// Operations are done one after another from the first byte on, until one leads to the end of the
/// bytes; the value is then on top of the stack, which holds 64 words at most.
///
/// # Errors
///
/// That of the first operation that can't be decoded or done: `Table`, or `Unmapped` with the
/// address of a number in memory of which a byte isn't mapped. `Table(PopWithEmptyStack)` where no
/// word is on the stack at the end, and `Table(TooManyOperations)` where 10,000 operations and one
/// more for each byte of the expression were done and the end isn't reached.
pub fn evaluate<R: RegisterMap<Word = u64>>(
    expression: &[u8],
    initial: Option<u64>,
    registers: &R,
    image: &MemoryImage<'_>,
) -> Result<u64, EvalError>
    ensures value { (v : ℕ) → (result ≡ Ok v) ↔
        HasValue image.now (R.columns registers.now) expression.now (operation_limit expression.now)
        (initial_configuration (stack_of initial)) v }
    ensures fault { (e : StepFault) → (value_given result ≡ Err e) ↔
        HasFault image.now (R.columns registers.now) expression.now (operation_limit expression.now)
        (initial_configuration (stack_of initial)) e }
    ensures endless { (value_given result ≡ Err (Table Error.TooManyOperations)) ↔
        IsEndless image.now (R.columns registers.now) expression.now
        (operation_limit expression.now) (initial_configuration (stack_of initial)) }
    ensures evaluated { value_given result ≡ evaluation image.now expression.now (stack_of initial)
        (R.columns registers.now) }
{
    run(expression, initial, registers, image)
}

fn run<R: RegisterMap<Word = u64>>(
    expression: &[u8],
    initial: Option<u64>,
    registers: &R,
    image: &MemoryImage<'_>,
) -> Result<u64, EvalError>
    ensures { value_given result ≡ evaluation image.now expression.now (stack_of initial)
        (R.columns registers.now) }
{
    let end = expression.len() as u64;
    let mut left = 10_000 + end;
    let mut input = Cursor::new(expression, 0);
    let mut stack = Stack::new(initial);
    while !input.is_empty() {
        if left == 0 {
            return Err(EvalError::Table(Error::TooManyOperations));
        }
        left -= 1;
        let operation = read_operation(&mut input)?;
        let after = input.offset();
        let next = perform(operation, after, end, &mut stack, registers, image)?;
        if next != after {
            input = Cursor::from_offset(expression, 0, next);
        }
    }
    Ok(stack.pop()?)
}
