//! A frame of the stack: the description of its function, and the row by which its caller is found.
//! DWARF 5 section 6.4.

ghost use Rattle.std.specs.Prelude.{◌≡◌, ◌≢◌, ◌+◌, ◌%◌, ◌^◌, ℕ, Option, Some, None, Ok, IfOk, []};
ghost use Rattle.std.specs.Prelude.{◌∷◌, map, IfSome, IfNone, IsTrue};
ghost use Rattle.std.specs.Bool.{OnTrue, OnFalse};
ghost use Rattle.std.specs.List.{cons_option};
ghost use Rattle.std.specs.Option.{unwrap_or};
ghost use Rattle.unwind_definitions.specs.Row.{RowInstructions, covers_pc, row_at};
ghost use Rattle.unwind_definitions.specs.LanguageSearch.{address_of_call, language_address};
ghost use Rattle.unwind_definitions.specs.LanguageSearch.{personality_address, target};
ghost use Rattle.unwind_definitions.specs.Caller.{Columns, caller_of, rule_value, cfa_value};
ghost use Rattle.unwind_definitions.specs.Caller.{word_or_fault, column_or_fault, value_without_rule};
ghost use Rattle.frame_rows.specs.Rules.{rule_meaning, cfa_meaning, entry_of};
ghost use Rattle.frame_rows.specs.Left.{registers_left};
ghost use Rattle.frame_rows.specs.Rows.{IsRowOf};
ghost use Rattle.encoded_pointers.specs.PointerViews.{bases_of, pointer_of};
ghost use Rattle.fde_finders.specs.Finding.{FoundFde};
ghost use Rattle.fde_finders.specs.FoundViews.{found_fde_of};
ghost use Rattle.unwinding_frames.specs.Framed.{GivesFrame, GivesRowOf};
ghost use Rattle.unwind_definitions.specs.Expressions.{evaluation};
ghost use Rattle.unwinding_frames.specs.Calling.{machine_of, value_given, columns_given};
ghost use Rattle.unwinding_frames.specs.Passes.{frame_mark};
ghost use Rattle.unwinding_frames.specs.Calling.{written_in, rules_applied, rule_applied};

use crate::window::Window;
use eh_frame::{
    Bases, CfaRule, Error, EvalError, Pointer, Register, RegisterMap, RegisterRule, Registers, Row,
    RowRef, evaluate,
};
use fde_finders::{FDEFinder, FDESearchResult};
use memory_image::{Ledger, MemoryImage, Steps};
use std::fmt;
use std::marker::{Model, PhantomData};
use unwind_arch::Machine;

/// Why a frame can't be made or undone.
#[derive(Clone, Copy, Debug, PartialEq, Eq, thiserror::Error)]
pub enum StepError {
    /// The row can't be read or run, or a register isn't the machine's.
    #[error("call frame information: {0}")]
    Table(Error),
    /// A word of memory that is read at this address isn't wholly mapped.
    #[error("the word of memory at {0:#x} isn't mapped")]
    Unmapped(u64),
}

impl From<Error> for StepError {
    ghost use Rattle.unwinding_frames.specs.declared.frame.StepError.TheVariants.{Table};

    ghost from_gives = { λ e r. r ≡ Table e };

    fn from(e: Error) -> StepError {
        StepError::Table(e)
    }
}

impl From<EvalError> for StepError {
    ghost use Rattle.unwinding_frames.specs.Calling.{step_error};

    ghost from_gives = { λ e r. r ≡ step_error e };

    fn from(e: EvalError) -> StepError {
        match e {
            EvalError::Table(e) => StepError::Table(e),
            EvalError::Unmapped(address) => StepError::Unmapped(address),
        }
    }
}

const UNSUPPORTED: StepError = StepError::Table(Error::UnsupportedRegister);

/// A frame of a machine's stack: the description of the function that it runs, and the row at its
/// address.
///
/// Contracts see what was found and the row.
#[derive(Drop)]
pub struct Frame<'a, M: Machine> {
    fde_result: FDESearchResult<'a>,
    row: Row<'a>,
    machine: PhantomData<M>,
}

impl<'a, M: Machine> Model for Frame<'a, M> {
    ghost use Rattle.unwinding_frames.specs.FrameValue.{FrameValue};
    ghost use Rattle.fde_finders.specs.FoundViews.{found_fde_of};

    ghost Value = { FrameValue };

    ghost view = { λ f. record { found = found_fde_of f.fde_result; row = f.row } };
}

impl<'a, M: Machine> Frame<'a, M> {
    /// The frame whose registers are `context`, `None` at the end of the stack.
    ///
    /// The address asked is the return address where `signal` is true, for then the frame stands
    /// at that instruction. Else it is the return address less one: after a call that is a byte of
    /// the call, which may be the last of its function. The stack ends where the return address is
    /// 0, and where the finder finds nothing. The finder is asked once at most, and steps are
    /// counted there alone.
    ///
    /// # Errors
    ///
    /// `Table` with the first fault of the row at the address asked.
    pub fn from_context<F: FDEFinder, L: Ledger>(
        image: &MemoryImage<'a>,
        finder: &F,
        context: &M::Context,
        signal: bool,
        steps: &mut Steps<L>,
    ) -> Result<Option<Frame<'a, M>>, StepError>
        ensures ends { M.Context.columns context.now M.RA.0 ≡ Some 0 →
            (result ≡ Ok None) × (steps.new.number ≡ steps.old.number) }
        ensures frame { (ra : ℕ) → M.Context.columns context.now M.RA.0 ≡ Some ra → ra ≢ 0 →
            (answer : Option FoundFde) × (ticks : ℕ) ×
            (steps.new.number ≡ steps.old.number + ticks) ×
            F.finds finder.now image.now (address_of_call ra signal) answer ticks ×
            GivesFrame (address_of_call ra signal) answer result }
        ensures contains { (ra : ℕ) → M.Context.columns context.now M.RA.0 ≡ Some ra →
            IfOk result (λ frame. IfSome frame
            (λ f. IsTrue (covers_pc f.found.fde (address_of_call ra signal)))) }
    {
        let ra = return_address::<M>(context);
        if ra == 0 {
            return Ok(None);
        }
        Frame::by_finder(image, finder, address_asked(ra, signal), steps)
    }

    /// The frame of a description that was found, and of its row at an address that it contains. It
    /// is the one that [`Frame::from_context`] gives at that address over a finder that answers
    /// `found`.
    pub fn from_parts(found: FDESearchResult<'a>, row: Row<'a>) -> Frame<'a, M>
        ensures parts { (result.found ≡ found_fde_of found.entry) × (result.row ≡ row.entry) }
        ensures frame { (address : ℕ) (run : RowInstructions) →
            IsTrue (covers_pc (found_fde_of found.entry).fde address) →
            row_at (found_fde_of found.entry).bases (found_fde_of found.entry).fde address ≡ Ok run →
            IsRowOf row.entry run →
            GivesFrame address (Some (found_fde_of found.entry)) (Ok (Some result)) }
    {
        Frame {
            fde_result: found,
            row,
            machine: PhantomData,
        }
    }

    // The frame of the description that a finder answers for an address.
    fn by_finder<F: FDEFinder, L: Ledger>(
        image: &MemoryImage<'a>,
        finder: &F,
        address: u64,
        steps: &mut Steps<L>,
    ) -> Result<Option<Frame<'a, M>>, StepError>
        ensures frame { (answer : Option FoundFde) × (ticks : ℕ) ×
            (steps.new.number ≡ steps.old.number + ticks) ×
            F.finds finder.now image.now address answer ticks × GivesFrame address answer result }
    {
        match finder.find_fde(image, address, steps) {
            None => Ok(None),
            Some(fde_result) => Ok(Some(Frame::at(fde_result, address)?)),
        }
    }

    // The frame of a description, at an address.
    fn at(fde_result: FDESearchResult<'a>, address: u64) -> Result<Frame<'a, M>, Error>
        ensures { GivesRowOf result (found_fde_of fde_result.entry) address }
    {
        let row = fde_result
            .fde
            .unwind_info_for_address(&fde_result.eh_frame, &fde_result.bases, address)?;
        Ok(Frame {
            fde_result,
            row,
            machine: PhantomData,
        })
    }

    /// The registers of the frame's caller, from the frame's own.
    ///
    /// The stack pointer becomes the canonical frame address and the return address 0; then each
    /// rule of the row gives its register a value from `context`. A register without a rule keeps
    /// its value, and one whose rule is `Undefined` becomes 0.
    ///
    /// # Errors
    ///
    /// The first fault: that of the canonical frame address, or else of the lowest column. `Table`
    /// where a column isn't the machine's or an expression has no value, `Unmapped` with the
    /// address of a slot, or of a number that an expression reads, that isn't wholly mapped.
    pub fn unwind(
        &self,
        image: &MemoryImage<'a>,
        context: &M::Context,
    ) -> Result<M::Context, StepError>
        ensures caller { (run : RowInstructions) → IsRowOf self.now.row run →
            columns_given M.Context.columns result ≡ caller_of (machine_of M.SP.0 M.RA.0)
            (evaluation image.now) image.now (M.Context.columns context.now) run }
    {
        let mut caller = *context;
        step_by_row::<M>(image, &mut caller, &self.row.as_ref())?;
        Ok(caller)
    }

    /// Takes the arguments that the frame's callee removes off the stack of `context`: their size
    /// is added to the stack pointer, and wraps at 2^64.
    pub fn adjust_stack_for_args(&self, context: &mut M::Context)
        ensures sp { (sp : ℕ) → M.Context.columns context.old M.SP.0 ≡ Some sp →
            M.Context.columns context.new M.SP.0 ≡ Some
            ((sp + self.now.row.saved_args_size) % 2 ^ 64) }
        ensures others { (k : ℕ) → k ≢ M.SP.0 →
            M.Context.columns context.new k ≡ M.Context.columns context.old k }
    {
        if let Some(sp) = context.get(M::SP) {
            context.set(M::SP, sp.wrapping_add(self.row.saved_args_size()));
        }
    }

    // What was found.
    pub(crate) fn found(&self) -> &FDESearchResult<'a>
        ensures { found_fde_of result.now ≡ self.now.found }
    {
        &self.fde_result
    }

    /// What the pointers of the description's table may be relative to.
    pub fn bases(&self) -> Bases
        ensures { bases_of result ≡ self.now.found.bases }
    {
        self.fde_result.bases
    }

    /// The address of the first byte of the function that the frame runs.
    pub fn initial_address(&self) -> u64
        ensures { result ≡ self.now.found.fde.start }
    {
        self.fde_result.fde.initial_address()
    }

    /// The address of the personality: the routine that reads the function's language table. `None`
    /// where the description names none.
    ///
    /// # Errors
    ///
    /// `Unmapped` with the address of the cell that holds the address, where it isn't wholly
    /// mapped.
    pub fn personality(&self, image: &MemoryImage<'_>) -> Result<Option<u64>, StepError>
        ensures { value_given result ≡ personality_address image.now self.now.found.fde }
    {
        personality_of(&self.fde_result, image)
    }

    /// The address of the function's language table, 0 where it has none.
    ///
    /// # Errors
    ///
    /// `Unmapped` with the address of the cell that holds the address, where it isn't wholly
    /// mapped.
    pub fn lsda(&self, image: &MemoryImage<'_>) -> Result<u64, StepError>
        ensures { value_given result ≡ language_address image.now self.now.found.fde }
    {
        lsda_of(&self.fde_result, image)
    }

    /// Whether the frame is one that a signal's delivery made: its caller stands before the
    /// instruction at its return address and not after a call.
    pub fn is_signal_trampoline(&self) -> bool
        ensures { result ≡ self.now.found.fde.cie.letters.signal }
    {
        self.fde_result.fde.is_signal_trampoline()
    }
}

impl<'a, M: Machine> fmt::Debug for Frame<'a, M> {
    /// The description that was found, and how the canonical frame address follows.
    fn fmt<W: fmt::Write>(&self, f: &mut fmt::Formatter<W>) -> fmt::Result {
        let cfa = self.row.cfa();
        write!(
            f,
            "Frame {{ fde_result: {:?}, cfa: {cfa:?} }}",
            self.fde_result
        )
    }
}

/// The address of the personality: the routine that reads the function's language table. `None`
/// where the description names none.
///
/// # Errors
///
/// `Unmapped` with the address of the cell that holds the address, where it isn't wholly mapped.
#[inline(always)]
pub fn personality_of(
    found: &FDESearchResult<'_>,
    image: &MemoryImage<'_>,
) -> Result<Option<u64>, StepError>
    ensures { value_given result ≡ personality_address image.now (found_fde_of found.now).fde }
{
    match found.fde.personality() {
        None => Ok(None),
        Some(pointer) => Ok(Some(target(image, pointer)?)),
    }
}

/// The address of the function's language table, 0 where it has none.
///
/// # Errors
///
/// `Unmapped` with the address of the cell that holds the address, where it isn't wholly mapped.
#[inline(always)]
pub fn lsda_of(found: &FDESearchResult<'_>, image: &MemoryImage<'_>) -> Result<u64, StepError>
    ensures { value_given result ≡ language_address image.now (found_fde_of found.now).fde }
{
    match found.fde.lsda() {
        None => Ok(0),
        Some(pointer) => target(image, pointer),
    }
}

/// The address that is asked of a frame: its return address where `signal` is true, for then it
/// stands at that instruction. Else it is the return address less one, as words that wrap: after a
/// call that is a byte of the call, which may be the last of its function and of its call site.
pub fn address_asked(ra: u64, signal: bool) -> u64
    ensures { result ≡ address_of_call ra signal }
{
    if signal { ra } else { ra.wrapping_sub(1) }
}

/// The mark by which a later pass knows a frame: its stack pointer, and where `signal` is true, for
/// then it stands after a signal's frame, that less one, as words that wrap.
pub fn frame_mark(stack_pointer: u64, signal: bool) -> u64
    ensures { result ≡ frame_mark signal stack_pointer }
{
    if signal {
        stack_pointer.wrapping_sub(1)
    } else {
        stack_pointer
    }
}

/// The return address.
pub(crate) fn return_address<M: Machine>(context: &M::Context) -> u64
    ensures { M.Context.columns context.now M.RA.0 ≡ Some result }
{
    context.get(M::RA).unwrap_or(0)
}

/// Puts the registers of a frame's caller in place of the frame's own, by the frame's row.
///
/// # Errors
///
/// Those of [`Frame::unwind`]. After one the registers are unspecified.
pub fn step_by_row<M: Machine>(
    image: &MemoryImage<'_>,
    context: &mut M::Context,
    row: &RowRef<'_, '_>,
) -> Result<(), StepError>
    ensures caller { (run : RowInstructions) → IsRowOf row.now run →
        columns_given M.Context.columns (written_in result context.new) ≡ caller_of
        (machine_of M.SP.0 M.RA.0)
        (evaluation image.now) image.now (M.Context.columns context.old) run }
{
    let callee = *context;
    // What a frame saves stands on the stack, at its stack pointer or above.
    let stack = Window::new(image, stack_pointer::<M>(&callee));
    write_caller::<M>(&stack, &callee, row, context)
}

/// Makes a copy of a frame's registers those of the frame's caller, by the frame's row.
///
/// A saved register that lies in the window is read without a search. Who leaves one frame after
/// another keeps a window over the stack for all of them.
///
/// # Errors
///
/// Those of [`Frame::unwind`]. After one the copy's registers are unspecified.
pub fn write_caller<M: Machine>(
    stack: &Window<'_, '_>,
    context: &M::Context,
    row: &RowRef<'_, '_>,
    caller: &mut M::Context,
) -> Result<(), StepError>
    requires { caller.old ≡ context.now }
    ensures caller { (run : RowInstructions) → IsRowOf row.now run →
        columns_given M.Context.columns (written_in result caller.new) ≡ caller_of
        (machine_of M.SP.0 M.RA.0)
        (evaluation stack.now) stack.now (M.Context.columns context.now) run }
{
    let cfa = cfa::<M>(stack.image(), context, row.cfa())?;
    begin::<M>(caller, cfa);
    apply::<M>(stack, context, cfa, row.registers(), caller)
}

/// The stack pointer.
fn stack_pointer<M: Machine>(context: &M::Context) -> u64
    ensures { M.Context.columns context.now M.SP.0 ≡ Some result }
{
    context.get(M::SP).unwrap_or(0)
}

/// The word at an address, which has to be mapped.
fn word_at(image: &MemoryImage<'_>, address: u64) -> Result<u64, StepError>
    ensures { value_given result ≡ word_or_fault image.now address }
{
    match image.read_u64(address) {
        Some(word) => Ok(word),
        None => Err(StepError::Unmapped(address)),
    }
}

/// Where a pointer leads: to its address, or to the address that the cell there holds.
pub(crate) fn target(image: &MemoryImage<'_>, pointer: Pointer) -> Result<u64, StepError>
    ensures { value_given result ≡ target image.now (pointer_of pointer) }
{
    match pointer {
        Pointer::Direct(address) => Ok(address),
        Pointer::Indirect(cell) => word_at(image, cell),
    }
}

/// What a column holds, which the machine has to have.
fn value_of<M: Machine>(context: &M::Context, register: Register) -> Result<u64, StepError>
    ensures { value_given result ≡ column_or_fault (M.Context.columns context.now register.0) }
{
    match context.get(register) {
        Some(value) => Ok(value),
        None => Err(UNSUPPORTED),
    }
}

/// The canonical frame address. An expression begins with an empty stack.
fn cfa<M: Machine>(
    image: &MemoryImage<'_>,
    context: &M::Context,
    rule: CfaRule<'_>,
) -> Result<u64, StepError>
    ensures { value_given result ≡ cfa_value (evaluation image.now) (M.Context.columns context.now)
        (cfa_meaning rule.entry) }
{
    match rule {
        CfaRule::RegisterAndOffset { register, offset } => {
            let value = value_of::<M>(context, register)?;
            Ok(value.wrapping_add(offset))
        }
        CfaRule::Expression(expression) => Ok(evaluate(expression, None, context, image)?),
    }
}

/// Makes a frame's registers its caller's before any rule is applied: the stack pointer is the
/// canonical frame address, and the return address 0.
pub(crate) fn begin<M: Machine>(context: &mut M::Context, cfa: u64)
    ensures { M.Context.columns context.new ≡ value_without_rule (machine_of M.SP.0 M.RA.0)
        (M.Context.columns context.old) cfa }
{
    context.set(M::RA, 0);
    context.set(M::SP, cfa);
}

/// The value that a rule gives a column, from the canonical frame address and the frame's
/// registers. An expression begins with the canonical frame address on its stack.
fn rule_value<M: Machine>(
    image: &MemoryImage<'_>,
    context: &M::Context,
    cfa: u64,
    register: Register,
    rule: RegisterRule<'_>,
) -> Result<u64, StepError>
    ensures { value_given result ≡ rule_value (evaluation image.now) image.now
        (M.Context.columns context.now) cfa register.0 (rule_meaning rule.entry) }
{
    match rule {
        RegisterRule::Undefined => Ok(0),
        RegisterRule::SameValue => value_of::<M>(context, register),
        RegisterRule::Offset(offset) => word_at(image, cfa.wrapping_add(offset)),
        RegisterRule::ValOffset(offset) => Ok(cfa.wrapping_add(offset)),
        RegisterRule::Register(other) => value_of::<M>(context, other),
        RegisterRule::Expression(expression) => {
            let address = evaluate(expression, Some(cfa), context, image)?;
            word_at(image, address)
        }
        RegisterRule::ValExpression(expression) => {
            Ok(evaluate(expression, Some(cfa), context, image)?)
        }
    }
}

/// Writes the value that a rule gives a column. After a fault the registers are unspecified.
fn apply_rule<M: Machine>(
    image: &MemoryImage<'_>,
    context: &M::Context,
    cfa: u64,
    register: Register,
    rule: RegisterRule<'_>,
    caller: &mut M::Context,
) -> Result<(), StepError>
    ensures { columns_given M.Context.columns (written_in result caller.new) ≡ rule_applied
        (evaluation image.now) image.now (M.Context.columns context.now) cfa (entry_of (
          register,
          rule.entry,
        )) (M.Context.columns caller.old) }
{
    let value = rule_value::<M>(image, context, cfa, register, rule)?;
    match caller.set(register, value) {
        Some(()) => Ok(()),
        None => Err(UNSUPPORTED),
    }
}

/// Writes the values that a row's rules give their columns. After a fault the registers are
/// unspecified.
fn apply<M: Machine>(
    stack: &Window<'_, '_>,
    context: &M::Context,
    cfa: u64,
    rules: Registers<'_, '_>,
    caller: &mut M::Context,
) -> Result<(), StepError>
    ensures { columns_given M.Context.columns (written_in result caller.new) ≡ rules_applied
        (evaluation stack.now) stack.now (M.Context.columns context.now) cfa
        (map entry_of (registers_left rules.entry)) (M.Context.columns caller.old) }
{
    let mut rest = rules;
    match apply_saved::<M>(stack, cfa, &mut rest, caller) {
        None => Ok(()),
        Some(first) => apply_from::<M>(stack.image(), context, cfa, first, rest, caller),
    }
}

/// Writes the values of columns as long as rules say that they are saved in the window. The first
/// rule that says otherwise is answered, `None` where none does.
///
/// Nearly each rule is so. This is what a step takes for each of them.
fn apply_saved<'a, M: Machine>(
    stack: &Window<'_, '_>,
    cfa: u64,
    rules: &mut Registers<'_, 'a>,
    caller: &mut M::Context,
) -> Option<(Register, RegisterRule<'a>)>
    ensures ended { IfNone result (registers_left rules.new ≡ []) }
    ensures rules_applied { (old : Columns) →
        rules_applied (evaluation stack.now) stack.now old cfa
        (map entry_of (cons_option result (registers_left rules.new))) (M.Context.columns caller.new)
        ≡ rules_applied (evaluation stack.now) stack.now old cfa
        (map entry_of (registers_left rules.old)) (M.Context.columns caller.old) }
{
    while let Some((register, rule)) = rules.next() {
        if !apply_slot::<M>(stack, cfa, register, rule, caller) {
            return Some((register, rule));
        }
    }
    None
}

/// Writes the value of a column that is saved in the window. `false`, and nothing is written, where
/// its rule says otherwise or the machine hasn't the column.
fn apply_slot<M: Machine>(
    stack: &Window<'_, '_>,
    cfa: u64,
    register: Register,
    rule: RegisterRule<'_>,
    caller: &mut M::Context,
) -> bool
    ensures rules_applied { OnTrue result ((old : Columns) →
        rule_applied (evaluation stack.now) stack.now old cfa (entry_of (register, rule.entry))
        (M.Context.columns caller.old) ≡ Ok (M.Context.columns caller.new)) }
    ensures unchanged { OnFalse result (caller.new ≡ caller.old) }
{
    let RegisterRule::Offset(offset) = rule else {
        return false;
    };
    match stack.read_u64(cfa.wrapping_add(offset)) {
        Some(word) => caller.set(register, word).is_some(),
        None => false,
    }
}

/// Writes the values that a rule and those after it give their columns. After a fault the registers
/// are unspecified.
// Expressions among them need much of the stack, so it stays apart.
#[cold]
#[inline(never)]
fn apply_from<M: Machine>(
    image: &MemoryImage<'_>,
    context: &M::Context,
    cfa: u64,
    first: (Register, RegisterRule<'_>),
    rules: Registers<'_, '_>,
    caller: &mut M::Context,
) -> Result<(), StepError>
    ensures { columns_given M.Context.columns (written_in result caller.new) ≡ rules_applied
        (evaluation image.now) image.now (M.Context.columns context.now) cfa
        (map entry_of (first.entry ∷ registers_left rules.entry)) (M.Context.columns caller.old) }
{
    apply_rule::<M>(image, context, cfa, first.0, first.1, caller)?;
    apply_rest::<M>(image, context, cfa, rules, caller)
}

/// Writes the values that rules give their columns. After a fault the registers are unspecified.
fn apply_rest<M: Machine>(
    image: &MemoryImage<'_>,
    context: &M::Context,
    cfa: u64,
    rules: Registers<'_, '_>,
    caller: &mut M::Context,
) -> Result<(), StepError>
    ensures { columns_given M.Context.columns (written_in result caller.new) ≡ rules_applied
        (evaluation image.now) image.now (M.Context.columns context.now) cfa
        (map entry_of (registers_left rules.entry)) (M.Context.columns caller.old) }
{
    for (register, rule) in rules {
        apply_rule::<M>(image, context, cfa, register, rule, caller)?;
    }
    Ok(())
}
