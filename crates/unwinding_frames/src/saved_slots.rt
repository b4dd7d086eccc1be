//! The caller of a frame whose registers are all saved close below the canonical frame address (CFA).

ghost use Rattle.std.specs.Prelude.{◌≡◌, ℕ, List, Ok, IfSome, false, length, map, true};
ghost use Rattle.memory_image.specs.Image.{Span};
ghost use Rattle.unwind_definitions.specs.Caller.{Columns, Evaluates, caller_of, cfa_value};
ghost use Rattle.unwind_definitions.specs.Caller.{x86_64};
ghost use Rattle.unwind_definitions.specs.Expressions.{evaluation};
ghost use Rattle.unwind_definitions.specs.Row.{RowInstructions};
ghost use Rattle.unwind_arch.specs.ContextViews.{columns_of};
ghost use Rattle.frame_rows.specs.Left.{registers_left};
ghost use Rattle.frame_rows.specs.Reach.{AreSavedBelow, IsSavedBelow};
ghost use Rattle.frame_rows.specs.Rows.{IsRowOf};
ghost use Rattle.frame_rows.specs.Rules.{cfa_meaning, entry_of, rule_meaning};
ghost use Rattle.unwinding_frames.specs.Calling.{rule_applied, rules_applied};
ghost use Rattle.unwinding_frames.specs.Slots.{AreSlots};

use crate::frame::begin;
use crate::window::Window;
use eh_frame::{CfaRule, Register, RegisterMap, RegisterRule, Registers, RowRef};
use memory_image::u64_at;
use unwind_arch::x86_64::{Arch, Context};

/// Puts the registers of a frame's caller in place of the frame's own, by the frame's row, where the
/// CFA is a register plus an offset and all registers that the row speaks of are saved in the window
/// close below it, as most functions save them. `false`, and nothing is written, where that isn't so
/// or isn't known.
///
/// It makes no copy of the registers, and looks once whether the words are there.
#[inline(always)]
pub fn step_in_place(stack: &Window<'_, '_>, row: &RowRef<'_, '_>, context: &mut Context) -> bool
    ensures caller { result ≡ true → (run : RowInstructions) → IsRowOf row.now run →
        caller_of x86_64 (evaluation stack.now) stack.now (columns_of context.old) run
        ≡ Ok (columns_of context.new) }
    ensures stays { result ≡ false → context.new ≡ context.old }
{
    let Some(cfa) = register_cfa(row.cfa(), context) else {
        return false;
    };
    let reach = row.reach();
    let Some(slots) = stack.below(cfa, reach) else {
        return false;
    };
    begin::<Arch>(context, cfa);
    write_slots(slots, reach, row.registers(), context);
    true
}

/// The CFA, where it is a register plus an offset.
#[inline(always)]
fn register_cfa(rule: CfaRule<'_>, context: &Context) -> Option<u64>
    ensures { (evaluates : Evaluates) → IfSome result (λ cfa.
        cfa_value evaluates (columns_of context.now) (cfa_meaning rule.entry) ≡ Ok cfa) }
{
    match rule {
        CfaRule::RegisterAndOffset { register, offset } => {
            let value = context.get(register)?;
            Some(value.wrapping_add(offset))
        }
        CfaRule::Expression(_) => None,
    }
}

/// Writes the registers that are saved in these bytes, which reach so far below the CFA.
#[inline(always)]
fn write_slots(slots: &[u8], reach: u64, rules: Registers<'_, '_>, context: &mut Context)
    requires whole { length slots.now ≡ reach }
    requires saved { AreSavedBelow reach (map entry_of (registers_left rules)) }
    ensures { (image : List Span) (cfa : ℕ) → AreSlots image cfa reach slots.now → (old : Columns) →
        rules_applied (evaluation image) image old cfa (map entry_of (registers_left rules.entry))
        (columns_of context.old) ≡ Ok (columns_of context.new) }
{
    let mut rest = rules;
    while let Some((register, rule)) = rest.next() {
        write_slot(slots, reach, register, rule, context);
    }
}

/// Writes one of them.
#[inline(always)]
fn write_slot(
    slots: &[u8],
    reach: u64,
    register: Register,
    rule: RegisterRule<'_>,
    context: &mut Context,
)
    requires whole { length slots.now ≡ reach }
    requires saved { IsSavedBelow reach register.0 (rule_meaning rule) }
    ensures { (image : List Span) (cfa : ℕ) → AreSlots image cfa reach slots.now → (old : Columns) →
        rule_applied (evaluation image) image old cfa (entry_of (register, rule.entry))
        (columns_of context.old) ≡ Ok (columns_of context.new) }
{
    let RegisterRule::Offset(offset) = rule else {
        unreachable!()
    };
    let word = u64_at(slots, offset.wrapping_add(reach) as usize);
    if register.0 < 16 {
        let _ = context.set(register, word);
    } else {
        let _ = context.set(Arch::RA, word);
    }
}
