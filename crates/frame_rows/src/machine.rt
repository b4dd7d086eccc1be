//! The virtual machine that frame programs run on, and what each instruction does to it.
//! DWARF 5 sections 6.4.1 and 6.4.2.

ghost use Rattle.std.specs.Prelude.{◌≡◌, ℕ, Some, IfOk, IfErr, IfSome, OnErr, false};
ghost use Rattle.std.specs.Option.{option_map};
ghost use Rattle.unwind_definitions.specs.Row.{ColumnAndOffset, has_column};
ghost use Rattle.frame_rows.specs.Rules.{cfa_meaning};

use crate::instruction::CallFrameInstruction;
use crate::row::Row;
use crate::row_ref::RowRef;
use crate::rule::{CfaRule, RegisterRule};
use crate::rules::RegisterRules;
use std::marker::Model;
use unwind_arch::Register;
use unwind_definitions::Error;

/// The row that the instructions so far make, which may lack a CFA.
#[derive(Drop)]
pub(crate) struct RowState<'a> {
    cfa: Option<CfaRule<'a>>,
    rules: RegisterRules<'a>,
    saved_args_size: u64,
}

impl<'a> RowState<'a> {
    ghost use Rattle.std.specs.Prelude.{[], None};

    /// The row of no instructions.
    pub(crate) fn new() -> RowState<'a>
        ensures { result ≡ record { cfa = None; rules = []; saved_args_size = 0 } }
    {
        RowState {
            cfa: None,
            rules: RegisterRules::new(),
            saved_args_size: 0,
        }
    }

    /// The row, lent, where it has a CFA.
    pub(crate) fn row(&self) -> Option<RowRef<'_, 'a>>
        ensures { IfSome result (λ row. (option_map cfa_meaning self.now.cfa ≡ Some row.cfa) ×
            (row.rules ≡ self.now.rules) ×
            (row.saved_args_size ≡ self.now.saved_args_size)) }
    {
        let cfa = self.cfa?;
        Some(RowRef::new(cfa, self.rules.entries(), self.saved_args_size))
    }

    /// Makes it the same as another.
    pub(crate) fn assign(&mut self, other: &RowState<'a>)
        ensures { self.new ≡ other.now }
    {
        self.cfa = other.cfa;
        self.rules.assign(&other.rules);
        self.saved_args_size = other.saved_args_size;
    }
}

/// The state that a restore leads back to, if there is one. Its room is there in any case, so that
/// only the rules that there are get written, and contracts see an `Option`.
#[derive(Drop)]
pub(crate) struct RememberedState<'a> {
    is_some: bool,
    state: RowState<'a>,
}

impl<'a> Model for RememberedState<'a> {
    ghost use Rattle.std.specs.Prelude.{Option, Some, None, if◌then◌else◌};
    ghost use Rattle.frame_rows.specs.declared.machine.RowState.{RowState};

    ghost Value = { Option RowState };

    ghost view = { λ r. if r.is_some then Some r.state else None };
}

impl<'a> RememberedState<'a> {
    ghost use Rattle.std.specs.Prelude.{None, is_some, true, false};

    /// None.
    fn new() -> RememberedState<'a>
        ensures { result ≡ None }
    {
        RememberedState {
            is_some: false,
            state: RowState::new(),
        }
    }

    /// Whether there is one.
    fn is_some(&self) -> bool
        ensures some { result ≡ is_some self.now }
        ensures none { result ≡ false → self.now ≡ None }
    {
        self.is_some
    }

    /// Makes it none.
    fn forget(&mut self)
        ensures { self.new ≡ None }
    {
        self.is_some = false;
    }

    /// Makes it a state.
    fn put(&mut self, state: &RowState<'a>)
        ensures { self.new ≡ Some state.now }
    {
        self.is_some = true;
        self.state.assign(state);
    }

    /// Puts it in place of a state, where there is one: then there is none any more.
    fn take_into(&mut self, state: &mut RowState<'a>) -> bool
        ensures some { result ≡ true → (self.old ≡ Some state.new) × (self.new ≡ None) }
        ensures none { result ≡ false → self.old ≡ None }
        ensures same { result ≡ false → (self.new ≡ self.old) × (state.new ≡ state.old) }
    {
        if !self.is_some {
            return false;
        }
        state.assign(&self.state);
        self.is_some = false;
        true
    }
}

/// The virtual machine that runs frame programs.
#[derive(Drop)]
pub(crate) struct Machine<'a> {
    remembered: RememberedState<'a>,
    location: u64,
    state: RowState<'a>,
    // the rules that the CIE's program ended with; none while that one runs, which has no rules
    // before
    initial: RegisterRules<'a>,
    // the indexes of rows of a table that have the rules of the state and of the remembered one, if
    // such are known
    rules_of: Option<usize>,
    remembered_rules_of: Option<usize>,
}

impl<'a> Machine<'a> {
    ghost use Rattle.std.specs.Prelude.{[], ◌∷◌, ◌<◌, List};
    ghost use Rattle.unwind_definitions.specs.Instructions.{Instruction, Advance, SetLocation};
    ghost use Rattle.unwind_definitions.specs.Instructions.{Write, Reset};
    ghost use Rattle.unwind_definitions.specs.Instructions.{Remember, Restore, CfaColumn};
    ghost use Rattle.unwind_definitions.specs.Instructions.{CfaOffset};
    ghost use Rattle.unwind_definitions.specs.Row.{RowInstructions, from_common};
    ghost use Rattle.unwind_definitions.specs.Row.{location as location_after};
    ghost use Rattle.frame_rows.specs.Rules.{rule_meaning, rule_in};
    ghost use Rattle.frame_rows.specs.InstructionViews.{meaning};
    ghost use Rattle.frame_rows.specs.Running.{IsStateOf, Represents, Follows, stops};
    ghost use Rattle.frame_rows.specs.Running.{initial_rules, push};
    ghost use Rattle.frame_rows.specs.Rows.{IsLast, row_in_place};
    ghost use Rattle.frame_rows.specs.Stretches.{LeadsOn};
    ghost use Rattle.frame_rows.specs.KeptRows.{Kept};
    ghost use Rattle.frame_rows.specs.SameRules.{HasRules, IsRowWith, KnowsRows};

    /// A machine that is to run the program of a common information entry.
    pub(crate) fn new() -> Machine<'a>
        ensures { Represents 0 result (from_common []) }
    {
        Machine {
            location: 0,
            state: RowState::new(),
            remembered: RememberedState::new(),
            initial: RegisterRules::new(),
            rules_of: None,
            remembered_rules_of: None,
        }
    }

    /// Makes it one that is to run the program of a common information entry, whatever it ran
    /// before.
    pub(crate) fn restart(&mut self)
        ensures { Represents 0 self.new (from_common []) }
    {
        self.location = 0;
        self.state.cfa = None;
        self.state.rules.clear();
        self.state.saved_args_size = 0;
        self.remembered.forget();
        self.initial.clear();
        self.rules_of = None;
    }

    /// Makes what the entry's program said the beginning of a description's program, which starts
    /// at a location.
    pub(crate) fn begin(&mut self, location: u64)
        ensures { (common : List Instruction) →
            Represents 0 self.old (record { common = []; own = common }) →
            Represents location self.new (from_common common) }
    {
        self.location = location;
        self.remembered.forget();
        self.initial.assign(&self.state.rules);
    }

    /// Puts what the instructions so far make in place of another row.
    pub(crate) fn put_state(&self, state: &mut RowState<'a>)
        ensures { state.new ≡ self.now.state }
    {
        state.assign(&self.state);
    }

    /// Makes it one that is to run a description's program from a location on, after a common
    /// information entry's program that ended with a row, whatever it ran before.
    pub(crate) fn begin_after(&mut self, common: &RowState<'a>, location: u64)
        ensures state { (instructions : List Instruction) →
            IsStateOf common.now (record { common = []; own = instructions }) →
            Represents location self.new (from_common instructions) }
        ensures rows { (rows : List Kept) → KnowsRows rows self.new }
    {
        self.location = location;
        self.state.assign(common);
        self.remembered.forget();
        self.initial.assign(&common.rules);
        self.rules_of = None;
    }

    /// The index of a row of the table that has the rules of this one, if such is known.
    pub(crate) fn rules_of(&self) -> Option<usize>
        ensures { result ≡ self.now.rules_of }
    {
        self.rules_of
    }

    /// Notes the index of a row of the table that has these rules, where the row has a CFA.
    pub(crate) fn note_row(&mut self, index: usize)
        ensures state { (start : ℕ) (run : RowInstructions) → Represents start self.old run →
            Represents start self.new run }
        ensures rows { (rows : List Kept) → KnowsRows rows self.old →
            IfSome self.old.state.cfa (λ _. IsRowWith rows (Some index) self.old.state.rules) →
            KnowsRows rows self.new }
    {
        if self.state.cfa.is_some() {
            self.rules_of = Some(index);
        }
    }

    /// Whether an instruction leads past the address asked, if one is asked.
    pub(crate) fn stops_before(
        &self,
        instruction: CallFrameInstruction<'a>,
        pc: Option<u64>,
    ) -> bool
        ensures { result ≡ stops self.now.location pc (meaning instruction.entry) }
    {
        let location = self.location;
        match (pc, instruction) {
            (Some(pc), CallFrameInstruction::AdvanceLocation(delta)) => {
                delta <= (u64::MAX - location) as u128 && (pc as u128) < location as u128 + delta
            }
            (Some(pc), CallFrameInstruction::SetLocation(address)) => {
                pc < address && location <= address
            }
            _ => false,
        }
    }

    /// Where an instruction leads on from the location. One that is a fault there doesn't.
    #[inline(always)]
    pub(crate) fn leads_on(&self, instruction: CallFrameInstruction<'a>) -> Option<u64>
        ensures { LeadsOn self.now.location (meaning instruction.entry) result }
    {
        let location = self.location;
        match instruction {
            CallFrameInstruction::AdvanceLocation(delta)
                if delta != 0 && delta <= (u64::MAX - location) as u128 => {
                Some(location + delta as u64)
            }
            CallFrameInstruction::SetLocation(address) if address > location => Some(address),
            _ => None,
        }
    }

    /// Moves to the location that an instruction leads on to.
    pub(crate) fn go_on(&mut self, location: u64)
        ensures follows { (start : ℕ) (run : RowInstructions) (i : Instruction) →
            Represents start self.old run →
            location_after (location_after start run.own) (i ∷ []) ≡ location →
            location_after start run.own < location → Represents start self.new (push run i) }
        ensures rows { (rows : List Kept) → KnowsRows rows self.old → KnowsRows rows self.new }
    {
        self.location = location;
    }

    // Raises the location.
    fn advance(&mut self, delta: u128) -> Result<(), Error>
        ensures follows { (start : ℕ) (run : RowInstructions) → Represents start self.old run →
            Follows start run (Advance delta) result self.new }
        ensures rows { (rows : List Kept) → KnowsRows rows self.old → KnowsRows rows self.new }
    {
        if delta > (u64::MAX - self.location) as u128 {
            return Err(Error::AddressOverflow);
        }
        self.location += delta as u64;
        Ok(())
    }

    // Sets the location.
    fn set_location(&mut self, address: u64) -> Result<(), Error>
        ensures follows { (start : ℕ) (run : RowInstructions) → Represents start self.old run →
            Follows start run (SetLocation address) result self.new }
        ensures rows { (rows : List Kept) → KnowsRows rows self.old → KnowsRows rows self.new }
    {
        if address < self.location {
            return Err(Error::LocationGoesBack);
        }
        self.location = address;
        Ok(())
    }

    /// Gives a register a rule.
    #[inline(always)]
    pub(crate) fn set_rule(
        &mut self,
        register: Register,
        rule: RegisterRule<'a>,
    ) -> Result<(), Error>
        ensures follows { (start : ℕ) (run : RowInstructions) → Represents start self.old run →
            Follows start run (Write register.0 (rule_meaning rule.entry)) result self.new }
        ensures rows { (rows : List Kept) → KnowsRows rows self.old → KnowsRows rows self.new }
    {
        self.rules_of = None;
        self.state.rules.set(register, rule)
    }

    fn initial_rule(&self, register: Register) -> Option<RegisterRule<'a>>
        ensures { option_map rule_meaning result ≡ rule_in (initial_rules self.now) register.0 }
    {
        self.initial.get(register)
    }

    fn restore_initial_rule(&mut self, register: Register) -> Result<(), Error>
        ensures follows { (start : ℕ) (run : RowInstructions) → Represents start self.old run →
            Follows start run (Reset register.0) result self.new }
        ensures rows { (rows : List Kept) → KnowsRows rows self.old → KnowsRows rows self.new }
    {
        self.rules_of = None;
        match self.initial_rule(register) {
            Some(rule) => self.state.rules.set(register, rule),
            None => {
                self.state.rules.remove(register);
                Ok(())
            }
        }
    }

    pub(crate) fn remember_state(&mut self) -> Result<(), Error>
        ensures follows { (start : ℕ) (run : RowInstructions) → Represents start self.old run →
            Follows start run Remember result self.new }
        ensures rows { (rows : List Kept) → KnowsRows rows self.old → KnowsRows rows self.new }
    {
        if self.remembered.is_some() {
            return Err(Error::StackFull);
        }
        self.remembered.put(&self.state);
        self.remembered_rules_of = self.rules_of;
        Ok(())
    }

    pub(crate) fn restore_state(&mut self) -> Result<(), Error>
        ensures follows { (start : ℕ) (run : RowInstructions) → Represents start self.old run →
            Follows start run Restore result self.new }
        ensures rows { (rows : List Kept) → KnowsRows rows self.old → KnowsRows rows self.new }
    {
        if self.remembered.take_into(&mut self.state) {
            self.rules_of = self.remembered_rules_of;
            Ok(())
        } else {
            Err(Error::PopWithEmptyStack)
        }
    }

    fn set_cfa_register(&mut self, register: Register) -> Result<(), Error>
        ensures follows { (start : ℕ) (run : RowInstructions) → Represents start self.old run →
            Follows start run (CfaColumn register.0) result self.new }
        ensures rows { (rows : List Kept) → KnowsRows rows self.old → KnowsRows rows self.new }
    {
        let (_, offset) = register_and_offset(self.state.cfa)?;
        self.state.cfa = Some(CfaRule::RegisterAndOffset { register, offset });
        Ok(())
    }

    pub(crate) fn set_cfa_offset(&mut self, offset: u64) -> Result<(), Error>
        ensures follows { (start : ℕ) (run : RowInstructions) → Represents start self.old run →
            Follows start run (CfaOffset offset) result self.new }
        ensures rows { (rows : List Kept) → KnowsRows rows self.old → KnowsRows rows self.new }
    {
        let (register, _) = register_and_offset(self.state.cfa)?;
        self.state.cfa = Some(CfaRule::RegisterAndOffset { register, offset });
        Ok(())
    }

    /// Runs one instruction. After a fault the machine is unspecified.
    #[inline(always)]
    pub(crate) fn run(&mut self, instruction: CallFrameInstruction<'a>) -> Result<(), Error>
        ensures follows { (start : ℕ) (run : RowInstructions) → Represents start self.old run →
            Follows start run (meaning instruction.entry) result self.new }
        ensures rows { (rows : List Kept) → KnowsRows rows self.old → KnowsRows rows self.new }
    {
        match instruction {
            CallFrameInstruction::Nop => Ok(()),
            CallFrameInstruction::SetLocation(address) => self.set_location(address),
            CallFrameInstruction::AdvanceLocation(delta) => self.advance(delta),
            CallFrameInstruction::SetRule { register, rule } => self.set_rule(register, rule),
            CallFrameInstruction::RestoreInitialRule(register) => {
                self.restore_initial_rule(register)
            }
            CallFrameInstruction::RememberState => self.remember_state(),
            CallFrameInstruction::RestoreState => self.restore_state(),
            CallFrameInstruction::DefineCfa { register, offset } => {
                self.state.cfa = Some(CfaRule::RegisterAndOffset { register, offset });
                Ok(())
            }
            CallFrameInstruction::DefineCfaRegister(register) => self.set_cfa_register(register),
            CallFrameInstruction::DefineCfaOffset(offset) => self.set_cfa_offset(offset),
            CallFrameInstruction::DefineCfaExpression(expression) => {
                self.state.cfa = Some(CfaRule::Expression(expression));
                Ok(())
            }
            CallFrameInstruction::SetArgumentSize(size) => {
                self.state.saved_args_size = size;
                Ok(())
            }
        }
    }

    /// Puts the row that the programs end with in place of another.
    pub(crate) fn put_row(&self, row: &mut Row<'a>) -> Result<(), Error>
        ensures { (start : ℕ) (run : RowInstructions) → Represents start self.now run →
            IsLast run (row_in_place result row.new) }
    {
        match self.state.cfa {
            Some(cfa) => {
                row.assign(cfa, &self.state.rules, self.state.saved_args_size);
                Ok(())
            }
            None => Err(Error::NoCfaRegister),
        }
    }

    /// The row that the programs end with so far, lent.
    pub(crate) fn row(&self) -> Result<RowRef<'_, 'a>, Error>
        ensures last { (start : ℕ) (run : RowInstructions) → Represents start self.now run →
            IsLast run result }
        ensures same { IfOk result (λ row. row.rules ≡ self.now.state.rules) }
        ensures some { IfSome self.now.state.cfa (λ _. HasRules result self.now.state.rules) }
    {
        match self.state.cfa {
            Some(cfa) => Ok(RowRef::new(
                cfa,
                self.state.rules.entries(),
                self.state.saved_args_size,
            )),
            None => Err(Error::NoCfaRegister),
        }
    }

    /// The row that the programs end with.
    pub(crate) fn into_row(self) -> Result<Row<'a>, Error>
        ensures { (start : ℕ) (run : RowInstructions) → Represents start self.entry run →
            IsLast run result }
    {
        let Machine {
            location: _,
            state,
            remembered: _,
            initial: _,
            rules_of: _,
            remembered_rules_of: _,
        } = self;
        let RowState {
            cfa,
            rules,
            saved_args_size,
        } = state;
        match cfa {
            Some(cfa) => Ok(Row::new(cfa, rules, saved_args_size)),
            None => Err(Error::NoCfaRegister),
        }
    }
}

// The register and the offset of a CFA that is found by them.
fn register_and_offset(cfa: Option<CfaRule>) -> Result<(Register, u64), Error>
    ensures ok { IfOk result (λ r. option_map cfa_meaning cfa.entry ≡ Some
        (ColumnAndOffset r.0.0 r.1)) }
    ensures err { IfErr result (λ e. e ≡ Error.NoCfaRegister) }
    ensures none { OnErr result (has_column (option_map cfa_meaning cfa.entry) ≡ false) }
{
    match cfa {
        Some(CfaRule::RegisterAndOffset { register, offset }) => Ok((register, offset)),
        _ => Err(Error::NoCfaRegister),
    }
}
