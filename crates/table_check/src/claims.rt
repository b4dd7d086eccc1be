//! Functions that somebody claims a module has.

ghost use Rattle.std.specs.Prelude.{◌≡◌, ◌≢◌, [], ◌∷◌, ◌++◌, IfOk, OnOk, OnErr, false, true, map};
ghost use Rattle.unwind_definitions.specs.Function.{Function};
ghost use Rattle.table_check.specs.Claiming.{is_some_claim, is_some_table, with_body};
ghost use Rattle.table_check.specs.Claiming.{with_claim, with_site, with_table};
ghost use Rattle.table_check.specs.Claiming.{with_last, with_step};
ghost use Rattle.table_check.specs.ClaimViews.{function_of, step_of};
ghost use Rattle.unwinding_frames.specs.LanguageViews.{action_of};

use eh_frame::Register;
use std::alloc::{AllocError, Global};
use std::marker::Model;
use unwinding_frames::EhAction;

/// What a function's prologue does in one step.
///
/// Registers are named by their columns. System V x86-64 psABI, table of DWARF register numbers.
#[derive(Clone, Copy, Debug, PartialEq, Eq)]
pub enum ClaimStep {
    /// Pushes a register.
    Push(Register),
    /// Lowers the stack pointer by so many bytes.
    Allocate(u64),
    /// Sets RBP to so many bytes above the stack pointer.
    Set(u64),
    /// Stores a register so many bytes above the stack pointer.
    Store(Register, u64),
}

/// A step of a prologue, and the offset in the function's code at which it has ended.
#[derive(Clone, Copy)]
pub struct ClaimedStep {
    /// How many bytes after the function's start it has ended.
    pub end: u64,
    /// What it does.
    pub step: ClaimStep,
}

/// The addresses from one on up to another, which isn't in it.
#[derive(Clone, Copy)]
pub struct AddressRange {
    /// The first address that is in it.
    pub from: u64,
    /// The first address after it.
    pub to: u64,
}

/// The calls in a range, and what they ask.
///
/// Source: Itanium C++ ABI, exception handling tables: the call site table.
#[derive(Clone, Copy)]
pub struct ClaimedSite {
    /// The addresses of the calls.
    pub range: AddressRange,
    /// What they ask.
    pub action: EhAction,
}

/// What the description says that has a claim's range.
#[derive(Clone, Copy)]
pub(crate) struct Described {
    /// Whether it describes the claim's code.
    pub(crate) has_code: bool,
    /// Whether it leads to the claim's language table; or to none, where the claim has none.
    pub(crate) has_language: bool,
}

/// A function that is claimed.
#[derive(Drop)]
pub(crate) struct Claim {
    pub(crate) start: u64,
    pub(crate) end: u64,
    pub(crate) is_outermost: bool,
    pub(crate) steps: Vec<ClaimedStep>,
    pub(crate) bodies: Vec<AddressRange>,
    // none without a language table
    pub(crate) sites: Vec<ClaimedSite>,
    pub(crate) has_table: bool,
    // what its description says, once it is found
    pub(crate) description: Option<Described>,
}

/// Functions that a module is claimed to have, by ascending address.
///
/// Contracts see the list of these functions.
#[derive(Drop)]
pub struct Claims {
    pub(crate) claims: Vec<Claim>,
    alloc: Global,
}

impl Model for Claims {
    ghost use Rattle.std.specs.Prelude.{List, map};
    ghost use Rattle.unwind_definitions.specs.Function.{Function};
    ghost use Rattle.table_check.specs.ClaimViews.{function_of};

    ghost Value = { List Function };

    ghost view = { λ c. map function_of c.claims.items };
}

impl Claims {
    /// No claims. It takes no memory yet.
    pub fn new(alloc: Global) -> Claims
        ensures { result ≡ [] }
    {
        Claims {
            claims: Vec::new(alloc),
            alloc,
        }
    }

    /// Claims a function with the addresses from `start` to before `end`, so far without steps,
    /// bodies and a language table. `outermost` says that it is the first function of a stack, as
    /// `_start` is.
    ///
    /// # Errors
    ///
    /// `AllocError` where memory ran out; the claims are then as before.
    pub fn push(&mut self, start: u64, end: u64, outermost: bool) -> Result<(), AllocError>
        ensures added { OnOk result (self.new ≡ with_claim start end outermost self.old) }
        ensures unchanged { OnErr result (self.new ≡ self.old) }
    {
        self.claims.push(Claim {
            start,
            end,
            is_outermost: outermost,
            steps: Vec::new(self.alloc),
            bodies: Vec::new(self.alloc),
            sites: Vec::new(self.alloc),
            has_table: false,
            description: None,
        })?;
        Ok(())
    }

    /// Adds a step to the prologue of the last claim, which has ended `end` bytes after the
    /// function's start. `false` exactly where there is no claim; the claims are then as before.
    ///
    /// # Errors
    ///
    /// `AllocError` where memory ran out; the claims are then as before.
    pub fn step(&mut self, end: u64, step: ClaimStep) -> Result<bool, AllocError>
        ensures there { IfOk result (λ there. there ≡ is_some_claim self.old) }
        ensures added { OnOk result (self.new ≡ with_last (with_step end (step_of step)) self.old) }
        ensures unchanged { OnErr result (self.new ≡ self.old) }
    {
        if self.claims.is_empty() {
            return Ok(false);
        }
        let last = self.claims.len() - 1;
        self.claims[last].steps.push(ClaimedStep { end, step })?;
        Ok(true)
    }

    /// Adds the addresses from `start` to before `end` to the body of the last claim: those where
    /// all its steps have ended, and none is undone. `false` exactly where there is no claim; the
    /// claims are then as before.
    ///
    /// # Errors
    ///
    /// `AllocError` where memory ran out; the claims are then as before.
    pub fn body(&mut self, start: u64, end: u64) -> Result<bool, AllocError>
        ensures there { IfOk result (λ there. there ≡ is_some_claim self.old) }
        ensures added { OnOk result (self.new ≡ with_last (with_body start end) self.old) }
        ensures unchanged { OnErr result (self.new ≡ self.old) }
    {
        if self.claims.is_empty() {
            return Ok(false);
        }
        let last = self.claims.len() - 1;
        self.claims[last].bodies.push(AddressRange {
            from: start,
            to: end,
        })?;
        Ok(true)
    }

    /// Gives the last claim a language table, so far without call sites, unless it has one. `false`
    /// exactly where there is no claim; the claims are then as before.
    pub fn table(&mut self) -> Result<bool, AllocError>
        ensures there { IfOk result (λ there. there ≡ is_some_claim self.old) }
        ensures added { OnOk result (self.new ≡ with_last with_table self.old) }
        ensures unchanged { OnErr result (self.new ≡ self.old) }
    {
        if self.has_last_table() {
            return Ok(true);
        }
        if self.claims.is_empty() {
            return Ok(false);
        }
        let last = self.claims.len() - 1;
        let claim = &mut self.claims[last];
        claim.sites.clear();
        claim.has_table = true;
        Ok(true)
    }

    /// Adds a call site to the language table of the last claim: what the calls from `start` to
    /// before `end` ask. `false` exactly where there is no claim, or the last one has no language
    /// table; the claims are then as before.
    ///
    /// # Errors
    ///
    /// `AllocError` where memory ran out; the claims are then as before.
    pub fn site(&mut self, start: u64, end: u64, action: EhAction) -> Result<bool, AllocError>
        ensures there { IfOk result (λ there. there ≡ is_some_table self.old) }
        ensures added { OnOk result
            (self.new ≡ with_last (with_site start end (action_of action)) self.old) }
        ensures unchanged { OnErr result (self.new ≡ self.old) }
    {
        if !self.has_last_table() {
            return Ok(false);
        }
        let last = self.claims.len() - 1;
        let range = AddressRange {
            from: start,
            to: end,
        };
        self.claims[last].sites.push(ClaimedSite { range, action })?;
        Ok(true)
    }

    // Whether there is a last claim, and it has a language table.
    fn has_last_table(&self) -> bool
        ensures table { result ≡ is_some_table self.now }
        ensures some { result ≡ true → self.now ≢ [] }
    {
        if self.claims.is_empty() {
            return false;
        }
        let last = self.claims.len() - 1;
        self.claims[last].has_table
    }
}
