//! What the rows of a table say, each kept once where many say the same. DWARF 5 section 6.4.1.

ghost use Rattle.std.specs.Prelude.{◌≡◌, ◌<◌, ◌≤◌, ◌++◌, ◌∷◌, [], IfOk, IfSome, List, OnErr, OnOk, Result};
ghost use Rattle.std.specs.Prelude.{ℕ, None, Ok, Some, false, is_ok, length, map, slice_index_or, true};
ghost use Rattle.unwind_definitions.specs.declared.error.Error.{Error as Fault};
ghost use Rattle.unwind_definitions.specs.Instructions.{Rule};
ghost use Rattle.frame_rows.specs.RowValue.{RowValue};
ghost use Rattle.frame_rows.specs.Rules.{entry_of, rule_meaning, AscendsFrom};
ghost use Rattle.frame_rows.specs.Bodies.{Grows, IsInRules, Says, body_in, kept_answer};
ghost use Rattle.frame_rows.specs.BodySteps.{SaysWithCfa};
ghost use Rattle.frame_rows.specs.KeptRows.{Ascends, answer_rule_count};
ghost use Rattle.frame_rows.specs.SameRules.{HasRulesOf, IsBodyWith};

use crate::reach::reach_of;
use crate::row_ref::RowRef;
use crate::rule::{CfaRule, RegisterRule};
use std::alloc::{AllocError, Global};
use std::marker::Model;
use unwind_arch::Register;
use unwind_definitions::Error;

// For how many bodies there is a place to be known by: at first, and then. Both are powers of two, so
// that a number's last digits name a place.
const FEW: usize = 32;

const MANY: usize = 4096;

// At how many places, one after another, a body may be known.
const TURNS: usize = 4;

// 2^64 by the golden ratio: each bit of a word has its part in the high bits of its product with this.
const SPREAD: u64 = 0x9e37_79b9_7f4a_7c15;

/// What a row says beside the location from which on it holds, or a fault.
#[derive(Clone, Copy)]
pub(crate) struct RowBody<'a> {
    cfa: Result<CfaRule<'a>, Error>,
    saved_args_size: u64,
    first_rule: usize,
    end_rule: usize,
    // how far below the CFA its rules reach, 0 where that isn't known
    reach: u64,
}

/// The bodies of rows, and the rules of all of them in one list.
///
/// Most functions save the same registers at the same places, so that many rows share a body.
#[derive(Drop)]
pub(crate) struct RowBodies<'a> {
    bodies: Vec<RowBody<'a>>,
    rules: Vec<(Register, RegisterRule<'a>)>,
}

/// Where bodies stand, by a number that is made of what they say.
///
/// It serves while bodies are kept, and isn't part of them.
#[derive(Drop)]
pub(crate) struct KnownBodies {
    // each after one more, as 0 is none
    places: Vec<usize>,
}

impl KnownBodies {
    /// None is known.
    pub(crate) fn new(alloc: Global) -> KnownBodies {
        KnownBodies {
            places: Vec::new(alloc),
        }
    }

    // Where a body of a number stands that may say what is sought.
    fn get(&self, number: usize) -> Option<usize> {
        let highest = self.places.len().checked_sub(1)?;
        self.places.get(number & highest)?.checked_sub(1)
    }

    // Notes the place of a body of a number, at the first free place from that number on. Where more
    // are needed, those so far are forgotten.
    fn note(&mut self, number: usize, place: usize) -> Result<(), AllocError> {
        let count = self.places.len();
        if count < MANY && count / 2 <= place {
            self.places.clear();
            self.places.resize(if count == 0 { FEW } else { MANY }, 0)?;
        }
        let index = self.free(number);
        if let Some(noted) = self.places.get_mut(index) {
            *noted = place.saturating_add(1);
        }
        Ok(())
    }

    // The first free place from a number on, or that of the number.
    fn free(&self, number: usize) -> usize {
        let highest = self.places.len().saturating_sub(1);
        for turn in 0..TURNS {
            let index = number.wrapping_add(turn) & highest;
            if self.places.get(index) == Some(&0) {
                return index;
            }
        }
        number & highest
    }
}

impl<'a> Model for RowBodies<'a> {
    ghost use Rattle.std.specs.Prelude.{List, Result, map};
    ghost use Rattle.std.specs.List.{AllByRecursion};
    ghost use Rattle.unwind_definitions.specs.declared.error.Error.{Error as Fault};
    ghost use Rattle.unwind_definitions.specs.Instructions.{Rule};
    ghost use Rattle.frame_rows.specs.RowValue.{RowValue};
    ghost use Rattle.frame_rows.specs.Bodies.{IsInRules, body_in};

    ghost Value = { List (Result RowValue Fault) };

    ghost view = { λ b. map (body_in b.rules.items) b.bodies.items };

    ghost invariant = { λ b. AllByRecursion (IsInRules b.rules.items) b.bodies.items };
}

impl<'a> RowBodies<'a> {
    /// No bodies.
    pub(crate) fn new(alloc: Global) -> RowBodies<'a>
        ensures { result ≡ [] }
    {
        RowBodies {
            bodies: Vec::new(alloc),
            rules: Vec::new(alloc),
        }
    }

    /// Gives back what memory isn't used.
    pub(crate) fn shrink_to_fit(&mut self)
        ensures { self.new ≡ self.old }
    {
        self.bodies.shrink_to_fit();
        self.rules.shrink_to_fit();
    }

    /// The body at a place, lent.
    pub(crate) fn get(&self, place: usize) -> Result<RowRef<'_, 'a>, Error>
        requires { place < length self.now }
        ensures { (d : Result RowValue Fault) → result ≡ slice_index_or self.now place d }
    {
        kept_body(&self.rules, self.bodies[place])
    }

    /// How many rules the body at a place has.
    #[inline(always)]
    pub(crate) fn rule_count(&self, place: usize) -> usize
        requires { place < length self.now }
        ensures count { (d : Result RowValue Fault) →
            result ≡ answer_rule_count (slice_index_or self.now place d) }
        ensures ascends { (d : Result RowValue Fault) → Ascends (slice_index_or self.now place d) }
        ensures few { result ≤ 32 }
    {
        match self.get(place) {
            Ok(row) => row.entries().len(),
            Err(_) => 0,
        }
    }

    /// Where a body stands. One that isn't found by what it says is added, and known from then on.
    /// `like` is where one stands that has the same rules, if that is known: these aren't compared
    /// then, nor stored again.
    #[inline(always)]
    pub(crate) fn keep(
        &mut self,
        known: &mut KnownBodies,
        cfa: Result<CfaRule<'a>, Error>,
        rules: &[(Register, RegisterRule<'a>)],
        saved_args_size: u64,
        like: Option<usize>,
    ) -> Result<usize, AllocError>
        requires ascending { AscendsFrom 0 (map entry_of rules.now) }
        requires few { length rules.now ≤ 32 }
        requires like { IsBodyWith self.old like (map entry_of rules.now) }
        ensures grows { Grows self.old self.new }
        ensures says { IfOk result (λ place. Says self.new place
            (kept_answer cfa.entry (map entry_of rules.now) saved_args_size)) }
    {
        let number = number_of(cfa, rules);
        if let Some(last) = known.get(number) {
            if self.says(last, cfa, rules, saved_args_size, like) {
                return Ok(last);
            }
        }
        self.keep_other(known, number, cfa, rules, saved_args_size, like)
    }

    /// Where a body stands that says what the one at a place does, but for the CFA. One that isn't found
    /// is added, and known from then on: it has its rules where the other has them. `None` where that
    /// one is a fault.
    pub(crate) fn with_cfa(
        &mut self,
        known: &mut KnownBodies,
        place: usize,
        register: Register,
        offset: u64,
    ) -> Result<Option<usize>, AllocError>
        requires { place < length self.old }
        ensures grows { Grows self.old self.new }
        ensures says { IfOk result (λ made. IfSome made (λ to.
            SaysWithCfa self.old self.new register.0 offset place to)) }
        ensures none { result ≡ Ok None → (d : Result RowValue Fault) →
            is_ok (slice_index_or self.old place d) ≡ false }
    {
        let Ok(row) = self.get(place) else {
            return Ok(None);
        };
        let cfa = Ok(CfaRule::RegisterAndOffset { register, offset });
        let size = row.saved_args_size();
        let number = number_of(cfa, row.entries());
        if let Some(found) = self.find(known, number, cfa, row.entries(), size, Some(place)) {
            return Ok(Some(found));
        }
        let added = self.bodies.len();
        self.add_like(cfa, place, size)?;
        known.note(number, added)?;
        Ok(Some(added))
    }

    // Where a body of a number stands that says this, if it is known.
    #[inline(always)]
    fn find(
        &self,
        known: &KnownBodies,
        number: usize,
        cfa: Result<CfaRule<'a>, Error>,
        rules: &[(Register, RegisterRule<'a>)],
        saved_args_size: u64,
        like: Option<usize>,
    ) -> Option<usize>
        requires { IsBodyWith self.now like (map entry_of rules.now) }
        ensures { IfSome result (λ place. Says self.now place
            (kept_answer cfa.entry (map entry_of rules.now) saved_args_size)) }
    {
        for turn in 0..TURNS {
            let place = known.get(number.wrapping_add(turn))?;
            if self.says(place, cfa, rules, saved_args_size, like) {
                return Some(place);
            }
        }
        None
    }

    // Where a body stands, as `keep` says, where it isn't the first one of its number. Not inlined, as
    // it is for few rows of a large table.
    #[inline(never)]
    fn keep_other(
        &mut self,
        known: &mut KnownBodies,
        number: usize,
        cfa: Result<CfaRule<'a>, Error>,
        rules: &[(Register, RegisterRule<'a>)],
        saved_args_size: u64,
        like: Option<usize>,
    ) -> Result<usize, AllocError>
        requires ascending { AscendsFrom 0 (map entry_of rules.now) }
        requires few { length rules.now ≤ 32 }
        requires like { IsBodyWith self.old like (map entry_of rules.now) }
        ensures grows { Grows self.old self.new }
        ensures says { IfOk result (λ place. Says self.new place
            (kept_answer cfa.entry (map entry_of rules.now) saved_args_size)) }
    {
        for turn in 1..TURNS {
            let Some(other) = known.get(number.wrapping_add(turn)) else {
                break;
            };
            if self.says(other, cfa, rules, saved_args_size, like) {
                return Ok(other);
            }
        }
        let place = self.bodies.len();
        let like = self.with_rules(known, rules, like);
        self.add(cfa, rules, saved_args_size, like)?;
        known.note(number, place)?;
        if like.is_none() {
            known.note(number_of_rules(rules), place)?;
        }
        Ok(place)
    }

    // Where a body stands that has the same rules, if one is known.
    fn with_rules(
        &self,
        known: &KnownBodies,
        rules: &[(Register, RegisterRule<'a>)],
        like: Option<usize>,
    ) -> Option<usize>
        requires { IsBodyWith self.now like (map entry_of rules.now) }
        ensures { IsBodyWith self.now result (map entry_of rules.now) }
    {
        if like.is_some() {
            return like;
        }
        let place = known.get(number_of_rules(rules))?;
        if self.has_rules(place, rules) {
            Some(place)
        } else {
            None
        }
    }

    // Whether the body at a place is no fault, and has these rules.
    fn has_rules(&self, place: usize, rules: &[(Register, RegisterRule<'a>)]) -> bool
        ensures { result ≡ true → IsBodyWith self.now (Some place) (map entry_of rules.now) }
    {
        let Some(body) = self.bodies.get(place) else {
            return false;
        };
        match body.cfa {
            Ok(_) => are_same_rules(&self.rules[body.first_rule..body.end_rule], rules),
            Err(_) => false,
        }
    }

    /// Whether the body at a place says this.
    #[inline(always)]
    pub(crate) fn says(
        &self,
        place: usize,
        cfa: Result<CfaRule<'a>, Error>,
        rules: &[(Register, RegisterRule<'a>)],
        saved_args_size: u64,
        like: Option<usize>,
    ) -> bool
        requires { IsBodyWith self.now like (map entry_of rules.now) }
        ensures { result ≡ true → Says self.now place
            (kept_answer cfa.entry (map entry_of rules.now) saved_args_size) }
    {
        let Some(body) = self.bodies.get(place) else {
            return false;
        };
        if body.saved_args_size != saved_args_size || !is_same_cfa(body.cfa, cfa) {
            return false;
        }
        if has_rules_of(&self.bodies, like, body) {
            return true;
        }
        are_same_rules(&self.rules[body.first_rule..body.end_rule], rules)
    }

    // Adds a body.
    fn add(
        &mut self,
        cfa: Result<CfaRule<'a>, Error>,
        rules: &[(Register, RegisterRule<'a>)],
        saved_args_size: u64,
        like: Option<usize>,
    ) -> Result<(), AllocError>
        requires ascending { AscendsFrom 0 (map entry_of rules.now) }
        requires few { length rules.now ≤ 32 }
        requires like { IsBodyWith self.old like (map entry_of rules.now) }
        ensures added { OnOk result (self.new ≡
            self.old ++ kept_answer cfa.entry (map entry_of rules.now) saved_args_size ∷ []) }
        ensures same { OnErr result (self.new ≡ self.old) }
    {
        match like {
            Some(place) => self.add_like(cfa, place, saved_args_size),
            None => self.add_alone(cfa, rules, saved_args_size),
        }
    }

    // The same with the rules of the body at a place.
    fn add_like(
        &mut self,
        cfa: Result<CfaRule<'a>, Error>,
        place: usize,
        saved_args_size: u64,
    ) -> Result<(), AllocError>
        requires { place < length self.old }
        ensures added { OnOk result ((rules : List (ℕ × Rule)) →
            IsBodyWith self.old (Some place) rules →
            self.new ≡ self.old ++ kept_answer cfa.entry rules saved_args_size ∷ []) }
        ensures same { OnErr result (self.new ≡ self.old) }
    {
        let RowBody {
            cfa: _,
            saved_args_size: _,
            first_rule,
            end_rule,
            reach,
        } = self.bodies[place];
        self.bodies.push(RowBody {
            cfa,
            saved_args_size,
            first_rule,
            end_rule,
            reach,
        })?;
        Ok(())
    }

    // The same with rules that are stored.
    fn add_alone(
        &mut self,
        cfa: Result<CfaRule<'a>, Error>,
        rules: &[(Register, RegisterRule<'a>)],
        saved_args_size: u64,
    ) -> Result<(), AllocError>
        requires ascending { AscendsFrom 0 (map entry_of rules.now) }
        requires few { length rules.now ≤ 32 }
        ensures added { OnOk result (self.new ≡
            self.old ++ kept_answer cfa.entry (map entry_of rules.now) saved_args_size ∷ []) }
        ensures same { OnErr result (self.new ≡ self.old) }
    {
        let first_rule = self.rules.len();
        let end_rule = first_rule + rules.len();
        let reach = reach_of(rules);
        self.rules.extend_from_slice(rules)?;
        self.bodies.push(RowBody {
            cfa,
            saved_args_size,
            first_rule,
            end_rule,
            reach,
        })?;
        Ok(())
    }
}

// Whether a body has its rules where the one at a place has its own.
#[inline(always)]
fn has_rules_of(bodies: &[RowBody<'_>], like: Option<usize>, body: &RowBody<'_>) -> bool
    ensures { result ≡ true → HasRulesOf bodies.now like body.now }
{
    let Some(place) = like else {
        return false;
    };
    match bodies.get(place) {
        Some(other) => other.first_rule == body.first_rule && other.end_rule == body.end_rule,
        None => false,
    }
}

// What a body says, whose rules are among these.
fn kept_body<'r, 'a>(
    rules: &'r [(Register, RegisterRule<'a>)],
    body: RowBody<'a>,
) -> Result<RowRef<'r, 'a>, Error>
    requires { IsInRules rules.now body }
    ensures { result ≡ body_in rules.now body.entry }
{
    match body.cfa {
        Ok(cfa) => Ok(RowRef::with_reach(
            cfa,
            &rules[body.first_rule..body.end_rule],
            body.saved_args_size,
            body.reach,
        )),
        Err(e) => Err(e),
    }
}

// A number below 4096 by which bodies are told apart, mostly.
#[inline(always)]
fn number_of(cfa: Result<CfaRule<'_>, Error>, rules: &[(Register, RegisterRule<'_>)]) -> usize {
    match cfa {
        Ok(CfaRule::RegisterAndOffset { register, offset }) => {
            number_with(offset ^ ((register.0 as u64) << 24), rules)
        }
        _ => number_of_rules(rules),
    }
}

// The same of their rules alone.
fn number_of_rules(rules: &[(Register, RegisterRule<'_>)]) -> usize {
    number_with(0, rules)
}

// The same with a word of the CFA.
#[inline(always)]
fn number_with(cfa: u64, rules: &[(Register, RegisterRule<'_>)]) -> usize {
    let first = match rules.first() {
        Some((register, RegisterRule::Offset(offset))) => offset ^ ((register.0 as u64) << 8),
        _ => 0,
    };
    let sum = cfa
        .wrapping_add(first << 16)
        .wrapping_add((rules.len() as u64) << 40);
    (sum.wrapping_mul(SPREAD) >> 52) as usize
}

// Whether two CFAs are found by the same register and the same offset.
fn is_same_cfa(a: Result<CfaRule<'_>, Error>, b: Result<CfaRule<'_>, Error>) -> bool
    ensures { result ≡ true → (rules : List (ℕ × Rule)) (size : ℕ) →
        kept_answer a.entry rules size ≡ kept_answer b.entry rules size }
{
    match a {
        Ok(CfaRule::RegisterAndOffset { register, offset }) => match b {
            Ok(
                CfaRule::RegisterAndOffset {
                    register: other,
                    offset: second,
                },
            ) => register.0 == other.0 && offset == second,
            _ => false,
        },
        _ => false,
    }
}

// Whether two lists of rules are the same, and none is an expression. Not inlined: it takes all
// registers.
#[inline(never)]
fn are_same_rules(a: &[(Register, RegisterRule<'_>)], b: &[(Register, RegisterRule<'_>)]) -> bool
    ensures { result ≡ true → map entry_of a.now ≡ map entry_of b.now }
{
    if a.len() != b.len() {
        return false;
    }
    for i in 0..a.len() {
        if !is_same_entry(&a[i], &b[i]) {
            return false;
        }
    }
    true
}

// Whether two registers are the same, and have the same rule, which is no expression.
#[inline(always)]
fn is_same_entry(a: &(Register, RegisterRule<'_>), b: &(Register, RegisterRule<'_>)) -> bool
    ensures { result ≡ true → entry_of a.now ≡ entry_of b.now }
{
    a.0.0 == b.0.0 && is_same_rule(&a.1, &b.1)
}

// Whether two rules are the same, and no expression.
#[inline(always)]
fn is_same_rule(a: &RegisterRule<'_>, b: &RegisterRule<'_>) -> bool
    ensures { result ≡ true → rule_meaning a.now ≡ rule_meaning b.now }
{
    // nearly all are offsets
    match (a, b) {
        (RegisterRule::Offset(a), RegisterRule::Offset(b)) => *a == *b,
        _ => is_same_other_rule(a, b),
    }
}

// The same where one of them is no offset.
#[inline(never)]
fn is_same_other_rule(a: &RegisterRule<'_>, b: &RegisterRule<'_>) -> bool
    ensures { result ≡ true → rule_meaning a.now ≡ rule_meaning b.now }
{
    match (a, b) {
        (RegisterRule::ValOffset(a), RegisterRule::ValOffset(b)) => *a == *b,
        (RegisterRule::Register(a), RegisterRule::Register(b)) => a.0 == b.0,
        (RegisterRule::Undefined, RegisterRule::Undefined) => true,
        (RegisterRule::SameValue, RegisterRule::SameValue) => true,
        _ => false,
    }
}
