// The function table.
ghost use Rattle.std.specs.Prelude.{◌≡◌, ◌≤◌, ◌/◌, ℕ, List, Option, Some, None, length, IfSome};
ghost use Rattle.std.specs.Prelude.{Contains};
ghost use Rattle.pe_unwind_info.specs.FunctionTable.{table_bytes, functions_of, IsLookup};
ghost use Rattle.pe_unwind_info.specs.FunctionTable.{lookup_of, AreOrdered, Holds};
ghost use Rattle.pe_unwind_info.specs.Search.{IsAscending};
ghost use Rattle.pe_unwind_info.specs.TableSample as two;
ghost use Rattle.pe_unwind_info.specs.declared.x86_64.function_table.RuntimeFunction.{RuntimeFunction};

use crate::x86_64::little_endian::u32_at;
use crate::x86_64::search::boundary;
use memory_image::{Keyed, Record, Records};

/// An address relative to the base of an image.
pub type U32 = u32;

/// A record of the function table: the code from `begin_address` up to `end_address`, and where
/// its unwind record stands. All three are relative to the base of the image.
#[derive(Clone, Copy, Debug)]
pub struct RuntimeFunction {
    /// Where the function begins.
    pub begin_address: U32,
    /// The first address after the function.
    pub end_address: U32,
    /// Where its unwind record stands.
    pub unwind_info_address: U32,
}

impl Record for RuntimeFunction {
    ghost use Rattle.pe_unwind_info.specs.FunctionTable.{runtime_function_of};
    ghost use Rattle.pe_unwind_info.specs.RuntimeFunctionBytes.{runtime_function_keeps_all};
    ghost use Rattle.std.proofs.Common.{lit≤};

    const SIZE: usize = 12;

    ghost SIZE = { 12 };

    ghost value_of = { runtime_function_of };

    fn read(bytes: &[u8]) -> RuntimeFunction {
        RuntimeFunction {
            begin_address: u32_at(bytes, 0),
            end_address: u32_at(bytes, 4),
            unwind_info_address: u32_at(bytes, 8),
        }
    }

    ghost has_size = { lit≤ tt };

    ghost keeps_all = { runtime_function_keeps_all };
}

impl Keyed for RuntimeFunction {
    ghost key = { λ f. f.begin_address };

    fn read_key(bytes: &[u8]) -> u32 {
        u32_at(bytes, 0)
    }
}

/// In a table that ascends by where its functions begin, a look-up has one answer: of the records
/// that begin at or below the address, the last.
pub fn lookup_is_determined()
    ensures { (functions : List RuntimeFunction) (address : ℕ) (a b : Option RuntimeFunction)
        → IsAscending (λ (f : RuntimeFunction). f.begin_address) functions
        → IsLookup (Some functions) address a
        → IsLookup (Some functions) address b
        → a ≡ b }
{}

/// A table of two functions is in order, and a look-up of an address in the second answers its
/// record.
pub fn table_of_two_is_in_order()
    ensures ascends { IsAscending (λ (f : RuntimeFunction). f.begin_address) two.functions }
    ensures ordered { AreOrdered 0 0x2000 two.functions }
    ensures answer { IsLookup (Some two.functions) 0x1024 (Some two.second) }
{}

/// In a table whose functions are nonempty, ascend and share no address, a look-up answers the
/// record that holds the address, and none where none does.
pub fn lookup_finds_the_holder()
    ensures found { (functions : List RuntimeFunction) (low high address : ℕ)
        (function : RuntimeFunction)
        → AreOrdered low high functions
        → Contains functions function
        → Holds function address
        → lookup_of (Some functions) address ≡ Some function }
    ensures none { (functions : List RuntimeFunction) (low high address : ℕ)
        → AreOrdered low high functions
        → ((function : RuntimeFunction) → Contains functions function → Holds function address → ⊥)
        → lookup_of (Some functions) address ≡ None }
{}

/// What a search by halving answers is a look-up's answer.
pub fn lookup_of_is_a_lookup()
    ensures { (functions : Option (List RuntimeFunction)) (address : ℕ)
        → IsLookup functions address (lookup_of functions address) }
{}

/// A view of the function table, the contents of the section `.pdata`: records of 12 bytes that
/// ascend by where their functions begin. As an iterator it gives each whole record.
#[derive(Clone, Copy, Debug)]
pub struct FunctionTableEntries<'a> {
    bytes: &'a [u8],
}

impl<'a> FunctionTableEntries<'a> {
    /// The table in these bytes, whatever they are.
    pub fn parse(bytes: &'a [u8]) -> FunctionTableEntries<'a>
        ensures { table_bytes result ≡ bytes.now }
    {
        FunctionTableEntries { bytes }
    }

    /// How many whole records there are.
    pub fn functions_len(&self) -> usize
        ensures { result ≡ length (table_bytes self.now) / 12 }
    {
        self.bytes.len() / RuntimeFunction::SIZE
    }

    /// The records; `None` exactly where the bytes aren't whole records.
    pub fn functions(&self) -> Option<Records<'a, RuntimeFunction>>
        ensures { result ≡ functions_of (table_bytes self.now) }
    {
        if self.bytes.len() % RuntimeFunction::SIZE == 0 {
            Records::over(self.bytes, 0, self.functions_len())
        } else {
            None
        }
    }

    /// The record of the function at a relative virtual address: the last one that begins at or
    /// below it, if it begins there or ends above it. `None` where there is none such, and where
    /// the bytes aren't whole records. In a table out of order any record that begins at or below
    /// the address, and whose successor begins above it, counts as the last one; the search halves,
    /// and always answers the same.
    #[tactic(auto, unfolding(crate::specs::FunctionTable::lookup_of))]
    pub fn lookup(&self, address: u32) -> Option<RuntimeFunction>
        ensures lookup { IsLookup (functions_of (table_bytes self.now)) address result }
        ensures repeats { result ≡ lookup_of (functions_of (table_bytes self.now)) address }
        ensures begun { IfSome result (λ function. function.begin_address ≤ address) }
    {
        let function = boundary(&self.functions()?, address)?;
        if function.begin_address == address || address < function.end_address {
            Some(function)
        } else {
            None
        }
    }
}

impl<'a> Iterator for FunctionTableEntries<'a> {
    ghost use Rattle.std.specs.Iterator.{YieldsFirst, item_count};
    ghost use Rattle.pe_unwind_info.specs.FunctionTable.{table_bytes, whole_functions};

    type Item = RuntimeFunction;

    ghost next_gives = { YieldsFirst (λ s. whole_functions (table_bytes s)) };

    ghost remaining = { item_count (λ s. whole_functions (table_bytes s)) };

    fn next(&mut self) -> Option<RuntimeFunction> {
        if self.bytes.len() < RuntimeFunction::SIZE {
            return None;
        }
        let function = RuntimeFunction::read(self.bytes);
        self.bytes = &self.bytes[RuntimeFunction::SIZE..];
        Some(function)
    }
}
