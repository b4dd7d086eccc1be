// Files whose functions are asked.
ghost use Rattle.std.specs.Prelude.{◌≡◌, ℕ, List, Some, IfOk, IfSome, IsErrOf, map, position, slice_get};
ghost use Rattle.std.specs.Option.{option_map};
ghost use Rattle.core_file.specs.MappedViews.{part_of, parts_left};
ghost use Rattle.mapped_files.specs.Files.{AreTold};
ghost use Rattle.mapped_names.specs.Places.{holds_address, index_at, parts_of, place_at_index};
ghost use Rattle.mapped_names.specs.Places.{place_in_part, place_of, place_value};
ghost use Rattle.mapped_names.specs.Reading.{IsFileAt};

use crate::places::{CodePlace, place_in};
use crate::reading::{NamedFile, read_file};
use core_file::{MappedPart, MappedParts};
use mapped_files::{Files, PartError};
use std::alloc::{AllocError, Global};
use std::collections::HashMap;
use std::marker::Model;

/// The files that were mapped, as far as addresses in them were asked.
///
/// Contracts see the files and the parts of them that were mapped.
#[derive(Drop)]
pub struct Naming<'a, F: Files> {
    alloc: Global,
    files: &'a F,
    parts: Vec<MappedPart<'a>>,
    read: HashMap<u64, NamedFile>,
}

impl<'a, F: Files> Model for Naming<'a, F> {
    ghost use Rattle.std.specs.Prelude.{ℕ, List, IfSome, map, nat_eq};
    ghost use Rattle.std.specs.HashMap.{get};
    ghost use Rattle.core_file.specs.MappedViews.{part_of};
    ghost use Rattle.mapped_files.specs.Files.{AreTold};
    ghost use Rattle.mapped_names.specs.Reading.{IsFileAt};
    ghost use Rattle.mapped_names.specs.Places.{NamingValue};

    ghost Value = { NamingValue F };

    ghost view = { λ n. record { files = n.files.now; parts = map part_of n.parts.items } };

    ghost invariant = { λ n. (all : List ℕ → List ℕ) → AreTold (F.content n.files.now) all →
        (index : ℕ) → IfSome (get nat_eq n.read index) (IsFileAt all (map part_of n.parts.items) index) };
}

/// The parts in a list.
fn listed(alloc: Global, parts: MappedParts<'_>) -> Result<Vec<MappedPart<'_>>, AllocError>
    ensures { IfOk result (λ list. map part_of list.items ≡ parts_left parts.entry) }
{
    let mut list = Vec::new(alloc);
    let mut parts = parts;
    while let Some(part) = parts.next() {
        list.push(part)?;
    }
    Ok(list)
}

/// The parts in a list, none where there are none.
fn listed_parts<'a>(
    alloc: Global,
    parts: Option<MappedParts<'a>>,
) -> Result<Vec<MappedPart<'a>>, AllocError>
    ensures { IfOk result (λ list. map part_of list.items ≡
        parts_of (option_map parts_left parts.entry)) }
{
    match parts {
        Some(parts) => listed(alloc, parts),
        None => Ok(Vec::new(alloc)),
    }
}

/// Whether an address lies in a part.
fn holds_address(part: &MappedPart<'_>, address: u64) -> bool
    ensures { result ≡ holds_address address (part_of part.now) }
{
    part.start <= address && address < part.end
}

/// Where the first part stands in which an address lies.
fn first_holder(parts: &[MappedPart<'_>], address: u64) -> Option<usize>
    ensures { result ≡ position (λ part. holds_address address (part_of part)) parts.now }
{
    parts.iter().position(|part| holds_address(part, address))
}

/// The same by what the parts are.
fn index_at(parts: &[MappedPart<'_>], address: u64) -> Option<usize>
    ensures { result ≡ index_at address (map part_of parts.now) }
{
    first_holder(parts, address)
}

/// The part at an index.
fn get_part<'a>(parts: &[MappedPart<'a>], index: usize) -> Option<MappedPart<'a>>
    ensures { result ≡ slice_get parts.now index }
{
    parts.get(index).copied()
}

impl<'a, F: Files> Naming<'a, F> {
    /// The files of these parts, none of which is read yet; no files where there are none.
    ///
    /// # Errors
    ///
    /// `AllocError` where memory ran out.
    pub fn new(
        alloc: Global,
        files: &'a F,
        parts: Option<MappedParts<'a>>,
    ) -> Result<Naming<'a, F>, AllocError>
        ensures { IfOk result (λ naming. naming ≡
            record { files = files.now; parts = parts_of (option_map parts_left parts.entry) }) }
    {
        let parts = listed_parts(alloc, parts)?;
        Ok(Naming {
            alloc,
            files,
            parts,
            read: HashMap::new(alloc),
        })
    }

    /// The part of a number.
    fn part_at(&self, index: usize) -> Option<MappedPart<'a>>
        ensures { option_map part_of result ≡ slice_get self.now.parts index }
    {
        get_part(&self.parts, index)
    }

    /// The file of the part of a number, where it is read.
    fn kept(&self, index: usize) -> Option<&NamedFile>
        ensures { (all : List ℕ → List ℕ) → AreTold (F.content self.now.files) all →
            IfSome result (λ file. IsFileAt all self.now.parts index file.now) }
    {
        self.read.get(&(index as u64))
    }

    /// The file of the part of a number, read.
    fn file_of(&self, index: usize, part: &MappedPart<'a>) -> Result<NamedFile, PartError>
        requires { slice_get self.now.parts index ≡ Some (part_of part.now) }
        ensures told { (all : List ℕ → List ℕ) → AreTold (F.content self.now.files) all →
            IfOk result (IsFileAt all self.now.parts index) }
        ensures fault { IsErrOf result PartError.Fault → F.may_fail self.now.files }
    {
        read_file(self.alloc, self.files, part.path)
    }

    /// Where an address of a part lies whose file isn't read. The file is kept.
    fn place_by_reading(
        &mut self,
        index: usize,
        part: &MappedPart<'a>,
        address: u64,
    ) -> Result<Option<CodePlace<'a>>, PartError>
        requires { slice_get self.old.parts index ≡ Some (part_of part.now) }
        ensures told { (all : List ℕ → List ℕ) → AreTold (F.content self.old.files) all →
            IfOk result (λ place. option_map place_value place ≡
            place_in_part all address (part_of part.now)) }
        ensures fault { IsErrOf result PartError.Fault → F.may_fail self.old.files }
        ensures same { self.new ≡ self.old }
    {
        let file = self.file_of(index, part)?;
        let place = place_in(self.alloc, &file, part, address)?;
        self.read.insert(index as u64, file)?;
        Ok(place)
    }

    /// Where an address of a part lies.
    fn place_in_part(
        &mut self,
        index: usize,
        part: &MappedPart<'a>,
        address: u64,
    ) -> Result<Option<CodePlace<'a>>, PartError>
        requires { slice_get self.old.parts index ≡ Some (part_of part.now) }
        ensures told { (all : List ℕ → List ℕ) → AreTold (F.content self.old.files) all →
            IfOk result (λ place. option_map place_value place ≡
            place_in_part all address (part_of part.now)) }
        ensures fault { IsErrOf result PartError.Fault → F.may_fail self.old.files }
        ensures same { self.new ≡ self.old }
    {
        match self.kept(index) {
            Some(file) => Ok(place_in(self.alloc, file, part, address)?),
            None => self.place_by_reading(index, part, address),
        }
    }

    /// Where an address of the part of a number lies.
    fn place_at_index(
        &mut self,
        index: usize,
        address: u64,
    ) -> Result<Option<CodePlace<'a>>, PartError>
        ensures told { (all : List ℕ → List ℕ) → AreTold (F.content self.old.files) all →
            IfOk result (λ place. option_map place_value place ≡
            place_at_index all self.old.parts address index) }
        ensures fault { IsErrOf result PartError.Fault → F.may_fail self.old.files }
        ensures same { self.new ≡ self.old }
    {
        match self.part_at(index) {
            Some(part) => self.place_in_part(index, &part, address),
            None => Ok(None),
        }
    }

    /// Where an address lies: in the code of which file, and in which of its functions. `None` where it
    /// lies in no file that was mapped, or not in the file's code.
    ///
    /// # Errors
    ///
    /// [`PartError::Fault`] where a read failed, and [`PartError::Memory`] where memory ran out.
    #[tactic(auto, unfolding(crate::specs::Places::place_of))]
    pub fn place_at(&mut self, address: u64) -> Result<Option<CodePlace<'a>>, PartError>
        ensures told { (all : List ℕ → List ℕ) → AreTold (F.content self.old.files) all →
            IfOk result (λ place. option_map place_value place ≡
            place_of all self.old.parts address) }
        ensures fault { IsErrOf result PartError.Fault → F.may_fail self.old.files }
        ensures same { self.new ≡ self.old }
    {
        match self.first_index(address) {
            Some(index) => self.place_at_index(index, address),
            None => Ok(None),
        }
    }

    /// The number of the first part in which an address lies.
    fn first_index(&self, address: u64) -> Option<usize>
        ensures { result ≡ index_at address self.now.parts }
    {
        index_at(&self.parts, address)
    }
}
