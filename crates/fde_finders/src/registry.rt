//! A finder by frame tables that are registered.

ghost use Rattle.std.specs.Prelude.{◌≡◌, ◌+◌, ◌∷◌, ◌==◌, [], true, false, OnErr, OnOk, Ok};
ghost use Rattle.std.specs.Prelude.{Option};
ghost use Rattle.std.specs.Option.{option_map};
ghost use Rattle.fde_finders.specs.FoundViews.{found_fde_of};
ghost use Rattle.fde_finders.specs.InTurn.{FindsAmong};
ghost use Rattle.fde_finders.specs.RegistryCovering.{registry_contains};
ghost use Rattle.encoded_pointers.specs.PointerViews.{bases_of};
ghost use Rattle.fde_finders.specs.Registered.{FindsByObject, FindsListed, FindsRegistered};
ghost use Rattle.fde_finders.specs.Registered.{newest_at, place_at, with_object, without_newest_at};

use crate::find_fde::{FDEFinder, FDESearchResult};
use crate::tables::{relative_to, scan};
use eh_frame::Bases;
use memory_image::{Ledger, MemoryImage, Steps};
use std::alloc::{AllocError, Global};
use std::collections::VecDeque;
use std::marker::Model;

/// A registration.
#[derive(Clone, Copy, Debug, PartialEq, Eq)]
pub struct Object {
    /// The address of the frame table or, where there are several, of the list of their addresses.
    pub begin: u64,
    /// What is relative to the text is relative to.
    pub tbase: u64,
    /// What is relative to the data is relative to.
    pub dbase: u64,
    /// Whether `begin` is the address of a list, which ends at an address 0.
    pub multiple: bool,
}

/// A finder by scans of the frame tables that are registered, the newest registration first.
///
/// A list of tables is scanned in its order, up to an address 0 or one that isn't mapped. Contracts
/// see the list of its objects, the newest first.
///
/// The calls are those of the LSB without the two underscores before their names, and the registry
/// keeps the objects.
#[derive(Drop)]
pub struct Registry {
    objects: VecDeque<Object>,
}

impl Model for Registry {
    ghost use Rattle.std.specs.Prelude.{List};
    ghost use Rattle.fde_finders.specs.declared.registry.Object.{Object};

    ghost Value = { List Object };

    ghost view = { λ r. r.objects.items };
}

impl Registry {
    /// A registry without objects. It takes no memory yet.
    pub fn new(alloc: Global) -> Registry
        ensures { result ≡ [] }
    {
        Registry {
            objects: VecDeque::new(alloc),
        }
    }

    /// Registers the frame table at `begin`, with what is relative to text and data. Nothing is
    /// registered at 0.
    ///
    /// # Errors
    ///
    /// `AllocError` where memory ran out; the registry is then as before.
    pub fn register_frame_info_bases(
        &mut self,
        begin: u64,
        tbase: u64,
        dbase: u64,
    ) -> Result<(), AllocError>
        ensures registered { OnOk result
            (self.new ≡ with_object (record
            { begin = begin; tbase = tbase; dbase = dbase; multiple = false }) self.old) }
        ensures unchanged { OnErr result (self.new ≡ self.old) }
        ensures nothing { begin ≡ 0 → result ≡ Ok tt }
    {
        if begin == 0 {
            return Ok(());
        }
        self.objects.push_front(Object {
            begin,
            tbase,
            dbase,
            multiple: false,
        })?;
        Ok(())
    }

    /// The same with bases 0.
    ///
    /// # Errors
    ///
    /// `AllocError` where memory ran out; the registry is then as before.
    pub fn register_frame_info(&mut self, begin: u64) -> Result<(), AllocError>
        ensures registered { OnOk result
            (self.new ≡ with_object (record
            { begin = begin; tbase = 0; dbase = 0; multiple = false }) self.old) }
        ensures unchanged { OnErr result (self.new ≡ self.old) }
        ensures nothing { begin ≡ 0 → result ≡ Ok tt }
    {
        self.register_frame_info_bases(begin, 0, 0)
    }

    /// The same with bases 0.
    ///
    /// # Errors
    ///
    /// `AllocError` where memory ran out; the registry is then as before.
    pub fn register_frame(&mut self, begin: u64) -> Result<(), AllocError>
        ensures registered { OnOk result
            (self.new ≡ with_object (record
            { begin = begin; tbase = 0; dbase = 0; multiple = false }) self.old) }
        ensures unchanged { OnErr result (self.new ≡ self.old) }
        ensures nothing { begin ≡ 0 → result ≡ Ok tt }
    {
        self.register_frame_info(begin)
    }

    /// Registers the frame tables whose addresses stand in a list at `begin`, at 0 too.
    ///
    /// # Errors
    ///
    /// `AllocError` where memory ran out; the registry is then as before.
    pub fn register_frame_info_table_bases(
        &mut self,
        begin: u64,
        tbase: u64,
        dbase: u64,
    ) -> Result<(), AllocError>
        ensures registered { OnOk result
            (self.new ≡ record { begin = begin; tbase = tbase; dbase = dbase; multiple = true } ∷
            self.old) }
        ensures unchanged { OnErr result (self.new ≡ self.old) }
    {
        self.objects.push_front(Object {
            begin,
            tbase,
            dbase,
            multiple: true,
        })?;
        Ok(())
    }

    /// The same with bases 0.
    ///
    /// # Errors
    ///
    /// `AllocError` where memory ran out; the registry is then as before.
    pub fn register_frame_info_table(&mut self, begin: u64) -> Result<(), AllocError>
        ensures registered { OnOk result
            (self.new ≡ record { begin = begin; tbase = 0; dbase = 0; multiple = true } ∷
            self.old) }
        ensures unchanged { OnErr result (self.new ≡ self.old) }
    {
        self.register_frame_info_table_bases(begin, 0, 0)
    }

    /// The same with bases 0, but for a list at 0, of which nothing is registered.
    ///
    /// # Errors
    ///
    /// `AllocError` where memory ran out; the registry is then as before.
    pub fn register_frame_table(&mut self, begin: u64) -> Result<(), AllocError>
        ensures registered { OnOk result
            (self.new ≡ with_object (record
            { begin = begin; tbase = 0; dbase = 0; multiple = true }) self.old) }
        ensures unchanged { OnErr result (self.new ≡ self.old) }
        ensures nothing { begin ≡ 0 → result ≡ Ok tt }
    {
        if begin == 0 {
            return Ok(());
        }
        self.register_frame_info_table(begin)
    }

    /// Removes the newest registration at `begin`, of a table or of a list. `None` exactly where
    /// there is none, or `begin` is 0.
    pub fn deregister_frame_info_bases(&mut self, begin: u64) -> Option<Object>
        ensures removed { result ≡ newest_at begin self.old }
        ensures others { self.new ≡ without_newest_at begin self.old }
    {
        let place = self.place_of(begin)?;
        self.objects.remove(place)
    }

    // The place of the newest registration at `begin`, which isn't 0.
    fn place_of(&self, begin: u64) -> Option<usize>
        ensures { result ≡ place_at begin self.now }
    {
        if begin == 0 {
            return None;
        }
        self.objects.iter().position(|o| o.begin == begin)
    }

    /// The same.
    pub fn deregister_frame_info(&mut self, begin: u64) -> Option<Object>
        ensures removed { result ≡ newest_at begin self.old }
        ensures others { self.new ≡ without_newest_at begin self.old }
    {
        self.deregister_frame_info_bases(begin)
    }

    /// The same.
    pub fn deregister_frame(&mut self, begin: u64) -> Option<Object>
        ensures removed { result ≡ newest_at begin self.old }
        ensures others { self.new ≡ without_newest_at begin self.old }
    {
        self.deregister_frame_info(begin)
    }
}

impl FDEFinder for Registry {
    ghost finds = { λ objects image pc. FindsAmong (FindsRegistered image pc) objects };

    fn find_fde<'a, L: Ledger>(
        &self,
        image: &MemoryImage<'a>,
        pc: u64,
        steps: &mut Steps<L>,
    ) -> Option<FDESearchResult<'a>> {
        let _ = steps;
        find_among(&self.objects, image, pc)
    }

    ghost contains = { registry_contains };
}

// The description that the first object finds that finds one.
fn find_among<'a>(
    objects: &VecDeque<Object>,
    image: &MemoryImage<'a>,
    pc: u64,
) -> Option<FDESearchResult<'a>>
    ensures { FindsAmong (FindsRegistered image.now pc) objects.now.items
        (option_map found_fde_of result) 0 }
{
    let mut i = 0;
    while i < objects.len() {
        if let Some(found) = find_in_object(objects[i], image, pc) {
            return Some(found);
        }
        i += 1;
    }
    None
}

// The description that an object's frame table, or one of those in its list, has.
fn find_in_object<'a>(
    object: Object,
    image: &MemoryImage<'a>,
    pc: u64,
) -> Option<FDESearchResult<'a>>
    ensures { FindsByObject object.multiple object image.now pc (option_map found_fde_of result) }
{
    let known = relative_to(Some(object.tbase), Some(object.dbase));
    if object.multiple {
        find_listed(object.begin, image, pc, &known)
    } else {
        scan(image, pc, &known, object.begin)
    }
}

// The first description that a table of a list in memory has.
fn find_listed<'a>(
    begin: u64,
    image: &MemoryImage<'a>,
    pc: u64,
    known: &Bases,
) -> Option<FDESearchResult<'a>>
    ensures { FindsListed (bases_of known.now) image.now begin pc (option_map found_fde_of result) }
{
    let mut place = begin;
    loop {
        let table = image.read_u64(place)?;
        if table == 0 {
            return None;
        }
        if let Some(found) = scan(image, pc, known, table) {
            return Some(found);
        }
        place = place.checked_add(8)?;
    }
}
