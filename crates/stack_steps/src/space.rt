// An image of memory, and the modules that lie in it.
ghost use Rattle.std.specs.Prelude.{◌≡◌, ◌≢◌, ◌<◌, [], None, Ok, Some, IfOk, IfSome, IsNone, MatchOption, ◌-◌, ◌≤◌};
ghost use Rattle.std.specs.Prelude.{false, is_some, true};
ghost use Rattle.std.specs.Prelude.{IsOkUnless, OnOk, OnErr, ◌↔◌};
ghost use Rattle.std.specs.List.{Contains};
ghost use Rattle.std.specs.Option.{option_map};
ghost use Rattle.memory_image.specs.Image.{IsLaidOut};
ghost use Rattle.stack_steps.specs.Growing.{all_prepared};
ghost use Rattle.stack_steps.specs.Modules.{module_refusal, lowest_shared, module_at, module_of};
ghost use Rattle.stack_steps.specs.Modules.{modules_in, AreApart, last_below, first_between};
ghost use Rattle.stack_steps.specs.Modules.{with_added, FitsIn, module_of_size, macho_sized};
ghost use Rattle.stack_steps.specs.Modules.{pe_sized, fits, given_refusal, contains};
ghost use Rattle.stack_steps.specs.declared.space.ModuleTables.TheVariants.{Elf};

use crate::prepared::{Left, MOST, are_prepared, keep, table_for, tables_for};
use crate::shared_table::SharedTable;
use fde_finders::{EhFrameFinder, FrameInfo};
use memory_image::MemoryImage;
use std::alloc::{AllocError, Global};
use std::collections::BTreeMap;
use std::marker::Model;

/// A module: its addresses are those from `start` to before `end`.
#[derive(Clone, Copy, Debug, PartialEq, Eq)]
pub struct Module {
    /// Its first address, which is the base of a Mach-O or a PE module.
    pub start: u64,
    /// The address after its last.
    pub end: u64,
    /// Where its tables lie.
    pub tables: ModuleTables,
}

impl Module {
    /// Whether it contains the address.
    fn contains(&self, address: u64) -> bool
        ensures { result ≡ contains self.now address }
    {
        self.start <= address && address < self.end
    }
}

impl EhFrameFinder for Module {
    ghost use Rattle.std.specs.Prelude.{◌≡◌};
    ghost use Rattle.stack_steps.specs.Modules.{frame_for};

    ghost names = { λ m pc info. info ≡ frame_for m pc };

    /// The frame tables of an ELF module, for each of its addresses. A module of another format
    /// names none.
    fn find(&self, pc: u64) -> Option<FrameInfo> {
        if !self.contains(pc) {
            return None;
        }
        match self.tables {
            ModuleTables::Elf(frame) => Some(frame),
            ModuleTables::Macho(_) | ModuleTables::Pe(_) => None,
        }
    }
}

/// Where the tables of a module lie, by its format.
#[derive(Clone, Copy, Debug, PartialEq, Eq)]
pub enum ModuleTables {
    /// An ELF module, by its frame table or the header of one.
    Elf(FrameInfo),
    /// A Mach-O module, by its section of compact unwinding.
    Macho(MachoTables),
    /// A PE module, by its function table.
    Pe(PeTables),
}

impl ModuleTables {
    /// Whether a module with such tables may have so many bytes: a Mach-O or a PE module has fewer
    /// than 2^32.
    pub fn fits(&self, size: u64) -> bool
        ensures fits { result ≡ fits self.now size }
        ensures within { result ≡ true → FitsIn self.now size }
    {
        match self {
            ModuleTables::Elf(_) => true,
            ModuleTables::Macho(_) | ModuleTables::Pe(_) => size < 0x1_0000_0000,
        }
    }
}

/// Where the tables of a Mach-O module lie.
#[derive(Clone, Copy, Debug, PartialEq, Eq)]
pub struct MachoTables {
    /// Where its section of compact unwinding begins.
    pub unwind_info: u64,
    /// Where its frame data begins, which opcodes may point to, where there is some.
    pub frames: Option<u64>,
}

/// Where the tables of a PE module lie.
#[derive(Clone, Copy, Debug, PartialEq, Eq)]
pub struct PeTables {
    /// Where its function table begins, relative to the base.
    pub table_rva: u32,
    /// How many bytes the function table has.
    pub table_size: u32,
}

/// What a module is beside its start.
#[derive(Clone, Copy, Debug, Drop)]
struct ModuleEntry {
    end: u64,
    tables: ModuleTables,
    // in the order of adding
    place: usize,
}

/// A module that was added, and its frame table with an index, where it is prepared.
#[derive(Drop)]
pub struct AddedModule<'a> {
    pub(crate) holder: Module,
    pub(crate) table: Option<SharedTable<'a>>,
}

impl<'a> AddedModule<'a> {
    /// Whether it has an index.
    #[inline(always)]
    pub fn is_prepared(&self) -> bool
        ensures { result ≡ is_some self.now.table }
    {
        self.table.is_some()
    }
}

/// Why a module isn't taken.
#[derive(Clone, Copy, Debug, PartialEq, Eq, thiserror::Error)]
pub enum SpaceError {
    /// Its range is empty or reversed.
    #[error("the module's range is empty or reversed")]
    Wraps,
    /// It shares an address with earlier modules, the lowest of which starts here.
    #[error("the module shares an address with the one that starts at {0:#x}")]
    Overlap(u64),
    /// Memory ran out.
    #[error("out of memory")]
    NoMemory,
}

/// An image of memory and the modules that lie in it, no two of which share an address.
///
/// A module is prepared where its frame table has an index, which [`Space::prepare`] makes. Steps,
/// walks and deliveries answer the same with it and without.
///
/// Contracts see the image, the modules by ascending start, and the modules in the order in which
/// they were added, with their indexes.
#[derive(Drop)]
pub struct Space<'a> {
    image: MemoryImage<'a>,
    // by start
    modules: BTreeMap<u64, ModuleEntry>,
    // in the order of adding
    added: Vec<AddedModule<'a>>,
    left: Left,
    alloc: Global,
}

impl<'a> Model for Space<'a> {
    ghost use Rattle.std.specs.Prelude.{map};
    ghost use Rattle.stack_steps.specs.AddedModule.{IsSpace, added_of};
    ghost use Rattle.stack_steps.specs.Modules.{SpaceValue, modules_in};

    ghost Value = { SpaceValue };

    ghost view = { λ s. record {
      image = s.image;
      modules = modules_in s.modules.entries;
      added = map added_of s.added.items;
    } };

    ghost invariant = { λ s. IsSpace s.image s.modules.entries s.added.items s.left };
}

impl<'a> Space<'a> {
    ghost use Rattle.stack_steps.specs.AddedModule.{IsAddedModule, added_of, holder_of};
    ghost use Rattle.std.specs.List.{AllByRecursion};
    ghost use Rattle.stack_steps.specs.Preparing.{HoldsAt, IsAddedTo, Prepares, PreparesAt, PreparesNoneAt};
    ghost use Rattle.stack_steps.specs.Preparing.{index_at, prepared_len};

    /// A space without modules. It takes no memory yet.
    pub fn new(alloc: Global, image: MemoryImage<'a>) -> Space<'a>
        ensures { result ≡ record { image = image.entry; modules = []; added = [] } }
    {
        image.laid_out();
        Space {
            image,
            modules: BTreeMap::new(alloc),
            added: Vec::new(alloc),
            left: MOST,
            alloc,
        }
    }

    /// Adds an ELF module with the addresses from `start` to before `end`.
    ///
    /// # Errors
    ///
    /// In this order: `Wraps` where the range is empty or reversed, `Overlap` with the lowest start
    /// of an earlier module that shares an address, `NoMemory`. The space is then as before.
    pub fn add_elf(&mut self, start: u64, end: u64, frame: FrameInfo) -> Result<(), SpaceError>
        ensures refused { MatchOption
            (module_refusal self.old.modules
            (record { start = start; end = end; tables = Elf frame }))
            (IsOkUnless result SpaceError.NoMemory) (λ error. result ≡ Err error) }
        ensures added { OnOk result
            (self.new ≡ with_added (record { start = start; end = end; tables = Elf frame })
            self.old) }
        ensures unchanged { OnErr result (self.new ≡ self.old) }
    {
        self.add(start, end, ModuleTables::Elf(frame))
    }

    /// Adds a Mach-O module of `size` bytes, which begins at `base`: its section of compact
    /// unwinding begins at `unwind_info`, and the frame data that opcodes may point to at
    /// `eh_frame`, where there is some.
    ///
    /// # Errors
    ///
    /// In this order: `Wraps` where the module is empty or ends past the highest address,
    /// `Overlap` with the lowest start of an earlier module that shares an address, `NoMemory`. The
    /// space is then as before.
    pub fn add_macho(
        &mut self,
        base: u64,
        size: u32,
        unwind_info: u64,
        eh_frame: Option<u64>,
    ) -> Result<(), SpaceError>
        ensures refused { MatchOption
            (module_refusal self.old.modules (macho_sized base size unwind_info eh_frame))
            (IsOkUnless result SpaceError.NoMemory) (λ error. result ≡ Err error) }
        ensures added { OnOk result
            (self.new ≡ with_added (macho_sized base size unwind_info eh_frame) self.old) }
        ensures unchanged { OnErr result (self.new ≡ self.old) }
    {
        let tables = ModuleTables::Macho(MachoTables {
            unwind_info,
            frames: eh_frame,
        });
        self.add_sized(base, size, tables)
    }

    /// Adds a PE module of `size` bytes, which begins at `base`: its function table has
    /// `pdata_size` bytes, and begins so far from the base as `pdata_rva` says.
    ///
    /// # Errors
    ///
    /// Those of [`Space::add_macho`].
    pub fn add_pe(
        &mut self,
        base: u64,
        size: u32,
        pdata_rva: u32,
        pdata_size: u32,
    ) -> Result<(), SpaceError>
        ensures refused { MatchOption
            (module_refusal self.old.modules (pe_sized base size pdata_rva pdata_size))
            (IsOkUnless result SpaceError.NoMemory) (λ error. result ≡ Err error) }
        ensures added { OnOk result
            (self.new ≡ with_added (pe_sized base size pdata_rva pdata_size) self.old) }
        ensures unchanged { OnErr result (self.new ≡ self.old) }
    {
        let tables = ModuleTables::Pe(PeTables {
            table_rva: pdata_rva,
            table_size: pdata_size,
        });
        self.add_sized(base, size, tables)
    }

    /// Adds a module of any format.
    ///
    /// # Errors
    ///
    /// In this order: `Wraps` where a Mach-O or a PE module has 2^32 bytes or more, or the module's
    /// range is empty or reversed, `Overlap` with the lowest start of an earlier module that shares
    /// an address, `NoMemory`. The space is then as before.
    pub fn add_module(&mut self, module: Module) -> Result<(), SpaceError>
        ensures refused { MatchOption (given_refusal self.old.modules «module»)
            (IsOkUnless result SpaceError.NoMemory) (λ error. result ≡ Err error) }
        ensures added { OnOk result (self.new ≡ with_added «module» self.old) }
        ensures unchanged { OnErr result (self.new ≡ self.old) }
    {
        let Module { start, end, tables } = module;
        if !tables.fits(end.saturating_sub(start)) {
            return Err(SpaceError::Wraps);
        }
        self.add(start, end, tables)
    }

    /// Adds a module that is given by its size.
    fn add_sized(&mut self, base: u64, size: u32, tables: ModuleTables) -> Result<(), SpaceError>
        ensures refused { MatchOption
            (module_refusal self.old.modules (module_of_size base size tables))
            (IsOkUnless result SpaceError.NoMemory) (λ error. result ≡ Err error) }
        ensures added { OnOk result (self.new ≡ with_added (module_of_size base size tables) self.old) }
        ensures unchanged { OnErr result (self.new ≡ self.old) }
    {
        match base.checked_add(u64::from(size)) {
            Some(end) => self.add(base, end, tables),
            None => Err(SpaceError::Wraps),
        }
    }

    /// Adds a module with the addresses from `start` to before `end`.
    fn add(&mut self, start: u64, end: u64, tables: ModuleTables) -> Result<(), SpaceError>
        requires placed { FitsIn tables (end - start) }
        ensures refused { MatchOption
            (module_refusal self.old.modules
            (record { start = start; end = end; tables = tables }))
            (IsOkUnless result SpaceError.NoMemory) (λ error. result ≡ Err error) }
        ensures added { OnOk result
            (self.new ≡ with_added (record { start = start; end = end; tables = tables })
            self.old) }
        ensures unchanged { OnErr result (self.new ≡ self.old) }
    {
        if end <= start {
            return Err(SpaceError::Wraps);
        }
        if let Some(shared) = lowest_shared(&self.modules, start, end) {
            return Err(SpaceError::Overlap(shared));
        }
        if self.added.reserve(1).is_err() {
            return Err(SpaceError::NoMemory);
        }
        let place = self.added.len();
        match self
            .modules
            .insert(start, ModuleEntry { end, tables, place })
        {
            Ok(_) => {
                self.added.push_reserved(AddedModule {
                    holder: Module { start, end, tables },
                    table: None,
                });
                Ok(())
            }
            Err(_) => Err(SpaceError::NoMemory),
        }
    }

    /// Makes indexes of the frame tables of modules, so that each look-up is a search and no program
    /// is run: in the order of adding, of each module that isn't prepared yet and that can be. It
    /// answers how many modules this call prepared.
    ///
    /// An ELF module can be prepared where
    ///
    /// - it names its frame table itself; or by a header that can be read, whose frame table's
    ///   address is mapped, and whose table lists exactly the descriptions whose ranges aren't
    ///   empty, by ascending start;
    /// - and the frame table has an index: each entry can be read, no two ranges share an address,
    ///   and one holds a byte;
    /// - and the index keeps no more than what the others have left of 1,048,576 rows and 4,194,304
    ///   rules of registers in the whole space.
    ///
    /// Each frame table is read once, and a program is begun at most twice for a description, as
    /// [`Prepared::build`](eh_frame::Prepared::build) says. Modules that name the same tables one after
    /// another share one index, of which each keeps as much.
    ///
    /// # Errors
    ///
    /// `AllocError` where memory ran out. The space is then as before.
    pub fn prepare(&mut self) -> Result<u32, AllocError>
        ensures prepares { IfOk result (λ count. Prepares self.old count self.new) }
        ensures unchanged { OnErr result (self.new ≡ self.old) }
    {
        let (made, left) = tables_for(self.alloc, &self.image, &self.added, self.left)?;
        let count = keep(&mut self.added, made);
        self.left = left;
        Ok(count)
    }

    /// Makes an index of the frame table of the module that contains the address, as [`Space::prepare`]
    /// does of all, where it isn't prepared yet and can be. It answers whether this call prepared it.
    ///
    /// # Errors
    ///
    /// `AllocError` where memory ran out. The space is then as before.
    pub fn prepare_at(&mut self, address: u64) -> Result<bool, AllocError>
        ensures prepares { result ≡ Ok true → PreparesAt self.old address self.new }
        ensures none { result ≡ Ok false → PreparesNoneAt self.old address }
        ensures unchanged { (result ≢ Ok true) → self.new ≡ self.old }
    {
        let Some(place) = self.place_at(address) else {
            return Ok(false);
        };
        let added_module = &self.added[place];
        let table = table_for(self.alloc, &self.image, added_module, self.left, &mut None)?;
        let Some(shared) = table else {
            return Ok(false);
        };
        self.left = self.left.after(&shared.table().index);
        self.added[place].table = Some(shared);
        Ok(true)
    }

    /// The place in the order of adding of the module that contains the address.
    fn place_at(&self, address: u64) -> Option<usize>
        ensures holds { IfSome result (λ place. HoldsAt self.now address place) }
        ensures none { IsNone result → module_at self.now.modules address ≡ None }
    {
        match last_below(&self.modules, address) {
            Some((_, module_entry)) => {
                if address < module_entry.end {
                    Some(module_entry.place)
                } else {
                    None
                }
            }
            None => None,
        }
    }

    /// How many descriptions the index of the module has that holds the address. 0 exactly where no
    /// prepared module holds it.
    pub fn prepared_len(&self, address: u64) -> u64
        ensures len { result ≡ prepared_len self.now address }
        ensures none { (result ≡ 0) ↔ (index_at self.now.added address ≡ None) }
    {
        match self.added_at(address) {
            Some(added_module) => match &added_module.table {
                Some(shared) => shared.table().index.len(),
                None => 0,
            },
            None => 0,
        }
    }

    /// Whether each module is prepared. It costs a look at each.
    pub fn is_prepared(&self) -> bool
        ensures { result ≡ all_prepared self.now.added }
    {
        are_prepared(&self.added)
    }

    /// The module that contains the address.
    pub fn module_at(&self, address: u64) -> Option<Module>
        ensures { result ≡ module_at self.now.modules address }
    {
        match self.added_at(address) {
            Some(added_module) => Some(added_module.holder),
            None => None,
        }
    }

    /// The module that contains the address, with its table, where it is prepared.
    pub(crate) fn added_at(&self, address: u64) -> Option<&AddedModule<'a>>
        ensures module { option_map (λ added_module. holder_of added_module.now) result ≡
            module_at self.now.modules address }
        ensures index { MatchOption result (index_at self.now.added address ≡ None)
            (λ added_module. index_at self.now.added address ≡ (added_of added_module.now).index) }
        ensures table { IfSome result (λ added_module. IsAddedModule self.now.image added_module.now) }
        ensures within { IfSome result (λ added_module. (added_module.now.holder.start ≤ address) ×
            (address < added_module.now.holder.end)) }
    {
        self.added_near(address, &mut 0)
    }

    /// The same. The module at the place `near` in the order of adding is tried first, and the place
    /// becomes that of the module that is found by a search.
    pub(crate) fn added_near(&self, address: u64, near: &mut usize) -> Option<&AddedModule<'a>>
        ensures module { option_map (λ added_module. holder_of added_module.now) result ≡
            module_at self.now.modules address }
        ensures index { MatchOption result (index_at self.now.added address ≡ None)
            (λ added_module. index_at self.now.added address ≡ (added_of added_module.now).index) }
        ensures table { IfSome result (λ added_module. IsAddedModule self.now.image added_module.now) }
        ensures within { IfSome result (λ added_module. (added_module.now.holder.start ≤ address) ×
            (address < added_module.now.holder.end)) }
    {
        match self.added_there(address, *near) {
            Some(added_module) => Some(added_module),
            None => self.added_far(address, near),
        }
    }

    /// The same by a search. Not inlined, as a function clears the places of its locals whenever it is
    /// called, and most frames lie in the module of the frame before.
    #[inline(never)]
    fn added_far(&self, address: u64, near: &mut usize) -> Option<&AddedModule<'a>>
        ensures module { option_map (λ added_module. holder_of added_module.now) result ≡
            module_at self.now.modules address }
        ensures index { MatchOption result (index_at self.now.added address ≡ None)
            (λ added_module. index_at self.now.added address ≡ (added_of added_module.now).index) }
        ensures table { IfSome result (λ added_module. IsAddedModule self.now.image added_module.now) }
        ensures within { IfSome result (λ added_module. (added_module.now.holder.start ≤ address) ×
            (address < added_module.now.holder.end)) }
    {
        match last_below(&self.modules, address) {
            Some((_, module_entry)) => {
                if address < module_entry.end {
                    *near = module_entry.place;
                    Some(&self.added[module_entry.place])
                } else {
                    None
                }
            }
            None => None,
        }
    }

    /// The module at a place in the order of adding, if there is one and it contains the address.
    fn added_there(&self, address: u64, place: usize) -> Option<&AddedModule<'a>>
        ensures module { IfSome result (λ added_module.
            module_at self.now.modules address ≡ Some (holder_of added_module.now)) }
        ensures index { IfSome result (λ added_module.
            index_at self.now.added address ≡ (added_of added_module.now).index) }
        ensures table { IfSome result (λ added_module. IsAddedModule self.now.image added_module.now) }
        ensures within { IfSome result (λ added_module. (added_module.now.holder.start ≤ address) ×
            (address < added_module.now.holder.end)) }
    {
        if place >= self.added.len() {
            return None;
        }
        let added_module = &self.added[place];
        if added_module.holder.contains(address) {
            Some(added_module)
        } else {
            None
        }
    }

    /// The memory that the modules lie in.
    pub fn image(&self) -> &MemoryImage<'a>
        ensures image { result.now ≡ self.now.image }
        ensures apart { AreApart 0 self.now.modules }
        ensures laid_out { IsLaidOut 0 self.now.image }
        ensures added { AllByRecursion (IsAddedTo self.now) self.now.added }
    {
        &self.image
    }
}

/// The last module that starts at or below the address.
fn last_below(modules: &BTreeMap<u64, ModuleEntry>, address: u64) -> Option<(u64, ModuleEntry)>
    ensures last { option_map module_of result ≡ last_below (modules_in modules.now.entries)
        address }
    ensures stands { IfSome result (λ entry. Contains modules.now.entries entry) }
{
    match modules.range(..=address).next_back() {
        Some((start, module_entry)) => Some((*start, *module_entry)),
        None => None,
    }
}

/// The start of the first module that starts from `start` to before `end`.
fn first_between(modules: &BTreeMap<u64, ModuleEntry>, start: u64, end: u64) -> Option<u64>
    requires { start < end }
    ensures { result ≡ first_between (modules_in modules.now.entries) start end }
{
    match modules.range(start..end).next() {
        Some((first, _)) => Some(*first),
        None => None,
    }
}

/// The lowest start of a module that has an address from `start` to before `end`.
fn lowest_shared(modules: &BTreeMap<u64, ModuleEntry>, start: u64, end: u64) -> Option<u64>
    requires apart { AreApart 0 (modules_in modules.now.entries) }
    requires some { start < end }
    ensures { result ≡ lowest_shared (modules_in modules.now.entries) start end }
{
    if let Some((first, module_entry)) = last_below(modules, start) {
        if start < module_entry.end {
            return Some(first);
        }
    }
    first_between(modules, start, end)
}
