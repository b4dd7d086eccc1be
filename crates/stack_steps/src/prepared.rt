// Frame tables of modules with their indexes.
ghost use Rattle.std.specs.Prelude.{◌≡◌, ◌<◌, ◌≤◌, ◌^◌, IfOk, false, is_some, length, map, true};
ghost use Rattle.std.specs.List.{count_by};
ghost use Rattle.fde_finders.specs.FoundViews.{found_fde_of};
ghost use Rattle.fde_finders.specs.NamedTables.{named_of};
ghost use Rattle.stack_steps.specs.FrameViews.{prepared_fde};
ghost use Rattle.stack_steps.specs.Growing.{all_prepared};
ghost use Rattle.stack_steps.specs.AddedModule.{added_of, AreMade, IsTried, LeavesAfter, LeavesBy, MakesTable};
ghost use Rattle.stack_steps.specs.AddedModule.{PreparesTable, with_tables};
ghost use Rattle.stack_steps.specs.Preparing.{Lists, fdes_in};

use crate::shared_table::{SharedTable, Tried, shared_table};
use crate::space::{AddedModule, ModuleTables};
use eh_frame::{Bases, EhFrame, Prepared, PreparedFrame};
use fde_finders::{FDESearchResult, FrameInfo, FrameInfoKind, NamedTable, named_table};
use memory_image::MemoryImage;
use std::alloc::{AllocError, Global};

/// How many more rows, and rules of registers, the indexes of a space may keep.
#[derive(Clone, Copy)]
pub(crate) struct Left {
    pub(crate) rows: u32,
    pub(crate) rules: u32,
}

/// What the indexes of an unprepared space may keep: about 200 MB.
pub(crate) const MOST: Left = Left {
    rows: 1_048_576,
    rules: 4_194_304,
};

impl Left {
    /// What is left after an index.
    pub(crate) fn after(self, index: &Prepared<'_>) -> Left
        requires rows { index.now.row_count ≤ self.rows }
        requires rules { index.now.rule_count ≤ self.rules }
        ensures { LeavesBy self index.now result }
    {
        Left {
            rows: self.rows - index.rows_len(),
            rules: self.rules - index.rules_len(),
        }
    }
}

/// A frame table with its index.
#[derive(Drop)]
pub struct PreparedTable<'a> {
    /// The index, by which descriptions and their rows are found.
    pub index: Prepared<'a>,
    /// The table.
    pub frames: EhFrame<'a>,
    /// What the pointers of its descriptions may be relative to.
    pub bases: Bases,
}

impl<'a> PreparedTable<'a> {
    /// The frame table that a module names, with an index that keeps no more than is left. `None`
    /// where there is no such index, or a header that the module names doesn't list what it holds.
    ///
    /// # Errors
    ///
    /// Where memory runs out.
    pub(crate) fn build(
        alloc: Global,
        image: &MemoryImage<'a>,
        tables: FrameInfo,
        left: Left,
    ) -> Result<Option<PreparedTable<'a>>, AllocError>
        ensures { IfOk result (λ table. PreparesTable image.now tables left table) }
    {
        let Some(named) = named_table(image, tables) else {
            return Ok(None);
        };
        let built = Prepared::build(alloc, &named.frames, &named.bases, left.rows, left.rules)?;
        let Some(index) = built else {
            return Ok(None);
        };
        if !lists(tables.kind, &named, &index) {
            return Ok(None);
        }
        Ok(Some(PreparedTable {
            index,
            frames: named.frames,
            bases: named.bases,
        }))
    }
}

impl<'a> PreparedTable<'a> {
    /// What a search of the table answers, where its index finds a frame.
    #[inline(always)]
    pub(crate) fn search_result(&self, frame: &PreparedFrame<'_, 'a>) -> FDESearchResult<'a>
        ensures { found_fde_of result ≡ prepared_fde self.now frame.now.fde }
    {
        FDESearchResult {
            fde: frame.fde(),
            bases: self.bases,
            eh_frame: self.frames,
        }
    }
}

/// Whether a header that a module names lists exactly the descriptions of an index, by ascending
/// start.
fn lists(kind: FrameInfoKind, named: &NamedTable<'_>, index: &Prepared<'_>) -> bool
    ensures listed { result ≡ true → Lists kind (named_of named.now) (fdes_in index.now) }
    ensures unlisted { result ≡ false → ¬ Lists kind (named_of named.now) (fdes_in index.now) }
{
    match kind {
        FrameInfoKind::EhFrame(_) => true,
        FrameInfoKind::EhFrameHdr(_) => match &named.pairs {
            Some(pairs) => index.is_listed_by(pairs, &named.frames),
            None => false,
        },
    }
}

/// The table of a module that isn't prepared yet, with an index that keeps no more than is left.
/// `tried` is what was made for the last module that was tried, and becomes what is made for this.
///
/// # Errors
///
/// Where memory runs out.
pub(crate) fn table_for<'a>(
    alloc: Global,
    image: &MemoryImage<'a>,
    added_module: &AddedModule<'a>,
    left: Left,
    tried: &mut Option<Tried<'a>>,
) -> Result<Option<SharedTable<'a>>, AllocError>
    requires { IsTried image.now left tried.old }
    ensures made { IfOk result (λ table. MakesTable image.now left added_module.now table) }
    ensures tried { IfOk result (λ table. LeavesAfter (IsTried image.now) left table tried.new) }
{
    if added_module.table.is_some() {
        return Ok(None);
    }
    match added_module.holder.tables {
        ModuleTables::Elf(tables) => shared_table(alloc, image, tables, left, tried),
        ModuleTables::Macho(_) | ModuleTables::Pe(_) => Ok(None),
    }
}

/// The tables of the modules that aren't prepared yet and that can be, one after another, and what
/// is left after them. Modules that name the same tables one after another share one.
///
/// # Errors
///
/// Where memory runs out.
pub(crate) fn tables_for<'a>(
    alloc: Global,
    image: &MemoryImage<'a>,
    added: &[AddedModule<'a>],
    most: Left,
) -> Result<(Vec<Option<SharedTable<'a>>>, Left), AllocError>
    ensures { IfOk result (λ r. AreMade image.now most added.now r.0.items r.1) }
{
    let mut left = most;
    let mut tried = None;
    let mut made = Vec::new(alloc);
    for added_module in added {
        let table = table_for(alloc, image, added_module, left, &mut tried)?;
        if let Some(shared) = &table {
            left = left.after(&shared.table().index);
        }
        made.push(table)?;
    }
    Ok((made, left))
}

/// Keeps the tables that were made for modules. It answers how many these are.
pub(crate) fn keep<'a>(added: &mut [AddedModule<'a>], made: Vec<Option<SharedTable<'a>>>) -> u32
    requires each { length made.items ≡ length added.old }
    requires few { count_by is_some made.items < 2 ^ 32 }
    ensures tables { added.new ≡ with_tables added.old made.entry.items }
    ensures count { result ≡ count_by is_some made.entry.items }
{
    let mut place = 0;
    let mut count = 0;
    for table in made {
        if table.is_some() {
            added[place].table = table;
            count += 1;
        }
        place += 1;
    }
    count
}

/// Whether each of these modules is prepared.
pub(crate) fn are_prepared(added: &[AddedModule<'_>]) -> bool
    ensures { result ≡ all_prepared (map added_of added.now) }
{
    for added_module in added {
        if added_module.table.is_none() {
            return false;
        }
    }
    true
}
