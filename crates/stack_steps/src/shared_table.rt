// Frame tables that modules share, with their indexes.
ghost use Rattle.std.specs.Prelude.{◌≡◌, IfOk};
ghost use Rattle.std.specs.Bool.{OnTrue};
ghost use Rattle.stack_steps.specs.AddedModule.{FitsWithin, IsTried, LeavesAfter, PreparesTable};

use crate::prepared::{Left, PreparedTable};
use fde_finders::FrameInfo;
use memory_image::MemoryImage;
use std::alloc::{AllocError, Global};
use std::marker::Model;
use std::rc::Rc;

/// A frame table with its index, as modules that name the same tables share it.
///
/// Contracts see the table.
#[derive(Drop)]
pub(crate) struct SharedTable<'a> {
    table: Rc<PreparedTable<'a>>,
}

impl<'a> Model for SharedTable<'a> {
    ghost use Rattle.stack_steps.specs.declared.prepared.PreparedTable.{PreparedTable};

    ghost Value = { PreparedTable };

    ghost view = { λ s. s.table.value };
}

impl<'a> SharedTable<'a> {
    /// Makes a table one that can be shared.
    fn new(alloc: Global, table: PreparedTable<'a>) -> Result<SharedTable<'a>, AllocError>
        ensures { IfOk result (λ shared. shared ≡ table.entry) }
    {
        Ok(SharedTable {
            table: Rc::new(alloc, table)?,
        })
    }

    /// The table.
    pub(crate) fn table(&self) -> &PreparedTable<'a>
        ensures { result.now ≡ self.now }
    {
        &self.table
    }

    /// The same table for one more module.
    fn share(&self) -> Result<SharedTable<'a>, AllocError>
        ensures { IfOk result (λ shared. shared ≡ self.now) }
    {
        Ok(SharedTable {
            table: self.table.clone()?,
        })
    }
}

/// What was made for the last module that was tried: the tables that it names, and one of them with an
/// index, if there is one.
#[derive(Drop)]
pub(crate) struct Tried<'a> {
    tables: FrameInfo,
    table: Option<SharedTable<'a>>,
}

impl<'a> Tried<'a> {
    /// Whether the same is made for a module that names these tables, within what is left.
    fn serves(&self, tables: FrameInfo, left: Left) -> bool
        ensures { OnTrue result ((self.now.tables ≡ tables) × FitsWithin left self.now.table) }
    {
        if self.tables != tables {
            return false;
        }
        match &self.table {
            Some(shared) => {
                let index = &shared.table().index;
                index.rows_len() <= left.rows && index.rules_len() <= left.rules
            }
            None => true,
        }
    }
}

/// The same table, if there is one, for one more module.
fn share_of<'a>(table: &Option<SharedTable<'a>>) -> Result<Option<SharedTable<'a>>, AllocError>
    ensures { IfOk result (λ shared. shared ≡ table.now) }
{
    match table {
        Some(table) => Ok(Some(table.share()?)),
        None => Ok(None),
    }
}

/// The frame table that a module names, with an index that keeps no more than is left, as the first
/// of those that share it has it.
fn first_table<'a>(
    alloc: Global,
    image: &MemoryImage<'a>,
    tables: FrameInfo,
    left: Left,
) -> Result<Option<SharedTable<'a>>, AllocError>
    ensures { IfOk result (λ table. PreparesTable image.now tables left table) }
{
    match PreparedTable::build(alloc, image, tables, left)? {
        Some(table) => Ok(Some(SharedTable::new(alloc, table)?)),
        None => Ok(None),
    }
}

/// The frame table that a module names, with an index that keeps no more than is left. Where the
/// module that was tried before it names the same, that one's is shared. `None` where there is no
/// such index, or a header that the module names doesn't list what it holds.
///
/// # Errors
///
/// Where memory runs out.
pub(crate) fn shared_table<'a>(
    alloc: Global,
    image: &MemoryImage<'a>,
    tables: FrameInfo,
    left: Left,
    tried: &mut Option<Tried<'a>>,
) -> Result<Option<SharedTable<'a>>, AllocError>
    requires { IsTried image.now left tried.old }
    ensures table { IfOk result (λ table. PreparesTable image.now tables left table) }
    ensures tried { IfOk result (λ table. LeavesAfter (IsTried image.now) left table tried.new) }
{
    if let Some(before) = tried {
        if before.serves(tables, left) {
            return share_of(&before.table);
        }
    }
    let table = first_table(alloc, image, tables, left)?;
    let first = share_of(&table)?;
    *tried = Some(Tried { tables, table });
    Ok(first)
}
