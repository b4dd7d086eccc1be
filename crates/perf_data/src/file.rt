// A perf.data file.
ghost use Rattle.std.specs.Prelude.{◌≡◌, ◌↔◌, ◌+◌, ◌<◌, ◌≤◌, ◌^◌, length, IsTrue, IsFalse};
ghost use Rattle.std.specs.Prelude.{Ok, Err, None};
ghost use Rattle.perf_data.specs.declared.layout.Layout.{Layout};
ghost use Rattle.perf_data.specs.FileValue.{layout_read, perf_of, shared_layout, records_after};
ghost use Rattle.perf_data.specs.FileValue.{HasHeader};
ghost use Rattle.perf_data.specs.FileHeader.{is_foreign, is_pipe, has_file_header};
ghost use Rattle.perf_data.specs.FileHeader.{is_unfinished, section, records_place};
ghost use Rattle.perf_data.specs.Views.{records_left};

use crate::errors::PerfError;
use crate::header::{
    ATTRIBUTES_OFFSET, RECORDS_OFFSET, attribute_size, has_file_header, is_foreign, is_pipe,
    is_unfinished, section,
};
use crate::layout::{Layout, first_layout, is_of_other_machine, share_layout};
use crate::records::Records;
use std::marker::Model;

/// A perf.data file, whose bytes are borrowed.
///
/// Proofs see its records.
#[derive(Drop)]
pub struct PerfFile<'a> {
    layout: Layout,
    // where the records stand in the file
    offset: u64,
    bytes: &'a [u8],
    ghost in_range: { offset + length bytes.now < 2 ^ 64 },
}

impl<'a> Model for PerfFile<'a> {
    ghost use Rattle.perf_data.specs.FileValue.{PerfValue, file_with};

    ghost Value = { PerfValue };

    ghost view = { λ f. file_with f.layout (f.offset, f.bytes.now) };
}

/// A layout, where its registers aren't those of a machine of another kind.
fn read_layout(layout: Layout) -> Result<Layout, PerfError>
    ensures { result ≡ layout_read layout }
{
    if is_of_other_machine(&layout) {
        Err(PerfError::Machine)
    } else {
        Ok(layout)
    }
}

/// The layout that the attributes of a file share.
#[tactic(auto, unfolding(crate::specs::FileValue::shared_layout))]
pub(crate) fn shared_layout(bytes: &[u8]) -> Result<Layout, PerfError>
    requires { 72 ≤ length bytes.now }
    ensures { result ≡ shared_layout bytes.now }
{
    if is_unfinished(bytes) {
        return Err(PerfError::Unfinished);
    }
    let size = attribute_size(bytes);
    let Some((_, attributes)) = section(bytes, ATTRIBUTES_OFFSET) else {
        return Err(PerfError::Attributes);
    };
    let Some(layout) = first_layout(size, attributes) else {
        return Err(PerfError::Attributes);
    };
    if share_layout(&layout, size as usize, attributes) {
        read_layout(layout)
    } else {
        Err(PerfError::Layouts)
    }
}

/// The file of this layout.
fn file_with(bytes: &[u8], layout: Layout) -> Result<PerfFile<'_>, PerfError>
    requires { 72 ≤ length bytes.now }
    ensures { result ≡ records_after layout (section bytes.now records_place) }
{
    match section(bytes, RECORDS_OFFSET) {
        Some((offset, bytes)) => Ok(PerfFile {
            layout,
            offset,
            bytes,
        }),
        None => Err(PerfError::Records),
    }
}

/// The perf.data file that these bytes are, or the first cause why they aren't read as one.
#[tactic(auto, unfolding(crate::specs::FileValue::perf_of))]
fn file_in(bytes: &[u8]) -> Result<PerfFile<'_>, PerfError>
    ensures { result ≡ perf_of bytes.now }
{
    if is_foreign(bytes) {
        return Err(PerfError::ByteOrder);
    }
    if is_pipe(bytes) {
        return Err(PerfError::Pipe);
    }
    if !has_file_header(bytes) {
        return Err(PerfError::Header);
    }
    let layout = shared_layout(bytes)?;
    file_with(bytes, layout)
}

impl<'a> PerfFile<'a> {
    /// The perf.data file that these bytes are.
    ///
    /// # Errors
    ///
    /// The first that holds, in this order: [`PerfError::ByteOrder`], [`PerfError::Pipe`], [`PerfError::Header`],
    /// [`PerfError::Unfinished`], [`PerfError::Attributes`], [`PerfError::Layouts`], [`PerfError::Machine`] and
    /// [`PerfError::Records`].
    pub fn parse(bytes: &'a [u8]) -> Result<PerfFile<'a>, PerfError>
        ensures exact { result ≡ perf_of bytes.now }
        // Which error it is.
        ensures byte_order { (result ≡ Err PerfError.ByteOrder) ↔ IsTrue (is_foreign bytes.now) }
        ensures pipe { (result ≡ Err PerfError.Pipe) ↔
            (IsFalse (is_foreign bytes.now) × IsTrue (is_pipe bytes.now)) }
        ensures header { (result ≡ Err PerfError.Header) ↔
            (IsFalse (is_foreign bytes.now) × IsFalse (is_pipe bytes.now) ×
            IsFalse (has_file_header bytes.now)) }
        ensures unfinished { (result ≡ Err PerfError.Unfinished) ↔
            (HasHeader bytes.now × IsTrue (is_unfinished bytes.now)) }
        ensures attributes { (result ≡ Err PerfError.Attributes) ↔
            (HasHeader bytes.now × (shared_layout bytes.now ≡ Err PerfError.Attributes)) }
        ensures layouts { (result ≡ Err PerfError.Layouts) ↔
            (HasHeader bytes.now × (shared_layout bytes.now ≡ Err PerfError.Layouts)) }
        ensures machine { (result ≡ Err PerfError.Machine) ↔
            (HasHeader bytes.now × (shared_layout bytes.now ≡ Err PerfError.Machine)) }
        ensures records { (result ≡ Err PerfError.Records) ↔
            (HasHeader bytes.now × ((layout : Layout) × (shared_layout bytes.now ≡ Ok layout)) ×
            (section bytes.now records_place ≡ None)) }
    {
        file_in(bytes)
    }

    /// The records, in the order of the file. An error is the last.
    #[tactic(auto, using(crate::proofs::RecordLemmas::records_few))]
    pub fn records(&self) -> Records<'a>
        ensures left { records_left result ≡ self.now.records }
        ensures few { length self.now.records < 2 ^ 64 }
    {
        Records::over(self.layout, self.offset, self.bytes)
    }
}
