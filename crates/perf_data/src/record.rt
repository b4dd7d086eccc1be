// A record, and what it says.
ghost use Rattle.std.specs.Prelude.{◌≡◌, ◌≤◌, length, IfOk};
ghost use Rattle.memory_image.specs.Results.{result_map};
ghost use Rattle.memory_image.specs.Words.{u16_at};
ghost use Rattle.perf_data.specs.Records.{first_framed, record_of, first_record};
ghost use Rattle.perf_data.specs.Records.{sample_in, mapping_in, name_in, fork_in, exit_in};
ghost use Rattle.perf_data.specs.Views.{framed_value, framed_pair, record_value, record_pair};

use crate::errors::PerfError;
use crate::header::u16_at;
use crate::layout::Layout;
use crate::mapping::{Comm, Mapping, mapping_of, name_of};
use crate::sample::{Sample, sample_of};
use crate::task::{Task, task_of};
use memory_image::u32_at;

// the types of records
const COMM: u32 = 3;

const EXIT: u32 = 4;

const FORK: u32 = 7;

const SAMPLE: u32 = 9;

const MMAP2: u32 = 10;

const HEADER_TRACING_DATA: u32 = 66;

const AUXTRACE: u32 = 71;

const COMPRESSED: u32 = 81;

const COMPRESSED2: u32 = 83;

// the size of a record's header
const HEADER_SIZE: usize = 8;

/// A record of a profile.
#[derive(Clone, Copy, Debug)]
pub enum Record<'a> {
    /// A sample.
    Sample(Sample<'a>),
    /// A part of a file that a process mapped.
    Mapping(Mapping<'a>),
    /// The name of a thread.
    Comm(Comm<'a>),
    /// The start of a thread, which has the name of the one that started it.
    Fork(Task),
    /// The end of a thread.
    Exit(Task),
    /// A record of another type, which isn't read.
    Other(u32),
}

/// A record that is whole: what it is, and what follows its header.
#[derive(Clone, Copy, Debug)]
pub(crate) struct Framed<'a> {
    kind: u32,
    misc: u16,
    body: &'a [u8],
}

/// The record that bytes begin with, and its size. They stand at this offset of the file.
#[tactic(auto, unfolding(crate::specs::Records::first_framed))]
fn first_framed(offset: u64, bytes: &[u8]) -> Result<(Framed<'_>, usize), PerfError>
    ensures value { result_map framed_pair result ≡ first_framed offset bytes.now }
    ensures within { IfOk result (λ p. (8 ≤ p.1) × (p.1 ≤ length bytes.now)) }
    ensures word { 8 ≤ length bytes.now → u16_at bytes.now 6 ≤ 65535 }
{
    if bytes.len() < HEADER_SIZE {
        return Err(PerfError::Cut(offset));
    }
    let size = usize::from(u16_at(bytes, 6));
    if size < HEADER_SIZE {
        return Err(PerfError::Size(offset));
    }
    if bytes.len() < size {
        return Err(PerfError::Cut(offset));
    }
    let whole = &bytes[..size];
    let framed = Framed {
        kind: u32_at(whole, 0),
        misc: u16_at(whole, 4),
        body: &whole[HEADER_SIZE..],
    };
    Ok((framed, size))
}

/// What a sample says.
fn sample_in<'a>(layout: &Layout, offset: u64, body: &'a [u8]) -> Result<Record<'a>, PerfError>
    ensures { result_map record_value result ≡ sample_in layout.now offset body.now }
{
    match sample_of(layout, body) {
        Some(sample) => Ok(Record::Sample(sample)),
        None => Err(PerfError::Body(offset)),
    }
}

/// What a mapping says.
fn mapping_in(misc: u16, offset: u64, body: &[u8]) -> Result<Record<'_>, PerfError>
    ensures { result_map record_value result ≡ mapping_in misc offset body.now }
{
    match mapping_of(misc, body) {
        Some(mapping) => Ok(Record::Mapping(mapping)),
        None => Err(PerfError::Body(offset)),
    }
}

/// What a name says.
fn name_in(misc: u16, offset: u64, body: &[u8]) -> Result<Record<'_>, PerfError>
    ensures { result_map record_value result ≡ name_in misc offset body.now }
{
    match name_of(misc, body) {
        Some(name) => Ok(Record::Comm(name)),
        None => Err(PerfError::Body(offset)),
    }
}

/// What the start of a thread says.
fn fork_in<'a>(offset: u64, body: &'a [u8]) -> Result<Record<'a>, PerfError>
    ensures { result_map record_value result ≡ fork_in offset body.now }
{
    match task_of(body) {
        Some(task) => Ok(Record::Fork(task)),
        None => Err(PerfError::Body(offset)),
    }
}

/// What the end of a thread says.
fn exit_in<'a>(offset: u64, body: &'a [u8]) -> Result<Record<'a>, PerfError>
    ensures { result_map record_value result ≡ exit_in offset body.now }
{
    match task_of(body) {
        Some(task) => Ok(Record::Exit(task)),
        None => Err(PerfError::Body(offset)),
    }
}

/// What a record says that stands at this offset of the file.
#[tactic(auto, unfolding(crate::specs::Records::record_of))]
fn record_of<'a>(layout: &Layout, offset: u64, framed: &Framed<'a>) -> Result<Record<'a>, PerfError>
    ensures { result_map record_value result ≡ record_of layout.now offset (framed_value framed.now) }
{
    match framed.kind {
        SAMPLE => sample_in(layout, offset, framed.body),
        MMAP2 => mapping_in(framed.misc, offset, framed.body),
        COMM => name_in(framed.misc, offset, framed.body),
        FORK => fork_in(offset, framed.body),
        EXIT => exit_in(offset, framed.body),
        COMPRESSED | COMPRESSED2 => Err(PerfError::Compressed(offset)),
        HEADER_TRACING_DATA | AUXTRACE => Err(PerfError::Trailing(offset)),
        kind => Ok(Record::Other(kind)),
    }
}

/// What the first record of bytes says, and its size. They stand at this offset of the file.
#[tactic(auto, unfolding(crate::specs::Records::first_record))]
pub(crate) fn first_record<'a>(
    layout: &Layout,
    offset: u64,
    bytes: &'a [u8],
) -> Result<(Record<'a>, usize), PerfError>
    ensures value { result_map record_pair result ≡ first_record layout.now offset bytes.now }
    ensures within { IfOk result (λ p. (8 ≤ p.1) × (p.1 ≤ length bytes.now)) }
    ensures word { 8 ≤ length bytes.now → u16_at bytes.now 6 ≤ 65535 }
{
    let (framed, size) = first_framed(offset, bytes)?;
    let record = record_of(layout, offset, &framed)?;
    Ok((record, size))
}
