// What a mapping and a name say.
ghost use Rattle.std.specs.Prelude.{◌≡◌, ◌==◌, ◌≤◌, ◌<◌, length, position, IfSome};
ghost use Rattle.std.specs.Option.{option_map};
ghost use Rattle.perf_data.specs.Mappings.{text_of, thread_at_start, build_id_of, file_of};
ghost use Rattle.perf_data.specs.Mappings.{mapping_of, name_of};
ghost use Rattle.perf_data.specs.Views.{file_value, mapping_value, name_value};

use crate::layout::has_bits;
use crate::sample::Thread;
use memory_image::{u32_at, u64_at};

// the bits of misc
const MMAP_BUILD_ID: u64 = 0x4000;

const COMM_EXEC: u64 = 0x2000;

// how many bytes stand before the name of a mapping's file, and before that of a thread
const MAPPING_SIZE: usize = 64;

const THREAD_SIZE: usize = 8;

// the most bytes of a build id
const BUILD_ID_SIZE: usize = 20;

/// Which file is mapped.
#[derive(Clone, Copy, Debug)]
pub enum MappedFile<'a> {
    /// The one of this build id.
    BuildId(&'a [u8]),
    /// The one of this inode on this device.
    Inode {
        /// The major number of the device.
        major: u32,
        /// The minor number of the device.
        minor: u32,
        /// The inode.
        inode: u64,
        /// The inode's generation.
        generation: u64,
    },
}

/// A part of a file at addresses of a process.
#[derive(Clone, Copy, Debug)]
pub struct Mapping<'a> {
    /// The thread that mapped it.
    pub thread: Thread,
    /// The first address.
    pub address: u64,
    /// How many bytes are mapped.
    pub size: u64,
    /// Where the part begins in the file.
    pub page_offset: u64,
    /// The file.
    pub file: MappedFile<'a>,
    /// How the memory may be used, by the bits of `mmap`.
    pub protection: u32,
    /// How it is mapped, by the flags of `mmap`.
    pub flags: u32,
    /// The file's path, or a name in brackets or slashes where it is none.
    pub name: &'a [u8],
}

/// The name of a thread.
#[derive(Clone, Copy, Debug)]
pub struct Comm<'a> {
    /// The thread.
    pub thread: Thread,
    /// Whether it got the name by an exec.
    pub by_exec: bool,
    /// The name.
    pub name: &'a [u8],
}

/// Where the first zero byte stands.
fn zero_in(bytes: &[u8]) -> Option<usize>
    ensures place { result ≡ position (λ b. b == 0) bytes.now }
    ensures within { IfSome result (λ place. place < length bytes.now) }
{
    bytes.iter().position(|byte| *byte == 0)
}

/// A text up to a zero byte.
fn text_of(bytes: &[u8]) -> &[u8]
    ensures { result.now ≡ text_of bytes.now }
{
    match zero_in(bytes) {
        Some(end) => &bytes[..end],
        None => bytes,
    }
}

/// The thread that a body begins with.
fn thread_at_start(body: &[u8]) -> Thread
    requires { 8 ≤ length body.now }
    ensures { result ≡ thread_at_start body.now }
{
    Thread {
        pid: u32_at(body, 0),
        tid: u32_at(body, 4),
    }
}

/// The build id of a mapping's file.
fn build_id_of(body: &[u8]) -> &[u8]
    requires { 64 ≤ length body.now }
    ensures { result.now ≡ build_id_of body.now }
{
    let size = usize::from(body[32]).min(BUILD_ID_SIZE);
    &body[36..][..size]
}

/// The file of a mapping.
fn file_of(misc: u16, body: &[u8]) -> MappedFile<'_>
    requires { 64 ≤ length body.now }
    ensures { file_value result ≡ file_of misc body.now }
{
    if has_bits(u64::from(misc), MMAP_BUILD_ID) {
        MappedFile::BuildId(build_id_of(body))
    } else {
        MappedFile::Inode {
            major: u32_at(body, 32),
            minor: u32_at(body, 36),
            inode: u64_at(body, 40),
            generation: u64_at(body, 48),
        }
    }
}

/// What a mapping says. `None` where its body ends before its fields.
#[tactic(auto, unfolding(crate::specs::Mappings::mapping_of))]
pub(crate) fn mapping_of(misc: u16, body: &[u8]) -> Option<Mapping<'_>>
    ensures { option_map mapping_value result ≡ mapping_of misc body.now }
{
    if body.len() < MAPPING_SIZE {
        return None;
    }
    Some(Mapping {
        thread: thread_at_start(body),
        address: u64_at(body, 8),
        size: u64_at(body, 16),
        page_offset: u64_at(body, 24),
        file: file_of(misc, body),
        protection: u32_at(body, 56),
        flags: u32_at(body, 60),
        name: text_of(&body[MAPPING_SIZE..]),
    })
}

/// What a thread's name says. `None` where its body ends before its fields.
#[tactic(auto, unfolding(crate::specs::Mappings::name_of))]
pub(crate) fn name_of(misc: u16, body: &[u8]) -> Option<Comm<'_>>
    ensures { option_map name_value result ≡ name_of misc body.now }
{
    if body.len() < THREAD_SIZE {
        return None;
    }
    Some(Comm {
        thread: thread_at_start(body),
        by_exec: has_bits(u64::from(misc), COMM_EXEC),
        name: text_of(&body[THREAD_SIZE..]),
    })
}
