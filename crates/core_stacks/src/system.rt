// The system's files.
ghost use Rattle.std.specs.Prelude.{◌≡◌, ◌+◌, ◌≤◌, IfOk, length};

use mapped_files::{Files, PartError};
use std::alloc::Global;
use std::fs::File;
use std::io::ErrorKind;
use std::os::unix::fs::FileExt;
use std::{io, str};

/// The files of the system that the program runs on. What they have isn't told. One that can't be opened has no bytes.
#[derive(Drop)]
pub(crate) struct SystemFiles<'a> {
    rt: &'a HostRuntime,
}

impl<'a> SystemFiles<'a> {
    pub(crate) fn new(rt: &'a HostRuntime) -> SystemFiles<'a> {
        SystemFiles { rt }
    }
}

/// Reads what follows of a file, of which `done` bytes from an offset on are there already.
fn read_more(file: &File, bytes: &mut [u8], done: usize, offset: u64) -> io::Result<usize>
    requires { done ≤ length bytes.old }
    ensures within { IfOk result (λ count. done + count ≤ length bytes.old) }
    ensures size { length bytes.new ≡ length bytes.old }
{
    file.read_at(&mut bytes[done..], offset.wrapping_add(done as u64))
}

/// Fills the bytes from an offset of a file on, and answers how many there were.
fn read_from(file: &File, bytes: &mut [u8], offset: u64) -> Result<usize, PartError> {
    let mut done = 0usize;
    for _ in 0..u64::MAX {
        match read_more(file, bytes, done, offset) {
            Ok(0) => return Ok(done),
            Ok(count) => done += count,
            Err(error) => match error.kind() {
                ErrorKind::Interrupted => {}
                _ => return Err(PartError::Fault),
            },
        }
    }
    Err(PartError::Fault)
}

impl<'a> Files for SystemFiles<'a> {
    ghost use Rattle.std.specs.Prelude.{None};

    ghost content = { λ _ _. None };

    ghost may_fail = { λ _. Unit {0} };

    fn read_part(
        &self,
        alloc: Global,
        path: &[u8],
        offset: u64,
        size: u64,
    ) -> Result<Vec<u8>, PartError> {
        let Ok(path) = str::from_utf8(path) else {
            return Ok(Vec::new(alloc));
        };
        let file = match File::open(self.rt, path) {
            Ok(file) => file,
            Err(error) => match error.kind() {
                ErrorKind::OutOfMemory => return Err(PartError::Memory),
                _ => return Ok(Vec::new(alloc)),
            },
        };
        let Ok(known) = file.metadata() else {
            return Err(PartError::Fault);
        };
        let size = size.min(known.len().saturating_sub(offset)) as usize;
        let mut bytes = Vec::with_capacity(alloc, size)?;
        bytes.resize(size, 0)?;
        let count = read_from(&file, &mut bytes, offset)?;
        bytes.truncate(count);
        Ok(bytes)
    }
}
