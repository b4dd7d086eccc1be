//! Records as text.

use perf_data::{Comm, MappedFile, Mapping, Sample, Task, Thread, UserRegisters};
use std::alloc::AllocError;

// how many numbers perf has for the registers of x86-64
const REGISTER_COUNT: u32 = 24;

fn put_thread(line: &mut String, thread: Thread) -> Result<(), AllocError> {
    let (pid, tid) = (thread.pid, thread.tid);
    write!(line, " thread={pid}/{tid}")?;
    Ok(())
}

/// Puts the registers that there are, by their numbers.
fn put_registers(line: &mut String, registers: &UserRegisters) -> Result<(), AllocError> {
    let (abi, mask) = (registers.abi(), registers.mask());
    write!(line, " abi={abi} mask={mask:#x}")?;
    for number in 0..REGISTER_COUNT {
        if let Some(word) = registers.register(number) {
            write!(line, " {number}={word:#x}")?;
        }
    }
    let context = registers.context();
    let ra = context.ra;
    write!(line, " ra={ra:#x}")?;
    for word in &context.registers {
        write!(line, " {word:#x}")?;
    }
    Ok(())
}

/// Puts what a sample says, and of its stack the size and a sum.
pub fn put_sample(line: &mut String, sample: &Sample) -> Result<(), AllocError> {
    line.push_str("sample")?;
    if let Some(ip) = sample.ip {
        write!(line, " ip={ip:#x}")?;
    }
    if let Some(thread) = sample.thread {
        put_thread(line, thread)?;
    }
    if let Some(time) = sample.time {
        write!(line, " time={time}")?;
    }
    if let Some(registers) = sample.registers {
        put_registers(line, &registers)?;
    }
    let (size, sum) = (sample.stack.len(), sum_of(sample.stack));
    write!(line, " stack={size} sum={sum:#x}")?;
    Ok(())
}

/// Puts which file is mapped.
fn put_file(line: &mut String, file: &MappedFile) -> Result<(), AllocError> {
    match file {
        MappedFile::BuildId(id) => {
            line.push_str(" build_id=")?;
            for byte in *id {
                write!(line, "{byte:02x}")?;
            }
        }
        MappedFile::Inode {
            major,
            minor,
            inode,
            generation,
        } => write!(
            line,
            " device={major:02x}:{minor:02x} inode={inode} {generation}"
        )?,
    }
    Ok(())
}

/// Puts a text, as far as it is ASCII.
fn put_name(line: &mut String, name: &[u8]) -> Result<(), AllocError> {
    line.push_str(" name=")?;
    for byte in name {
        line.push(char::from(*byte))?;
    }
    Ok(())
}

/// Puts what a mapping says.
pub fn put_mapping(line: &mut String, mapping: &Mapping) -> Result<(), AllocError> {
    line.push_str("mapping")?;
    put_thread(line, mapping.thread)?;
    let (address, size, page_offset) = (mapping.address, mapping.size, mapping.page_offset);
    let (protection, flags) = (mapping.protection, mapping.flags);
    write!(line, " {address:#x}({size:#x}) at {page_offset:#x}")?;
    put_file(line, &mapping.file)?;
    write!(line, " protection={protection} flags={flags}")?;
    put_name(line, mapping.name)
}

/// Puts what a thread's name says.
pub fn put_comm(line: &mut String, comm: &Comm) -> Result<(), AllocError> {
    line.push_str(if comm.by_exec { "exec" } else { "comm" })?;
    put_thread(line, comm.thread)?;
    put_name(line, comm.name)
}

/// Puts what the start or the end of a thread says.
pub fn put_task(line: &mut String, word: &str, task: &Task) -> Result<(), AllocError> {
    let (pid, tid, time) = (task.parent.pid, task.parent.tid, task.time);
    line.push_str(word)?;
    put_thread(line, task.thread)?;
    write!(line, " parent={pid}/{tid} time={time}")?;
    Ok(())
}

// The sum of bytes: FNV-1a of 64 bits.
fn sum_of(bytes: &[u8]) -> u64 {
    let mut sum: u64 = 0xcbf2_9ce4_8422_2325;
    for byte in bytes {
        sum = (sum ^ u64::from(*byte)).wrapping_mul(0x100_0000_01b3);
    }
    sum
}
