//! Prints perf.data files: a line for each record, and at the end of each file how many there are.
//!
//! `perf_dump FILE ..` reads each FILE.
#![tactic(auto)]

mod lines;

use crate::lines::{put_comm, put_mapping, put_sample, put_task};
use anyhow::Result;
use perf_data::{PerfFile, Record};
use std::alloc::Global;
use std::{env, fs};

/// The line of a record.
fn line_of(alloc: Global, record: &Record) -> Result<String> {
    let mut line = String::new(alloc);
    match record {
        Record::Sample(sample) => put_sample(&mut line, sample)?,
        Record::Mapping(mapping) => put_mapping(&mut line, mapping)?,
        Record::Comm(comm) => put_comm(&mut line, comm)?,
        Record::Fork(task) => put_task(&mut line, "fork", task)?,
        Record::Exit(task) => put_task(&mut line, "exit", task)?,
        Record::Other(kind) => write!(line, "other kind={kind}")?,
    }
    Ok(line)
}

/// Prints the records of a file, and why reading stops.
fn print_file(rt: &HostRuntime, bytes: &[u8]) -> Result<()> {
    let file = match PerfFile::parse(bytes) {
        Ok(file) => file,
        Err(error) => {
            println!(rt; "refused: {error}")?;
            return Ok(());
        }
    };
    let mut count: u64 = 0;
    for item in file.records() {
        match item {
            Ok(record) => {
                let line = line_of(rt.alloc(), &record)?;
                println!(rt; "{line}")?;
                count = count.wrapping_add(1);
            }
            Err(error) => println!(rt; "stopped: {error}")?,
        }
    }
    println!(rt; "records={count}")?;
    Ok(())
}

fn main(rt: HostRuntime) -> Result<()> {
    for name in env::args(&rt)?.skip(1) {
        let bytes = fs::read(&rt, name.as_str())?;
        print_file(&rt, &bytes)?;
    }
    Ok(())
}
