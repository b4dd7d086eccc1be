//! Prints frame tables: a line for each entry, and below a description's line one for each row, with
//! what it says otherwise than the row before it.
//!
//! `frame_dump ADDRESS FILE LINES ..` reads the bytes of an `.eh_frame` section from each FILE.
//! ADDRESS, in hexadecimal digits, is that of its first byte. Of each table the first LINES lines are
//! printed, and at its end how many there are and a sum of all.
#![tactic(auto)]

mod lines;
mod listing;

use crate::lines::{put_changes, put_cie, put_end, put_fault, put_fde};
use crate::listing::Listing;
use anyhow::{Result, bail};
use eh_frame::{Bases, EhFrame, Entry, Fde, RowRoom};
use std::alloc::Global;
use std::{env, fs, mem};

/// Lists a line for each row of a description that differs from the row at the address before, and
/// the fault that ends them, if there is one.
fn list_rows<'a>(
    rt: &HostRuntime,
    table: &EhFrame<'a>,
    fde: &Fde<'a>,
    bases: &Bases,
    listing: &mut Listing,
) -> Result<()> {
    let mut rows = RowRoom::new();
    let mut before = RowRoom::new();
    for distance in 0..fde.len() {
        let address = fde.initial_address().wrapping_add(distance);
        let mut line = String::new(rt.alloc());
        if let Err(error) = fde.make_row(table, bases, address, &mut rows) {
            put_fault(&mut line, error)?;
            listing.put_row(rt, address, line.as_str())?;
            break;
        }
        put_changes(&mut line, &before.row(), &rows.row())?;
        if !line.is_empty() {
            listing.put_row(rt, address, line.as_str())?;
            mem::swap(&mut rows, &mut before);
        }
    }
    Ok(())
}

/// The line of an entry.
fn line_of(alloc: Global, entry: &Entry) -> Result<String> {
    let mut line = String::new(alloc);
    match entry {
        Entry::Cie(cie) => put_cie(&mut line, cie)?,
        Entry::Fde(fde) => put_fde(&mut line, fde)?,
    }
    Ok(line)
}

/// Lists all entries with their rows, and prints why they end.
fn list_table(rt: &HostRuntime, table: &EhFrame, listing: &mut Listing) -> Result<()> {
    let bases = Bases::default();
    let mut entries = table.entries(&bases);
    for _ in 0..u64::MAX {
        let mut end = String::new(rt.alloc());
        match entries.next() {
            Ok(Some(entry)) => {
                let line = line_of(rt.alloc(), &entry)?;
                listing.put(rt, line.as_str())?;
                if let Entry::Fde(fde) = entry {
                    list_rows(rt, table, &fde, &bases, listing)?;
                }
                continue;
            }
            Ok(None) => put_end(&mut end, entries.offset())?,
            Err(error) => put_fault(&mut end, error)?,
        }
        listing.put_end(rt, end.as_str())?;
        break;
    }
    Ok(())
}

/// Lists the table in a file.
fn list_file(rt: &HostRuntime, address: &str, file: &str, lines: &str) -> Result<()> {
    let Ok(address) = u64::from_str_radix(address, 16) else {
        bail!("the address has to be in hexadecimal digits");
    };
    let Ok(lines) = lines.parse::<u64>() else {
        bail!("how many lines there are to be has to be a number");
    };
    let bytes = fs::read(rt, file)?;
    list_table(rt, &EhFrame::new(&bytes, address), &mut Listing::new(lines))
}

fn main(rt: HostRuntime) -> Result<()> {
    let mut words = env::args(&rt)?.skip(1);
    for _ in 0..u64::MAX {
        let Some(address) = words.next() else {
            return Ok(());
        };
        let (Some(file), Some(lines)) = (words.next(), words.next()) else {
            bail!("usage: frame_dump ADDRESS FILE LINES ..");
        };
        list_file(&rt, address.as_str(), file.as_str(), lines.as_str())?;
    }
    Ok(())
}
