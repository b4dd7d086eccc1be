// Where a delivery goes on after a cleanup.
ghost use Rattle.std.specs.Prelude.{◌≡◌, ℕ, List, [], true, OnOk, OnErr};
ghost use Rattle.stack_deliver.specs.Resumes.{Ascend, LieBelow, return_of};
ghost use Rattle.stack_deliver.specs.Resumes.{resume_table, with_resume};

use std::alloc::{AllocError, Global};
use std::collections::BTreeMap;
use std::marker::Model;

/// The return addresses from which a delivery goes on after the cleanups at landing pads.
///
/// Contracts see the pads that have a return address, in ascending order, each with its own.
// Tables mostly list their pads by ascending address, and a list takes these for less than a map.
#[derive(Drop)]
pub struct Resumes {
    // the pads that came by ascending address, up to the first that didn't
    ascending: Vec<(u64, u64)>,
    // the others
    scattered: BTreeMap<u64, u64>,
}

impl Model for Resumes {
    ghost use Rattle.std.specs.Prelude.{ℕ, List};

    ghost Value = { List (ℕ × ℕ) };

    ghost use Rattle.stack_deliver.specs.Resumes.{Ascend, with_resumes};

    ghost view = { λ r. with_resumes r.ascending.items r.scattered.entries };

    ghost invariant = { λ r. Ascend r.ascending.items };
}

impl Resumes {
    /// A table without entries. It takes no memory yet.
    pub fn new(alloc: Global) -> Resumes
        ensures { result ≡ [] }
    {
        Resumes {
            ascending: Vec::new(alloc),
            scattered: BTreeMap::new(alloc),
        }
    }

    /// Adds the return address of a pad. Of several entries of one pad the first one counts.
    ///
    /// # Errors
    ///
    /// `AllocError` where memory ran out; the table is then as before.
    pub fn add(&mut self, pad: u64, ret: u64) -> Result<(), AllocError>
        ensures added { OnOk result (self.new ≡ with_resume self.old pad ret) }
        ensures unchanged { OnErr result (self.new ≡ self.old) }
    {
        if self.scattered.is_empty() && comes_last(&self.ascending, pad) {
            self.ascending.push((pad, ret))?;
        } else if self.find(pad).is_none() {
            self.scattered.insert(pad, ret)?;
        }
        Ok(())
    }

    /// The return address of a pad, that of its first entry in the order of adding.
    pub fn find(&self, pad: u64) -> Option<u64>
        ensures { result ≡ return_of self.now pad }
    {
        match find_ascending(&self.ascending, pad) {
            Some(ret) => Some(ret),
            None => self.scattered.get(&pad).copied(),
        }
    }
}

// Whether a pad comes after all that ascend.
fn comes_last(entries: &[(u64, u64)], pad: u64) -> bool
    requires { Ascend entries.now }
    ensures { result ≡ true → LieBelow pad entries.now }
{
    match entries.last() {
        None => true,
        Some(last) => last.0 < pad,
    }
}

// The return address of a pad among pads that ascend, by halving.
fn find_ascending(entries: &[(u64, u64)], pad: u64) -> Option<u64>
    requires { Ascend entries.now }
    ensures { result ≡ return_of entries.now pad }
{
    match entries.binary_search_by_key(&pad, |entry| entry.0) {
        Ok(index) => Some(entries[index].1),
        Err(_) => None,
    }
}

/// Of several entries of one pad the first one counts: what `find` answers for a table that was
/// filled from nothing is what stands first with the pad among the entries in the order of adding.
pub fn first_entry_counts()
    ensures { (entries : List (ℕ × ℕ)) (pad : ℕ) →
        return_of (resume_table entries) pad ≡ return_of entries pad }
{}
