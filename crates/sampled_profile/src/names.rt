// The names of threads and of their processes, as the records so far say.
ghost use Rattle.std.specs.Prelude.{◌≡◌, ◌∷◌, [], List, OnOk};
ghost use Rattle.std.specs.Option.{option_map};
ghost use Rattle.perf_data.specs.Records.{RecordValue, Named, Forked};
ghost use Rattle.perf_data.specs.Views.{name_value, record_value, sample_value};
ghost use Rattle.sampled_profile.specs.Kept.{Knows, name_kept, own_kept, parent_kept};
ghost use Rattle.sampled_profile.specs.Names.{name_in, name_of, process_name_of};

use perf_data::{Comm, Record, Sample, Task};
use std::alloc::{AllocError, Global};
use std::collections::BTreeMap;

// of how many threads a name is asked, each of which started the one before
const MOST: u32 = 16;

/// The names of threads, and which thread started which.
#[derive(Drop)]
pub(crate) struct ThreadNames {
    alloc: Global,
    names: BTreeMap<u32, Vec<u8>>,
    parents: BTreeMap<u32, u32>,
}

impl ThreadNames {
    /// No names. It takes no memory yet.
    pub(crate) fn new(alloc: Global) -> ThreadNames
        ensures { Knows result [] }
    {
        ThreadNames {
            alloc,
            names: BTreeMap::new(alloc),
            parents: BTreeMap::new(alloc),
        }
    }

    /// A thread's own name.
    fn own(&self, thread: u32) -> Option<&[u8]>
        ensures { option_map (λ name. name.now) result ≡ own_kept self.now thread }
    {
        match self.names.get(&thread) {
            Some(name) => Some(name.as_slice()),
            None => None,
        }
    }

    /// The thread that started a thread.
    fn parent(&self, thread: u32) -> Option<u32>
        ensures { result ≡ parent_kept self.now thread }
    {
        self.parents.get(&thread).copied()
    }

    /// The name of a thread or of one that it comes from, among the first `most` of them.
    fn name_within(&self, most: u32, thread: u32) -> Option<&[u8]>
        ensures { option_map (λ name. name.now) result ≡ name_kept self.now most thread }
    {
        if most == 0 {
            return None;
        }
        if let Some(name) = self.own(thread) {
            return Some(name);
        }
        match self.parent(thread) {
            Some(parent) => self.name_within(most - 1, parent),
            None => None,
        }
    }

    /// The name of a thread.
    pub(crate) fn name(&self, thread: u32) -> Option<&[u8]>
        ensures { (earlier : List RecordValue) → Knows self.now earlier →
            option_map (λ name. name.now) result ≡ name_in earlier thread }
    {
        self.name_within(MOST, thread)
    }

    /// Names a thread.
    fn name_thread(&mut self, name: &Comm<'_>) -> Result<(), AllocError>
        ensures { OnOk result ((earlier : List RecordValue) → Knows self.old earlier →
            Knows self.new (Named (name_value name.now) ∷ earlier)) }
    {
        let kept = Vec::from_slice(self.alloc, name.name)?;
        self.names.insert(name.thread.tid, kept)?;
        Ok(())
    }

    /// Notes which thread started a thread.
    fn start_thread(&mut self, task: &Task) -> Result<(), AllocError>
        ensures { OnOk result ((earlier : List RecordValue) → Knows self.old earlier →
            Knows self.new (Forked task.now ∷ earlier)) }
    {
        self.parents.insert(task.thread.tid, task.parent.tid)?;
        Ok(())
    }

    /// Takes what a record says of names.
    pub(crate) fn note(&mut self, entry: &Record<'_>) -> Result<(), AllocError>
        ensures { OnOk result ((earlier : List RecordValue) → Knows self.old earlier →
            Knows self.new (record_value entry.now ∷ earlier)) }
    {
        match entry {
            Record::Comm(name) => self.name_thread(name),
            Record::Fork(task) => self.start_thread(task),
            _ => Ok(()),
        }
    }
}

/// The name of a sample's thread.
pub(crate) fn name_of<'n>(names: &'n ThreadNames, sample: &Sample<'_>) -> Option<&'n [u8]>
    ensures { (earlier : List RecordValue) → Knows names.now earlier →
        option_map (λ name. name.now) result ≡ name_of earlier (sample_value sample.now).thread }
{
    match sample.thread {
        Some(thread) => names.name(thread.tid),
        None => None,
    }
}

/// The name of the process of a sample's thread: that of the thread which has the process's number or,
/// where no record says that, the thread's own.
pub(crate) fn process_name_of<'n>(names: &'n ThreadNames, sample: &Sample<'_>) -> Option<&'n [u8]>
    ensures { (earlier : List RecordValue) → Knows names.now earlier →
        option_map (λ name. name.now) result ≡
        process_name_of earlier (sample_value sample.now).thread }
{
    match sample.thread {
        Some(thread) => match names.name(thread.pid) {
            Some(name) => Some(name),
            None => names.name(thread.tid),
        },
        None => None,
    }
}
