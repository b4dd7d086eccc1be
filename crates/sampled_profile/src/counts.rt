// Distinct stacks with their counts.
ghost use Rattle.std.specs.Prelude.{◌≡◌, ◌+◌, ◌<◌, ◌^◌, ◌++◌, [], OnOk, sum_by};
ghost use Rattle.folded_stacks.specs.Counts.{stack_count};
ghost use Rattle.sampled_profile.specs.CountViews.{counted_times};
ghost use Rattle.sampled_profile.specs.Profiles.{count_line, profile_text};

use stack_report::Report;
use std::alloc::{AllocError, Global};
use std::collections::BTreeMap;
use std::marker::Model;

/// The texts of stacks in their order, each with the number of the samples that show it.
#[derive(Drop)]
pub(crate) struct StackCounts {
    alloc: Global,
    counts: BTreeMap<Vec<u8>, u64>,
}

impl Model for StackCounts {
    ghost use Rattle.std.specs.Prelude.{List};
    ghost use Rattle.folded_stacks.specs.Counts.{StackCount};
    ghost use Rattle.sampled_profile.specs.CountViews.{lines_of};

    ghost Value = { List StackCount };

    ghost view = { λ s. lines_of s.counts.entries };
}

impl StackCounts {
    /// No stacks. It takes no memory yet.
    pub(crate) fn new(alloc: Global) -> StackCounts
        ensures { result ≡ [] }
    {
        StackCounts {
            alloc,
            counts: BTreeMap::new(alloc),
        }
    }

    /// Counts a number of samples more that show a stack.
    ///
    /// # Errors
    ///
    /// `AllocError` where memory ran out.
    pub(crate) fn add(&mut self, stack: &[u8], more: u64) -> Result<(), AllocError>
        requires { sum_by (λ line. line.count) self.old + more < 2 ^ 64 }
        ensures { OnOk result (self.new ≡ counted_times more stack.now self.old) }
    {
        if more == 0 {
            return Ok(());
        }
        let key = Vec::from_slice(self.alloc, stack)?;
        match self.counts.insert(key, more)? {
            // Another stack may have the same text, as where two files have one name.
            Some(before) => {
                let key = Vec::from_slice(self.alloc, stack)?;
                self.counts.insert(key, before + more)?;
                Ok(())
            }
            None => Ok(()),
        }
    }

    /// Puts a line for each stack last: its text and its count.
    ///
    /// # Errors
    ///
    /// `AllocError` where memory ran out.
    pub(crate) fn put_lines(&self, report: &mut Report) -> Result<(), AllocError>
        ensures { OnOk result (report.new ≡ report.old ++ profile_text self.now) }
    {
        for (stack, count) in self.counts.iter() {
            put_line(report, stack.as_slice(), *count)?;
        }
        Ok(())
    }
}

/// Puts the line of a stack and of how many samples show it.
#[tactic(auto, unfolding(crate::specs::Profiles::count_line))]
fn put_line(report: &mut Report, stack: &[u8], count: u64) -> Result<(), AllocError>
    ensures { OnOk result (report.new ≡ report.old ++ count_line (stack_count stack.now count)) }
{
    report.put_bytes(stack)?;
    report.put_count(" ", count as usize)?;
    report.end_line()
}
