//! Lines of which the first are printed, and all are counted and summed.

use anyhow::Result;

/// What was listed so far.
#[derive(Drop)]
pub struct Listing {
    most: u64,
    count: u64,
    sum: u64,
}

impl Listing {
    /// A listing that prints so many lines at most.
    pub fn new(most: u64) -> Listing {
        Listing {
            most,
            count: 0,
            sum: 0xcbf2_9ce4_8422_2325,
        }
    }

    /// Lists a line.
    pub fn put(&mut self, rt: &HostRuntime, line: &str) -> Result<()> {
        if self.count < self.most {
            println!(rt; "{line}")?;
        }
        self.count = self.count.wrapping_add(1);
        self.sum = with_bytes(self.sum, line.as_bytes());
        self.sum = with_bytes(self.sum, b"\n");
        Ok(())
    }

    /// Lists the row at an address.
    pub fn put_row(&mut self, rt: &HostRuntime, address: u64, row: &str) -> Result<()> {
        let line = format!(in rt.alloc(); "  {address:#x}{row}")?;
        self.put(rt, line.as_str())
    }

    /// Prints the last line, with the number of those before it and their sum.
    pub fn put_end(&self, rt: &HostRuntime, end: &str) -> Result<()> {
        let (count, sum) = (self.count, self.sum);
        println!(rt; "{end} lines={count} sum={sum:#x}")?;
        Ok(())
    }
}

// The sum of some bytes and of those before: FNV-1a of 64 bits.
fn with_bytes(before: u64, bytes: &[u8]) -> u64 {
    let mut sum = before;
    for byte in bytes {
        sum = (sum ^ u64::from(*byte)).wrapping_mul(0x100_0000_01b3);
    }
    sum
}
