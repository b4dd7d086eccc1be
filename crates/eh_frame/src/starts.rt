//! Where the functions of an index start, with a directory of them.

ghost use Rattle.std.specs.Prelude.{◌≡◌, ◌+◌, ◌<◌, ◌≤◌, ℕ, IfOk, IfSome, length};
ghost use Rattle.std.specs.Prelude.{slice_index};
ghost use Rattle.eh_frame.specs.Directory.{AreBefore, AreBoundsAt, IsDirectory};

use std::alloc::{AllocError, Global};
use std::marker::Model;

/// Among which starts a search looks: from the place `low` on, whose start is at or before the address
/// unless `low` is 0, to before the place `high`, from which on they are after it.
#[derive(Clone, Copy)]
pub(crate) struct Bounds {
    pub(crate) low: usize,
    pub(crate) high: usize,
}

/// The addresses at which functions start, and a directory of them: of each stretch of addresses from
/// the first start on, among which starts a search for an address in it has to look.
///
/// A stretch is as long as a power of two, and there are at most as many as starts. Where starts lie
/// evenly, a search looks at two or three of them, however many there are.
///
/// Contracts see the starts.
#[derive(Drop)]
pub(crate) struct Starts {
    starts: Vec<u64>,
    first: u64,
    // the binary digits of a place in a stretch
    digits: u32,
    directory: Vec<Bounds>,
}

impl Model for Starts {
    ghost use Rattle.std.specs.Prelude.{List, ℕ};
    ghost use Rattle.eh_frame.specs.Directory.{IsDirectory};

    ghost Value = { List ℕ };

    ghost view = { λ s. s.starts.items };

    ghost invariant = { λ s. IsDirectory s.starts.items s.first s.digits s.directory.items };
}

impl Starts {
    /// The starts with their directory. They ascend.
    ///
    /// # Errors
    ///
    /// Where memory runs out.
    pub(crate) fn new(alloc: Global, starts: Vec<u64>) -> Result<Starts, AllocError>
        ensures { IfOk result (λ made. made ≡ starts.items) }
    {
        let first = starts.first().copied().unwrap_or(0);
        let last = starts.last().copied().unwrap_or(0);
        let digits = stretch_digits(last.saturating_sub(first), starts.len() as u64);
        let directory = directory(alloc, &starts, first, digits)?;
        Ok(Starts {
            starts,
            first,
            digits,
            directory,
        })
    }

    /// The one at a place.
    pub(crate) fn at(&self, place: usize) -> u64
        requires { place < length self.now }
        ensures { result ≡ slice_index self.now place }
    {
        self.starts[place]
    }

    /// Among which starts a search for an address looks: among one at least.
    pub(crate) fn bounds(&self, pc: u64) -> Bounds
        requires { 0 < length self.now }
        ensures some { result.low < result.high }
        ensures at { AreBoundsAt self.now pc result }
    {
        match self.stretch(pc) {
            Some(bounds) if bounds.low < bounds.high => bounds,
            _ => Bounds {
                low: 0,
                high: self.starts.len(),
            },
        }
    }

    // What the directory says of an address, `None` of one before or after its stretches.
    fn stretch(&self, pc: u64) -> Option<Bounds>
        ensures { IfSome result (λ bounds. AreBoundsAt self.now pc bounds) }
    {
        let offset = pc.checked_sub(self.first)?;
        self.directory
            .get((offset >> self.digits) as usize)
            .copied()
    }
}

/// How many binary digits a place in a stretch has, so that a span of addresses has at most as many
/// stretches as there are starts.
pub(crate) fn stretch_digits(span: u64, count: u64) -> u32
    ensures { result < 64 }
{
    let digits = (count.leading_zeros() + 1).saturating_sub(span.leading_zeros());
    digits.min(63)
}

// The directory of ascending starts: one stretch after another, until all starts lie in one.
fn directory(
    alloc: Global,
    starts: &[u64],
    first: u64,
    digits: u32,
) -> Result<Vec<Bounds>, AllocError>
    requires { digits < 64 }
    ensures { IfOk result (λ directory. IsDirectory starts.now first digits directory.items) }
{
    let width = 1 << digits;
    let mut directory = Vec::new(alloc);
    let mut from = first;
    let mut before = 0;
    for _ in 0..starts.len() {
        let Some(to) = from.checked_add(width) else {
            break;
        };
        let high = first_from(starts, before, to);
        // The last one before the stretch may be of the function that reaches into it.
        let low = before.saturating_sub(1);
        directory.push(Bounds { low, high })?;
        if high == starts.len() {
            break;
        }
        from = to;
        before = high;
    }
    Ok(directory)
}

// The first place from one on of a start that isn't before an address.
fn first_from(starts: &[u64], place: usize, address: u64) -> usize
    requires within { place ≤ length starts.now }
    requires before { AreBefore starts.now place address }
    ensures within { result ≤ length starts.now }
    ensures before { AreBefore starts.now result address }
    ensures after { result < length starts.now → address ≤ slice_index starts.now result }
{
    for i in place..starts.len() {
        if starts[i] >= address {
            return i;
        }
    }
    starts.len()
}
