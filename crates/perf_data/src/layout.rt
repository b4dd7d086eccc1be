// What an event's attribute says of the layout of its samples.
ghost use Rattle.std.specs.Prelude.{◌≡◌, ◌+◌, ◌≤◌, length};
ghost use Rattle.perf_data.specs.Layouts.{later_word_at, layout_of, is_same_layout};
ghost use Rattle.perf_data.specs.Layouts.{first_layout, share_layout, has_bits};
ghost use Rattle.perf_data.specs.Layouts.{is_of_other_machine};

use memory_image::{u32_at, u64_at};

// the size of the first version of an attribute, with the section of its identifiers that follows it in the file
const LEAST_SIZE: usize = 80;

const SECTION_SIZE: usize = 16;

// where the fields of an attribute stand
const OWN_SIZE_OFFSET: usize = 4;

const SAMPLE_TYPE_OFFSET: usize = 24;

const READ_FORMAT_OFFSET: usize = 32;

const BRANCH_SAMPLE_TYPE_OFFSET: usize = 72;

const SAMPLE_REGS_USER_OFFSET: usize = 80;

// the registers whose numbers x86 doesn't give
const OTHER_REGISTERS: u64 = 0xff00_0000;

/// Which fields stand in a sample, by Linux's `struct perf_event_attr`, and the size of this.
#[derive(Clone, Copy, Debug)]
pub(crate) struct Layout {
    pub(crate) size: u32,
    pub(crate) sample_type: u64,
    pub(crate) read_format: u64,
    pub(crate) branch_sample_type: u64,
    pub(crate) sample_regs_user: u64,
}

/// Whether bits of a mask are set.
pub(crate) fn has_bits(n: u64, mask: u64) -> bool
    ensures { result ≡ has_bits n mask }
{
    n & mask != 0
}

/// A word of an attribute, 0 where the attribute ends before it.
fn later_word_at(entry: &[u8], place: usize) -> u64
    requires { place ≤ 80 }
    ensures { result ≡ later_word_at entry.now place }
{
    if entry.len() >= place + 8 + SECTION_SIZE {
        u64_at(entry, place)
    } else {
        0
    }
}

/// The layout that an attribute tells.
fn layout_of(entry: &[u8]) -> Layout
    requires { 80 ≤ length entry.now }
    ensures { result ≡ layout_of entry.now }
{
    Layout {
        size: u32_at(entry, OWN_SIZE_OFFSET),
        sample_type: u64_at(entry, SAMPLE_TYPE_OFFSET),
        read_format: u64_at(entry, READ_FORMAT_OFFSET),
        branch_sample_type: later_word_at(entry, BRANCH_SAMPLE_TYPE_OFFSET),
        sample_regs_user: later_word_at(entry, SAMPLE_REGS_USER_OFFSET),
    }
}

/// Whether two layouts are the same.
fn is_same_layout(a: &Layout, b: &Layout) -> bool
    ensures { result ≡ is_same_layout a.now b.now }
{
    a.size == b.size
        && a.sample_type == b.sample_type
        && a.read_format == b.read_format
        && a.branch_sample_type == b.branch_sample_type
        && a.sample_regs_user == b.sample_regs_user
}

/// Whether samples have registers of a machine of another kind.
pub(crate) fn is_of_other_machine(layout: &Layout) -> bool
    ensures { result ≡ is_of_other_machine layout.now }
{
    has_bits(layout.sample_regs_user, OTHER_REGISTERS)
}

/// The layout that the first of these attributes tells. `None` where there is none, or it tells another size.
pub(crate) fn first_layout(size: u64, attributes: &[u8]) -> Option<Layout>
    ensures value { result ≡ first_layout size attributes.now }
{
    if size < LEAST_SIZE as u64 || size > attributes.len() as u64 {
        return None;
    }
    let own = u64::from(u32_at(attributes, OWN_SIZE_OFFSET));
    if own + SECTION_SIZE as u64 == size {
        Some(layout_of(&attributes[..size as usize]))
    } else {
        None
    }
}

/// Whether all attributes tell this layout.
#[tactic(auto, using(crate::proofs::LayoutLemmas::share_end, crate::proofs::LayoutLemmas::share_other))]
pub(crate) fn share_layout(layout: &Layout, size: usize, attributes: &[u8]) -> bool
    requires { 80 ≤ size }
    ensures { result ≡ share_layout layout.now size attributes.now }
{
    let mut rest = attributes;
    while rest.len() >= size {
        if !is_same_layout(&layout_of(&rest[..size]), layout) {
            return false;
        }
        rest = &rest[size..];
    }
    true
}
