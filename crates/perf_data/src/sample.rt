// What a sample says.
ghost use Rattle.std.specs.Prelude.{◌≡◌, ◌+◌, ◌≤◌, length, IsTrue};
ghost use Rattle.std.specs.Option.{option_map};
ghost use Rattle.perf_data.specs.Samples.{word_if, ip_place, tid_place, time_place, stream_id_place};
ghost use Rattle.perf_data.specs.Samples.{words_size, word_in, thread_in, times_size, counter_size};
ghost use Rattle.perf_data.specs.Samples.{after_group, after_counters, after_read, after_addresses};
ghost use Rattle.perf_data.specs.Samples.{after_callchain, after_raw_bytes, after_raw, branch_size};
ghost use Rattle.perf_data.specs.Samples.{after_branches, after_branch_stack, registers_by};
ghost use Rattle.perf_data.specs.Samples.{first_registers, user_registers, stack_of, first_stack};
ghost use Rattle.perf_data.specs.Samples.{user_stack, after_passed, sample_with, sample_of};
ghost use Rattle.perf_data.specs.Views.{words_of, sample_value};

use crate::layout::{Layout, has_bits};
use crate::parts::{first_word, skip, skip_items, split};
use crate::registers::UserRegisters;
use memory_image::{u32_at, u64_at};

// the bits of sample_type
const IP: u64 = 0x1;

const TID: u64 = 0x2;

const TIME: u64 = 0x4;

const ADDR: u64 = 0x8;

const READ: u64 = 0x10;

const CALLCHAIN: u64 = 0x20;

const ID: u64 = 0x40;

const CPU: u64 = 0x80;

const PERIOD: u64 = 0x100;

const STREAM_ID: u64 = 0x200;

const RAW: u64 = 0x400;

const BRANCH_STACK: u64 = 0x800;

const REGS_USER: u64 = 0x1000;

const STACK_USER: u64 = 0x2000;

const IDENTIFIER: u64 = 0x1_0000;

// the bits of read_format
const TOTAL_TIME_ENABLED: u64 = 0x1;

const TOTAL_TIME_RUNNING: u64 = 0x2;

const FORMAT_ID: u64 = 0x4;

const GROUP: u64 = 0x8;

const LOST: u64 = 0x10;

// the bits of branch_sample_type that add words
const HW_INDEX: u64 = 0x2_0000;

const COUNTERS: u64 = 0x8_0000;

/// A thread, and the process that it belongs to.
#[derive(Clone, Copy, Debug, PartialEq, Eq)]
pub struct Thread {
    /// The process.
    pub pid: u32,
    /// The thread.
    pub tid: u32,
}

/// A sample: what a thread did when an event happened, as far as the event's attribute asked for it.
#[derive(Clone, Copy, Debug)]
pub struct Sample<'a> {
    /// The address of the instruction.
    pub ip: Option<u64>,
    /// The thread.
    pub thread: Option<Thread>,
    /// The time, in nanoseconds of the event's clock.
    pub time: Option<u64>,
    /// The registers that the thread had in its program. A thread of the kernel has none.
    pub registers: Option<UserRegisters<'a>>,
    /// The bytes of the thread's stack from its stack pointer on, as many as could be copied.
    pub stack: &'a [u8],
}

/// The registers of a program, where it has some, and what follows them.
type RegistersThen<'a> = Option<(Option<UserRegisters<'a>>, &'a [u8])>;

/// The bytes of a word that stands where a bit is set.
fn word_if(n: u64, mask: u64) -> usize
    ensures { result ≡ word_if n mask }
{
    if has_bits(n, mask) { 8 } else { 0 }
}

/// The word at a place, where there is one.
fn word_in(there: bool, body: &[u8], place: usize) -> Option<u64>
    requires { IsTrue there → place + 8 ≤ length body.now }
    ensures { result ≡ word_in there body.now place }
{
    if there {
        Some(u64_at(body, place))
    } else {
        None
    }
}

/// The thread at a place, where there is one.
fn thread_in(there: bool, body: &[u8], place: usize) -> Option<Thread>
    requires { IsTrue there → place + 8 ≤ length body.now }
    ensures { result ≡ thread_in there body.now place }
{
    if there {
        Some(Thread {
            pid: u32_at(body, place),
            tid: u32_at(body, place + 4),
        })
    } else {
        None
    }
}

// where the fields of a word each stand
impl Layout {
    fn ip_place(&self) -> usize
        ensures value { result ≡ ip_place self.now }
        ensures few { result ≤ 8 }
    {
        word_if(self.sample_type, IDENTIFIER)
    }

    fn tid_place(&self) -> usize
        ensures value { result ≡ tid_place self.now }
        ensures few { result ≤ 16 }
    {
        self.ip_place() + word_if(self.sample_type, IP)
    }

    fn time_place(&self) -> usize
        ensures value { result ≡ time_place self.now }
        ensures few { result ≤ 24 }
    {
        self.tid_place() + word_if(self.sample_type, TID)
    }

    fn stream_id_place(&self) -> usize
        ensures value { result ≡ stream_id_place self.now }
        ensures few { result ≤ 48 }
    {
        self.time_place()
            + word_if(self.sample_type, TIME)
            + word_if(self.sample_type, ADDR)
            + word_if(self.sample_type, ID)
    }

    fn words_size(&self) -> usize
        ensures value { result ≡ words_size self.now }
        ensures few { result ≤ 72 }
    {
        self.stream_id_place()
            + word_if(self.sample_type, STREAM_ID)
            + word_if(self.sample_type, CPU)
            + word_if(self.sample_type, PERIOD)
    }

    fn times_size(&self) -> usize
        ensures value { result ≡ times_size self.now }
        ensures few { result ≤ 16 }
    {
        word_if(self.read_format, TOTAL_TIME_ENABLED)
            + word_if(self.read_format, TOTAL_TIME_RUNNING)
    }

    fn counter_size(&self) -> usize
        ensures value { result ≡ counter_size self.now }
        ensures few { result ≤ 24 }
    {
        8 + word_if(self.read_format, FORMAT_ID) + word_if(self.read_format, LOST)
    }

    fn branch_size(&self) -> usize
        ensures value { result ≡ branch_size self.now }
        ensures few { result ≤ 32 }
    {
        24 + word_if(self.branch_sample_type, COUNTERS)
    }
}

/// What follows a group of counters.
fn after_group<'a>(layout: &Layout, bytes: &'a [u8]) -> Option<&'a [u8]>
    ensures { option_map (λ rest. rest.now) result ≡ after_group layout.now bytes.now }
{
    let (count, times) = first_word(bytes)?;
    let counters = skip(layout.times_size() as u64, times)?;
    skip_items(count, layout.counter_size() as u64, counters)
}

/// What follows the counters of an event.
fn after_counters<'a>(layout: &Layout, bytes: &'a [u8]) -> Option<&'a [u8]>
    ensures { option_map (λ rest. rest.now) result ≡ after_counters layout.now bytes.now }
{
    if has_bits(layout.read_format, GROUP) {
        after_group(layout, bytes)
    } else {
        skip((layout.times_size() + layout.counter_size()) as u64, bytes)
    }
}

#[tactic(auto, unfolding(crate::specs::Samples::after_read))]
fn after_read<'a>(layout: &Layout, bytes: &'a [u8]) -> Option<&'a [u8]>
    ensures { option_map (λ rest. rest.now) result ≡ after_read layout.now bytes.now }
{
    if has_bits(layout.sample_type, READ) {
        after_counters(layout, bytes)
    } else {
        Some(bytes)
    }
}

/// What follows a number of addresses, and these.
fn after_addresses(bytes: &[u8]) -> Option<&[u8]>
    ensures { option_map (λ rest. rest.now) result ≡ after_addresses bytes.now }
{
    let (count, addresses) = first_word(bytes)?;
    skip_items(count, 8, addresses)
}

#[tactic(auto, unfolding(crate::specs::Samples::after_callchain))]
fn after_callchain<'a>(layout: &Layout, bytes: &'a [u8]) -> Option<&'a [u8]>
    ensures { option_map (λ rest. rest.now) result ≡ after_callchain layout.now bytes.now }
{
    if has_bits(layout.sample_type, CALLCHAIN) {
        after_addresses(bytes)
    } else {
        Some(bytes)
    }
}

/// What follows a number of four bytes, and so many bytes.
fn after_raw_bytes(bytes: &[u8]) -> Option<&[u8]>
    ensures { option_map (λ rest. rest.now) result ≡ after_raw_bytes bytes.now }
{
    if bytes.len() < 4 {
        return None;
    }
    skip(u64::from(u32_at(bytes, 0)), &bytes[4..])
}

#[tactic(auto, unfolding(crate::specs::Samples::after_raw))]
fn after_raw<'a>(layout: &Layout, bytes: &'a [u8]) -> Option<&'a [u8]>
    ensures { option_map (λ rest. rest.now) result ≡ after_raw layout.now bytes.now }
{
    if has_bits(layout.sample_type, RAW) {
        after_raw_bytes(bytes)
    } else {
        Some(bytes)
    }
}

/// What follows a number of branches, and these.
fn after_branches<'a>(layout: &Layout, bytes: &'a [u8]) -> Option<&'a [u8]>
    ensures { option_map (λ rest. rest.now) result ≡ after_branches layout.now bytes.now }
{
    let (count, index) = first_word(bytes)?;
    let branches = skip(word_if(layout.branch_sample_type, HW_INDEX) as u64, index)?;
    skip_items(count, layout.branch_size() as u64, branches)
}

#[tactic(auto, unfolding(crate::specs::Samples::after_branch_stack))]
fn after_branch_stack<'a>(layout: &Layout, bytes: &'a [u8]) -> Option<&'a [u8]>
    ensures { option_map (λ rest. rest.now) result ≡ after_branch_stack layout.now bytes.now }
{
    if has_bits(layout.sample_type, BRANCH_STACK) {
        after_branches(layout, bytes)
    } else {
        Some(bytes)
    }
}

/// What follows the fields that are passed over.
#[tactic(auto, unfolding(crate::specs::Samples::after_passed))]
fn after_passed<'a>(layout: &Layout, bytes: &'a [u8]) -> Option<&'a [u8]>
    ensures { option_map (λ rest. rest.now) result ≡ after_passed layout.now bytes.now }
{
    let callchain = after_read(layout, bytes)?;
    let raw = after_callchain(layout, callchain)?;
    let branches = after_raw(layout, raw)?;
    after_branch_stack(layout, branches)
}

/// The registers of a program of this form, and what follows them.
fn registers_by<'a>(layout: &Layout, abi: u64, bytes: &'a [u8]) -> RegistersThen<'a>
    ensures { option_map (λ p. (words_of p.0, p.1.now)) result ≡ registers_by layout.now abi bytes.now }
{
    if abi == 0 {
        return Some((None, bytes));
    }
    let mask = layout.sample_regs_user;
    let size = 8 * u64::from(mask.count_ones());
    let (words, rest) = split(size, bytes)?;
    Some((Some(UserRegisters { abi, mask, words }), rest))
}

/// The form of the program and its registers, and what follows them.
fn first_registers<'a>(layout: &Layout, bytes: &'a [u8]) -> RegistersThen<'a>
    ensures { option_map (λ p. (words_of p.0, p.1.now)) result ≡ first_registers layout.now bytes.now }
{
    let (abi, registers) = first_word(bytes)?;
    registers_by(layout, abi, registers)
}

#[tactic(auto, unfolding(crate::specs::Samples::user_registers))]
fn user_registers<'a>(layout: &Layout, bytes: &'a [u8]) -> RegistersThen<'a>
    ensures { option_map (λ p. (words_of p.0, p.1.now)) result ≡ user_registers layout.now bytes.now }
{
    if has_bits(layout.sample_type, REGS_USER) {
        first_registers(layout, bytes)
    } else {
        Some((None, bytes))
    }
}

/// The bytes of a stack that were copied, of so many that there is room for.
fn stack_of(size: u64, bytes: &[u8]) -> Option<&[u8]>
    ensures { option_map (λ stack. stack.now) result ≡ stack_of size bytes.now }
{
    let (copy, rest) = split(size, bytes)?;
    let (dynamic, _) = first_word(rest)?;
    let count = dynamic.min(copy.len() as u64) as usize;
    Some(&copy[..count])
}

/// The stack, which has no size after it where it has none before.
fn first_stack(bytes: &[u8]) -> Option<&[u8]>
    ensures { option_map (λ stack. stack.now) result ≡ first_stack bytes.now }
{
    let (size, rest) = first_word(bytes)?;
    if size == 0 {
        Some(&[])
    } else {
        stack_of(size, rest)
    }
}

#[tactic(auto, unfolding(crate::specs::Samples::user_stack))]
fn user_stack<'a>(layout: &Layout, bytes: &'a [u8]) -> Option<&'a [u8]>
    ensures { option_map (λ stack. stack.now) result ≡ user_stack layout.now bytes.now }
{
    if has_bits(layout.sample_type, STACK_USER) {
        first_stack(bytes)
    } else {
        Some(&[])
    }
}

/// What a sample says. `None` where its body ends before its fields.
#[tactic(auto, unfolding(crate::specs::Samples::sample_of))]
pub(crate) fn sample_of<'a>(layout: &Layout, body: &'a [u8]) -> Option<Sample<'a>>
    ensures { option_map sample_value result ≡ sample_of layout.now body.now }
{
    let words = skip(layout.words_size() as u64, body)?;
    let rest = after_passed(layout, words)?;
    let (registers, after) = user_registers(layout, rest)?;
    let stack = user_stack(layout, after)?;
    Some(sample_with(layout, body, registers, stack))
}

/// A sample by its first fields, its registers and its stack.
fn sample_with<'a>(
    layout: &Layout,
    body: &'a [u8],
    registers: Option<UserRegisters<'a>>,
    stack: &'a [u8],
) -> Sample<'a>
    requires { words_size layout.now ≤ length body.now }
    ensures { sample_value result ≡ sample_with layout.now body.now (words_of registers.entry)
        stack.now }
{
    Sample {
        ip: word_in(has_bits(layout.sample_type, IP), body, layout.ip_place()),
        thread: thread_in(has_bits(layout.sample_type, TID), body, layout.tid_place()),
        time: word_in(
            has_bits(layout.sample_type, TIME),
            body,
            layout.time_place(),
        ),
        registers,
        stack,
    }
}
