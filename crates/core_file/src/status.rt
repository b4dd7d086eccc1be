// What a note tells of a thread. Linux's `struct elf_prstatus` on x86-64.
ghost use Rattle.std.specs.Prelude.{◌≡◌, ◌≤◌, ◌<◌, ◌==◌, length, position, IfSome};
ghost use Rattle.core_file.specs.ThreadStatus.{name_of, register_at, context_in, is_thread};
ghost use Rattle.core_file.specs.ThreadStatus.{thread_of};
ghost use Rattle.core_file.specs.Left.{note_of};

use crate::notes::NoteEntry;
use memory_image::u64_at;
use unwind_arch::x86_64::Context;

const NT_PRSTATUS: u32 = 1;

// where the registers begin, and how many bytes there are up to the last one that is read, SS
const REGISTERS_OFFSET: usize = 112;

const STATUS_SIZE: usize = 280;

/// The register at a place of the registers.
fn register_at(status: &[u8], place: usize) -> u64
    requires size { 280 ≤ length status.now }
    requires place { place < 21 }
    ensures { result ≡ register_at status.now place }
{
    u64_at(status, REGISTERS_OFFSET + 8 * place)
}

/// The registers of a thread by its status. The registers of `struct user_regs_struct` stand in the order r15 r14 r13
/// r12 rbp rbx r11 r10 r9 r8 rax rcx rdx rsi rdi orig_rax rip cs eflags rsp ss.
fn context_in(status: &[u8]) -> Context
    requires { 280 ≤ length status.now }
    ensures { result ≡ context_in status.now }
{
    Context {
        registers: [
            register_at(status, 10),
            register_at(status, 12),
            register_at(status, 11),
            register_at(status, 5),
            register_at(status, 13),
            register_at(status, 14),
            register_at(status, 4),
            register_at(status, 19),
            register_at(status, 9),
            register_at(status, 8),
            register_at(status, 7),
            register_at(status, 6),
            register_at(status, 3),
            register_at(status, 2),
            register_at(status, 1),
            register_at(status, 0),
        ],
        ra: register_at(status, 16),
        mcxsr: 0,
        fcw: 0,
    }
}

/// Where the first zero byte stands.
pub(crate) fn zero_in(bytes: &[u8]) -> Option<usize>
    ensures place { result ≡ position (λ b. b == 0) bytes.now }
    ensures within { IfSome result (λ place. place < length bytes.now) }
{
    bytes.iter().position(|byte| *byte == 0)
}

impl<'a> NoteEntry<'a> {
    /// The name up to a zero byte.
    pub(crate) fn name_text(&self) -> &'a [u8]
        ensures { result.now ≡ name_of (note_of self.now) }
    {
        match zero_in(self.name) {
            Some(end) => &self.name[..end],
            None => self.name,
        }
    }

    /// Whether it tells of a thread, with all of the registers.
    fn is_thread(&self) -> bool
        ensures { result ≡ is_thread (note_of self.now) }
    {
        self.kind == NT_PRSTATUS
            && self.name_text() == b"CORE".as_slice()
            && self.description.len() >= STATUS_SIZE
    }

    /// The registers of the thread of which it tells.
    #[tactic(auto, unfolding(crate::specs::ThreadStatus::thread_of))]
    pub(crate) fn thread(&self) -> Option<Context>
        ensures { result ≡ thread_of (note_of self.now) }
    {
        if self.is_thread() {
            Some(context_in(self.description))
        } else {
            None
        }
    }
}
