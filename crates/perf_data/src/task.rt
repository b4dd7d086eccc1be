// What the start and the end of a thread say.
ghost use Rattle.std.specs.Prelude.{◌≡◌, ◌≤◌, length};
ghost use Rattle.std.specs.Option.{option_map};
ghost use Rattle.perf_data.specs.Tasks.{task_of};

use crate::sample::Thread;
use memory_image::{u32_at, u64_at};

// how many bytes stand before the fields that identify the event
const TASK_SIZE: usize = 24;

/// A thread that started or ended.
#[derive(Clone, Copy, Debug, PartialEq, Eq)]
pub struct Task {
    /// The thread.
    pub thread: Thread,
    /// The thread that started it, or the one that is told as its parent at its end.
    pub parent: Thread,
    /// The time, in nanoseconds of the event's clock.
    pub time: u64,
}

/// What the start or the end of a thread says. `None` where its body ends before its fields.
pub(crate) fn task_of(body: &[u8]) -> Option<Task>
    ensures { result ≡ task_of body.now }
{
    if body.len() < TASK_SIZE {
        return None;
    }
    Some(Task {
        thread: Thread {
            pid: u32_at(body, 0),
            tid: u32_at(body, 8),
        },
        parent: Thread {
            pid: u32_at(body, 4),
            tid: u32_at(body, 12),
        },
        time: u64_at(body, 16),
    })
}
