// The lines of a sample.
ghost use Rattle.std.specs.Prelude.{◌≡◌, ◌≤◌, ◌==◌, ◌++◌, ◌∷◌, IfOk, List, OnOk, true, ℕ};
ghost use Rattle.std.specs.Option.{option_map};
ghost use Rattle.perf_data.specs.Views.{sample_value};
ghost use Rattle.sampled_profile.specs.Ends.{popped_word, returns_of};
ghost use Rattle.sampled_profile.specs.Frames.{addresses_of};
ghost use Rattle.sampled_profile.specs.Scripts.{decimals, frame_lines, mark_line};
ghost use Rattle.sampled_profile.specs.Scripts.{head_line, place_line, placed_text, sample_lines};
ghost use Rattle.sampled_profile.specs.Scripts.{seconds_text, thread_text, time_text, word_line};
ghost use Rattle.sampled_profile.specs.Walks.{walk_of};

use crate::stack_end::popped_word;
use crate::stack_table::{frame_place, is_signal};
use crate::texts::{address_inside, put_name, put_place, put_root};
use crate::walks::walk_sample;
use perf_data::{Sample, Thread};
use stack_deliver::{FrameCache, Room};
use stack_report::Report;
use stack_snapshot::{Origin, Origins};
use std::alloc::AllocError;

const NANOSECONDS: u64 = 1_000_000_000;

/// Puts the last decimal digits of a number, as many as `count` says, from the highest down.
fn put_decimals(report: &mut Report, count: u32, number: u64) -> Result<(), AllocError>
    ensures { OnOk result (report.new ≡ report.old ++ decimals count number) }
{
    if count == 0 {
        return Ok(());
    }
    put_decimals(report, count - 1, number / 10)?;
    report.put_bytes(&[b'0' + (number % 10) as u8])
}

/// Puts a process and a thread last.
fn put_thread(report: &mut Report, thread: Option<Thread>) -> Result<(), AllocError>
    ensures { OnOk result (report.new ≡ report.old ++ thread_text thread) }
{
    match thread {
        Some(thread) => {
            report.put_count(" ", thread.pid as usize)?;
            report.put_count("/", thread.tid as usize)
        }
        None => report.put(" 0/0"),
    }
}

/// Puts nanoseconds last, as seconds.
fn put_seconds(report: &mut Report, time: u64) -> Result<(), AllocError>
    ensures { OnOk result (report.new ≡ report.old ++ seconds_text time) }
{
    report.put_count(" ", (time / NANOSECONDS) as usize)?;
    report.put(".")?;
    put_decimals(report, 9, time % NANOSECONDS)
}

/// Puts when a sample was taken last.
fn put_time(report: &mut Report, time: Option<u64>) -> Result<(), AllocError>
    ensures { OnOk result (report.new ≡ report.old ++ time_text time) }
{
    match time {
        Some(time) => put_seconds(report, time),
        None => put_seconds(report, 0),
    }
}

/// Puts the first line of a sample last.
#[tactic(auto, unfolding(crate::specs::Scripts::head_line))]
fn put_head(report: &mut Report, name: Option<&[u8]>, sample: &Sample<'_>) -> Result<(), AllocError>
    ensures { OnOk result (report.new ≡ report.old ++
        head_line (option_map (λ n. n.now) name.entry) (sample_value sample.now)) }
{
    put_root(report, name)?;
    put_thread(report, sample.thread)?;
    put_time(report, sample.time)?;
    report.put(": 1 samples:")?;
    report.end_line()
}

/// Puts a frame's place last, how far past it the address lies, and the file.
fn put_placed(
    report: &mut Report,
    origin: Option<&Origin>,
    place: u64,
    address: u64,
) -> Result<(), AllocError>
    ensures { OnOk result (report.new ≡ report.old ++
        placed_text (option_map (λ o. o.now) origin.entry) place address) }
{
    let Some(file) = origin else {
        return report.put(" [unknown] ([unknown])");
    };
    report.put(" ")?;
    put_place(report, origin, place)?;
    report.put_field("+", address.saturating_sub(place))?;
    report.put(" (")?;
    put_name(report, file.path())?;
    report.put(")")
}

/// Puts the line of an address last, in a frame that is at this place.
fn put_place_line(
    report: &mut Report,
    origins: &Origins,
    place: u64,
    address: u64,
) -> Result<(), AllocError>
    ensures { OnOk result (report.new ≡ report.old ++ place_line origins.now place address) }
{
    report.put_field("\t", address)?;
    put_placed(report, origins.at(address), place, address)?;
    report.end_line()
}

/// Puts the line of the frame at a return address last, unless that is 0, and answers whether its caller
/// was interrupted where it stands.
fn put_frame_line(
    report: &mut Report,
    cache: &mut FrameCache<'_, '_>,
    origins: &Origins,
    interrupted: bool,
    address: u64,
) -> Result<bool, AllocError>
    ensures lines { IfOk result (λ signal. (outer : List ℕ) → report.new ++
        frame_lines cache.old origins.now (addresses_of cache.old signal outer) ≡ report.old ++
        frame_lines cache.old origins.now (addresses_of cache.old interrupted (address ∷ outer))) }
    ensures same { cache.new ≡ cache.old }
{
    if address == 0 {
        return Ok(false);
    }
    let asked = address_inside(address, interrupted);
    let function = cache.described_function(asked);
    put_place_line(report, origins, frame_place(asked, function), asked)?;
    Ok(is_signal(function))
}

/// Puts the lines of the states in a room last, the innermost first. At the first of them the thread was
/// interrupted.
fn put_frame_lines(
    report: &mut Report,
    cache: &mut FrameCache<'_, '_>,
    origins: &Origins,
    room: &Room,
) -> Result<(), AllocError>
    ensures lines { OnOk result (report.new ≡ report.old ++ frame_lines cache.old origins.now
        (addresses_of cache.old true (returns_of room.now.visited))) }
    ensures same { cache.new ≡ cache.old }
{
    let mut interrupted = true;
    for i in 0..room.visited_len() {
        let state = room.visited(i).unwrap();
        interrupted = put_frame_line(report, cache, origins, interrupted, state.ra)?;
    }
    Ok(())
}

/// Puts a word in a frame's place last.
fn put_word_line(report: &mut Report, word: &str) -> Result<(), AllocError>
    ensures { OnOk result (report.new ≡ report.old ++ word_line word.now) }
{
    report.put("\t0x0 ")?;
    report.put(word)?;
    report.put(" ([unknown])")?;
    report.end_line()
}

/// Puts a word in a frame's place last, where there is one.
fn put_mark_line(report: &mut Report, word: Option<&'static str>) -> Result<(), AllocError>
    ensures { OnOk result (report.new ≡ report.old ++
        mark_line (option_map (λ w. w.now) word.entry)) }
{
    match word {
        Some(word) => put_word_line(report, word),
        None => Ok(()),
    }
}

/// Puts the lines of a sample of a thread of this name last.
///
/// # Errors
///
/// `AllocError` where memory ran out.
#[tactic(auto, unfolding(crate::specs::Scripts::sample_lines))]
pub(crate) fn put_sample_lines(
    report: &mut Report,
    cache: &mut FrameCache<'_, '_>,
    origins: &Origins,
    limit: u32,
    name: Option<&[u8]>,
    sample: &Sample<'_>,
    room: &mut Room,
) -> Result<(), AllocError>
    requires { limit ≤ room.old.limit }
    ensures text { OnOk result (report.new ≡ report.old ++ sample_lines cache.old origins.now
        (option_map (λ n. n.now) name.entry) (sample_value sample.now)
        (walk_of cache.old limit (sample_value sample.now))) }
    ensures places { room.new.limit ≡ room.old.limit }
    ensures same { cache.new ≡ cache.old }
{
    put_head(report, name, sample)?;
    let marks = walk_sample(cache, limit, sample, room);
    put_mark_line(report, popped_word(marks.popped))?;
    put_frame_lines(report, cache, origins, room)?;
    put_mark_line(report, marks.end.word())?;
    report.end_line()
}
