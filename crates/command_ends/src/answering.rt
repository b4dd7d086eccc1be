// What a command writes, and the status that it then has.
ghost use Rattle.std.specs.Prelude.{◌≡◌, ◌≢◌, ◌<◌, ◌⊎◌, [], length};
ghost use Rattle.std.specs.Io.KnownBytes.{Appends};
ghost use Rattle.memory_image.specs.Ends.{Rose};
ghost use Rattle.command_ends.specs.Ends.{WritesFront};
ghost use Rattle.command_ends.specs.Verdicts.{Verdict, IsReadyOrFailed, Tells};

use crate::status::Status;
use crate::streams::write_all;
use memory_image::{Failed, Sink};

/// Writes the text of an answer, and gives its status, or `WriteFault` where a write failed.
pub fn write_answer<O: Sink>(output: &mut O, status: Status, text: &[u8]) -> Status
    ensures done { (result ≡ status) × Appends (O.holds output.old) (O.holds output.new) text.now ⊎
        (result ≡ Status.WriteFault) ×
        WritesFront (O.holds output.old) (O.holds output.new) text.now }
    ensures fault { result ≢ status → Rose (O.faults output.old) (O.faults output.new) }
    ensures some { result ≢ status → 0 < length text.now }
    // An answer that is due, or silent where memory or the source failed, is reported.
    ensures told { (due : Verdict) → IsReadyOrFailed due status text.now →
        ((status ≡ Status.Memory) ⊎ (status ≡ Status.ReadFault) → text.now ≡ []) →
        status ≢ Status.WriteFault →
        Tells due result (O.holds output.old) (O.holds output.new) }
{
    match write_all(output, text) {
        Ok(()) => status,
        Err(Failed) => Status::WriteFault,
    }
}
