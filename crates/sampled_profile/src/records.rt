// The records of a file one after another.
ghost use Rattle.std.specs.Prelude.{◌≡◌};
ghost use Rattle.perf_data.specs.Views.{records_left};
ghost use Rattle.sampled_profile.specs.Reading.{ReadsNext};

use crate::profile::ProfileError;
use perf_data::{Record, Records};

/// The next record, and nothing after the last one.
///
/// # Errors
///
/// `Unread` with the error of a record that can't be read.
pub(crate) fn next_record<'a>(records: &mut Records<'a>) -> Result<Option<Record<'a>>, ProfileError>
    ensures { ReadsNext (records_left records.old) result (records_left records.new) }
{
    match records.next() {
        Some(Ok(record)) => Ok(Some(record)),
        Some(Err(error)) => Err(ProfileError::Unread(error)),
        None => Ok(None),
    }
}
