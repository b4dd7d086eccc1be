//! A sample of what the contracts of this crate cite. Nothing of it runs.
ghost use Rattle.std.specs.Prelude.{◌≡◌, Ok};
ghost use Rattle.perf_data.specs.Registers.{context_of};
ghost use Rattle.perf_data.specs.FileValue.{perf_of};
ghost use Rattle.perf_data.specs.Sample.{one_sample, one_sample_value, registers, context};

/// A perf.data file of 440 bytes, with a mapping, a name, a record that isn't read and a sample, is read as what it holds,
/// and the sample's registers by their columns.
pub fn file_of_one_sample_is_read()
    ensures file { perf_of one_sample ≡ Ok one_sample_value }
    ensures columns { context_of registers ≡ context }
{}
