// Why bytes aren't read as a perf.data file, and why reading stops at a record.

/// Why bytes aren't read as a perf.data file, or at which record reading stops.
///
/// The first that holds, in this order, is the one that is reported. The numbers are offsets in the file.
#[derive(Clone, Copy, Debug, PartialEq, Eq, thiserror::Error)]
pub enum PerfError {
    /// The file was written by a machine of the other byte order.
    #[error("the perf.data file has the other byte order")]
    ByteOrder,
    /// The file was written to a pipe: it has no sections.
    #[error("the perf.data file was written to a pipe")]
    Pipe,
    /// The bytes don't begin with the header of a perf.data file.
    #[error("the bytes don't begin with the header of a perf.data file")]
    Header,
    /// The section of the records has no size: perf writes it when the recording ends.
    #[error("the recording of the perf.data file didn't end")]
    Unfinished,
    /// The attributes of the events don't lie within the file, there are none, or their size isn't the one that they say.
    #[error("the attributes of the perf.data file aren't whole")]
    Attributes,
    /// The attributes of two events give samples of different layouts.
    #[error("the events of the perf.data file have samples of different layouts")]
    Layouts,
    /// Samples have registers that x86-64 doesn't have: a machine of another kind wrote the file.
    #[error("the samples of the perf.data file have registers of another machine")]
    Machine,
    /// The section of the records doesn't lie within the file.
    #[error("the records of the perf.data file pass its end")]
    Records,
    /// The record at this offset passes the end of the records.
    #[error("the record at byte {0} passes the end of the records")]
    Cut(u64),
    /// The record at this offset has a size below that of its header.
    #[error("the record at byte {0} is smaller than its header")]
    Size(u64),
    /// The record at this offset ends before the fields that it should have.
    #[error("the record at byte {0} ends before its fields")]
    Body(u64),
    /// The record at this offset has compressed records.
    #[error("the record at byte {0} is compressed")]
    Compressed(u64),
    /// The record at this offset is followed by bytes that are no record.
    #[error("the record at byte {0} is followed by bytes that are no record")]
    Trailing(u64),
}
