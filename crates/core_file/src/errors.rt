// Why bytes are no core file, and why an image takes no segments.

/// Why bytes are no core file of x86-64. The first that holds, in this order, is the one that is reported.
#[derive(Clone, Copy, Debug, PartialEq, Eq, thiserror::Error)]
pub enum CoreError {
    /// The bytes don't begin with an ELF header of 64 bytes that names the form of 64 bits with the lowest byte first, a
    /// core file, the machine x86-64 and program headers of 56 bytes.
    #[error("the bytes don't begin with the header of a core file of x86-64")]
    Header,
    /// The number of program headers doesn't stand in the ELF header, since it is 65,535 or more.
    #[error("the core file has too many program headers")]
    ManySegments,
    /// The program headers, or the bytes of a segment of memory or of notes, don't lie within the file.
    #[error("a segment of the core file passes the file's end")]
    Segments,
    /// A note doesn't lie within its segment.
    #[error("a note of the core file passes its segment's end")]
    Notes,
}

/// Why an image doesn't take the segments of a core file.
#[derive(Clone, Copy, Debug, PartialEq, Eq, thiserror::Error)]
pub enum AddError {
    /// The image refuses the segment of this index, for another cause than that there is no memory.
    #[error("the image refuses segment {0}")]
    Region(usize),
    /// There was no memory to note a region.
    #[error("no memory")]
    NoMemory,
}
