/// A function of a section, or a range of code that one opcode describes.
#[derive(Clone, Debug, PartialEq, Eq, Hash, Drop)]
pub struct Function {
    /// Where the function begins, relative to the module's base.
    pub start_address: u32,
    /// Where the next function begins, or the next page after the last one of a page. So the
    /// padding after a function belongs to it.
    pub end_address: u32,
    /// How the function's frame is undone. It means different things on different machines: see
    /// [`opcodes`](crate::opcodes).
    pub opcode: u32,
}
