// Numbers whose Debug text is in another base.
use std::fmt;
use std::fmt::{Binary, LowerHex};

/// A number whose Debug text is in lower hexadecimal digits.
#[derive(Drop)]
pub struct HexNum<N: LowerHex>(pub N);

impl<N: LowerHex> fmt::Debug for HexNum<N> {
    fn fmt<W: fmt::Write>(&self, f: &mut fmt::Formatter<W>) -> fmt::Result {
        LowerHex::fmt(&self.0, f)
    }
}

/// A number whose Debug text is in binary digits.
#[derive(Drop)]
pub struct BinNum<N: Binary>(pub N);

impl<N: Binary> fmt::Debug for BinNum<N> {
    fn fmt<W: fmt::Write>(&self, f: &mut fmt::Formatter<W>) -> fmt::Result {
        Binary::fmt(&self.0, f)
    }
}
