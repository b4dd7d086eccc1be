//! Reading call frame bytes from left to right.
//!
//! DWARF 5 section 7: numbers are little-endian here, and section 7.6 has LEB128.

ghost use Rattle.std.specs.Prelude.{◌≡◌, ◌==◌, ◌+◌, ◌<◌, ◌^◌, length, position, IfSome};
ghost use Rattle.unwind_definitions.specs.Input.{signed_word};

use unwind_definitions::Error;

/// Bytes of a table that are still to be read, and where they stand.
///
/// Each read takes its bytes from the front, the lowest first. A refused read leaves the cursor as
/// it was. Source: DWARF 5 section 7.
#[derive(Clone, Copy)]
pub struct Cursor<'a> {
    bytes: &'a [u8],
    // the address of the table's first byte
    base: u64,
    // how many of the table's bytes stand before these
    offset: u64,
    ghost in_range: { offset + length bytes.now < 2 ^ 64 },
}

impl<'a> Cursor<'a> {
    ghost use Rattle.std.specs.Prelude.{IfOk, OnErr, ◌*◌, ◌-◌, ◌≤◌};
    ghost use Rattle.std.specs.Int.{w8, w16, w32, w64, cast_unsigned};
    ghost use Rattle.unwind_definitions.specs.Input.{number, uleb, uleb_from, sleb, sleb_from};
    ghost use Rattle.unwind_definitions.specs.Input.{skip, split, text, address_of};
    ghost use Rattle.unwind_definitions.specs.Pointers.{signed_number};
    ghost use Rattle.encoded_pointers.specs.Readers.{GivesOr, checked_skip};
    ghost use Rattle.encoded_pointers.specs.CursorViews.{at};

    /// A cursor at the first of `bytes`, whose address is `address`.
    pub fn new(bytes: &'a [u8], address: u64) -> Cursor<'a>
        ensures { at result ≡ record { base = address; offset = 0; bytes = bytes.now } }
    {
        Cursor {
            bytes,
            base: address,
            offset: 0,
        }
    }

    /// The bytes of a table from an offset on, of which there are none after its end. The table's
    /// first byte has the address `address`.
    pub fn from_offset(bytes: &'a [u8], address: u64, offset: u64) -> Cursor<'a>
        ensures { at result ≡ skip offset
            (record { base = address; offset = 0; bytes = bytes.now }) }
    {
        let start = offset.min(bytes.len() as u64);
        Cursor {
            bytes: &bytes[start as usize..],
            base: address,
            offset,
        }
    }

    /// The next byte.
    ///
    /// # Errors
    ///
    /// `UnexpectedEof` where no byte is left.
    pub fn read_u8(&mut self) -> Result<u8, Error>
        ensures reads { GivesOr (λ x. x) result (number w8 (at self.old)) (at self.new) }
        ensures unchanged { OnErr result (at self.new ≡ at self.old) }
        ensures passes { IfOk result (λ _.
            length (at self.new).bytes < length (at self.old).bytes) }
    {
        if self.bytes.is_empty() {
            return Err(Error::UnexpectedEof);
        }
        let byte = self.bytes[0];
        self.bytes = &self.bytes[1..];
        self.offset += 1;
        Ok(byte)
    }

    /// The next two bytes, the lowest first.
    ///
    /// # Errors
    ///
    /// `UnexpectedEof` where fewer are left.
    pub fn read_u16(&mut self) -> Result<u16, Error>
        ensures reads { GivesOr (λ x. x) result (number w16 (at self.old)) (at self.new) }
        ensures unchanged { OnErr result (at self.new ≡ at self.old) }
        ensures passes { IfOk result (λ _.
            length (at self.new).bytes < length (at self.old).bytes) }
    {
        if self.bytes.len() < 2 {
            return Err(Error::UnexpectedEof);
        }
        let (front, rest) = self.bytes.split_at(2);
        let number = u16::from_le_bytes([front[0], front[1]]);
        self.bytes = rest;
        self.offset += 2;
        Ok(number)
    }

    /// The next four bytes, the lowest first.
    ///
    /// # Errors
    ///
    /// `UnexpectedEof` where fewer are left.
    pub fn read_u32(&mut self) -> Result<u32, Error>
        ensures reads { GivesOr (λ x. x) result (number w32 (at self.old)) (at self.new) }
        ensures unchanged { OnErr result (at self.new ≡ at self.old) }
    {
        if self.bytes.len() < 4 {
            return Err(Error::UnexpectedEof);
        }
        let (front, rest) = self.bytes.split_at(4);
        let number = u32::from_le_bytes([front[0], front[1], front[2], front[3]]);
        self.bytes = rest;
        self.offset += 4;
        Ok(number)
    }

    /// The next eight bytes, the lowest first.
    ///
    /// # Errors
    ///
    /// `UnexpectedEof` where fewer are left.
    pub fn read_u64(&mut self) -> Result<u64, Error>
        ensures reads { GivesOr (λ x. x) result (number w64 (at self.old)) (at self.new) }
        ensures unchanged { OnErr result (at self.new ≡ at self.old) }
    {
        if self.bytes.len() < 8 {
            return Err(Error::UnexpectedEof);
        }
        let (front, rest) = self.bytes.split_at(8);
        let number = u64::from_le_bytes([
            front[0], front[1], front[2], front[3], front[4], front[5], front[6], front[7],
        ]);
        self.bytes = rest;
        self.offset += 8;
        Ok(number)
    }

    /// The next byte as a signed number.
    ///
    /// # Errors
    ///
    /// `UnexpectedEof` where no byte is left.
    pub fn read_i8(&mut self) -> Result<i8, Error>
        ensures reads { GivesOr (cast_unsigned w64) result (signed_number w8 8 (at self.old))
            (at self.new) }
        ensures unchanged { OnErr result (at self.new ≡ at self.old) }
    {
        let number = self.read_u8()?;
        Ok(number.cast_signed())
    }

    /// The next two bytes as a signed number, the lowest first.
    ///
    /// # Errors
    ///
    /// `UnexpectedEof` where fewer are left.
    pub fn read_i16(&mut self) -> Result<i16, Error>
        ensures reads { GivesOr (cast_unsigned w64) result (signed_number w16 16 (at self.old))
            (at self.new) }
        ensures unchanged { OnErr result (at self.new ≡ at self.old) }
    {
        let number = self.read_u16()?;
        Ok(number.cast_signed())
    }

    /// The next four bytes as a signed number, the lowest first.
    ///
    /// # Errors
    ///
    /// `UnexpectedEof` where fewer are left.
    pub fn read_i32(&mut self) -> Result<i32, Error>
        ensures reads { GivesOr (cast_unsigned w64) result (signed_number w32 32 (at self.old))
            (at self.new) }
        ensures unchanged { OnErr result (at self.new ≡ at self.old) }
    {
        let number = self.read_u32()?;
        Ok(number.cast_signed())
    }

    /// The next eight bytes as a signed number, the lowest first.
    ///
    /// # Errors
    ///
    /// `UnexpectedEof` where fewer are left.
    pub fn read_i64(&mut self) -> Result<i64, Error>
        ensures reads { GivesOr (cast_unsigned w64) result (signed_number w64 64 (at self.old))
            (at self.new) }
        ensures unchanged { OnErr result (at self.new ≡ at self.old) }
    {
        let number = self.read_u64()?;
        Ok(number.cast_signed())
    }

    // An unsigned number of which at most `left` bytes may come.
    // After a fault the cursor is unspecified.
    fn uleb_left(&mut self, left: u8) -> Result<u64, Error>
        requires low { 1 ≤ left }
        requires high { left ≤ 10 }
        ensures reads { GivesOr (λ x. x) result (uleb_from left (at self.old)) (at self.new) }
        ensures bound { IfOk result (λ v. v < 2 ^ (7 * left - 6)) }
    {
        let byte = self.read_u8()?;
        if left == 1 {
            if byte <= 1 {
                return Ok(byte as u64);
            }
            return Err(Error::BadUnsignedLeb128);
        }
        if byte < 128 {
            return Ok(byte as u64);
        }
        let high = self.uleb_left(left - 1)?;
        Ok((byte - 128) as u64 + 128 * high)
    }

    /// An unsigned LEB128 number.
    ///
    /// # Errors
    ///
    /// `UnexpectedEof` where the bytes end before the number does, and `BadUnsignedLeb128` where
    /// its tenth byte is neither 00 nor 01. DWARF 5 section 7.6.
    pub fn read_uleb128(&mut self) -> Result<u64, Error>
        ensures reads { GivesOr (λ x. x) result (uleb (at self.old)) (at self.new) }
        ensures unchanged { OnErr result (at self.new ≡ at self.old) }
    {
        let mut rest = *self;
        let byte = rest.read_u8()?;
        // most numbers have one byte
        if byte < 128 {
            *self = rest;
            return Ok(byte as u64);
        }
        self.read_long_uleb128()
    }

    // The same, whatever its length.
    fn read_long_uleb128(&mut self) -> Result<u64, Error>
        ensures reads { GivesOr (λ x. x) result (uleb (at self.old)) (at self.new) }
        ensures unchanged { OnErr result (at self.new ≡ at self.old) }
    {
        let mut rest = *self;
        let number = rest.uleb_left(10)?;
        *self = rest;
        Ok(number)
    }

    // A signed number, as a word, of which at most `left` bytes may come.
    // After a fault the cursor is unspecified.
    fn sleb_left(&mut self, left: u8) -> Result<u64, Error>
        requires low { 1 ≤ left }
        requires high { left ≤ 10 }
        ensures { GivesOr (λ x. x) result (sleb_from left (at self.old)) (at self.new) }
    {
        let byte = self.read_u8()?;
        if left == 1 {
            return match byte {
                0x00 => Ok(0),
                0x7f => Ok(u64::MAX),
                _ => Err(Error::BadSignedLeb128),
            };
        }
        if byte < 128 {
            return Ok(signed_seven_bits(byte));
        }
        let high = self.sleb_left(left - 1)?;
        Ok(high.wrapping_mul(128).wrapping_add((byte - 128) as u64))
    }

    /// A signed LEB128 number.
    ///
    /// # Errors
    ///
    /// `UnexpectedEof` where the bytes end before the number does, and `BadSignedLeb128` where its
    /// tenth byte is neither 00 nor 7f. DWARF 5 section 7.6.
    pub fn read_sleb128(&mut self) -> Result<i64, Error>
        ensures reads { GivesOr (cast_unsigned w64) result (sleb (at self.old)) (at self.new) }
        ensures unchanged { OnErr result (at self.new ≡ at self.old) }
    {
        let word = self.read_sleb128_word()?;
        Ok(word.cast_signed())
    }

    /// A signed LEB128 number, as a word: numbers below 0 count from 2^64.
    ///
    /// # Errors
    ///
    /// Those of [`Cursor::read_sleb128`].
    pub fn read_sleb128_word(&mut self) -> Result<u64, Error>
        ensures reads { GivesOr (λ x. x) result (sleb (at self.old)) (at self.new) }
        ensures unchanged { OnErr result (at self.new ≡ at self.old) }
    {
        let mut rest = *self;
        let byte = rest.read_u8()?;
        // most numbers have one byte
        if byte < 128 {
            *self = rest;
            return Ok(signed_seven_bits(byte));
        }
        self.read_long_sleb128_word()
    }

    // The same, whatever its length.
    fn read_long_sleb128_word(&mut self) -> Result<u64, Error>
        ensures reads { GivesOr (λ x. x) result (sleb (at self.old)) (at self.new) }
        ensures unchanged { OnErr result (at self.new ≡ at self.old) }
    {
        let mut rest = *self;
        let word = rest.sleb_left(10)?;
        *self = rest;
        Ok(word)
    }

    /// Passes over `count` bytes.
    ///
    /// # Errors
    ///
    /// `UnexpectedEof` where fewer are left.
    pub fn skip(&mut self, count: u64) -> Result<(), Error>
        ensures reads { GivesOr (λ x. tt) result (checked_skip count (at self.old)) (at self.new) }
        ensures unchanged { OnErr result (at self.new ≡ at self.old) }
    {
        if count > self.bytes.len() as u64 {
            return Err(Error::UnexpectedEof);
        }
        self.bytes = &self.bytes[count as usize..];
        self.offset += count;
        Ok(())
    }

    /// The next `count` bytes, as a cursor of their own.
    ///
    /// # Errors
    ///
    /// `UnexpectedEof` where fewer are left.
    pub fn split(&mut self, count: u64) -> Result<Cursor<'a>, Error>
        ensures reads { GivesOr at result (split count (at self.old)) (at self.new) }
        ensures unchanged { OnErr result (at self.new ≡ at self.old) }
    {
        if count > self.bytes.len() as u64 {
            return Err(Error::UnexpectedEof);
        }
        let (front, rest) = self.bytes.split_at(count as usize);
        let part = Cursor {
            bytes: front,
            base: self.base,
            offset: self.offset,
        };
        self.bytes = rest;
        self.offset += count;
        Ok(part)
    }

    /// The bytes before the next zero byte, which is passed too.
    ///
    /// # Errors
    ///
    /// `UnexpectedEof` where no zero byte is left.
    pub fn read_text(&mut self) -> Result<&'a [u8], Error>
        ensures reads { GivesOr (λ s. s.now) result (text (at self.old)) (at self.new) }
        ensures unchanged { OnErr result (at self.new ≡ at self.old) }
    {
        match first_zero(self.bytes) {
            None => Err(Error::UnexpectedEof),
            Some(end) => {
                let front = &self.bytes[..end];
                self.bytes = &self.bytes[end + 1..];
                self.offset += end as u64 + 1;
                Ok(front)
            }
        }
    }

    /// The bytes that are left.
    pub fn bytes(&self) -> &'a [u8]
        ensures { result.now ≡ (at self.now).bytes }
    {
        self.bytes
    }

    /// How many of the table's bytes stand before the next one.
    pub fn offset(&self) -> u64
        ensures { result ≡ (at self.now).offset }
    {
        self.offset
    }

    /// Whether nothing is left.
    pub fn is_empty(&self) -> bool
        ensures { result ≡ (length (at self.now).bytes == 0) }
    {
        self.bytes.is_empty()
    }

    /// How many bytes are left.
    pub fn len(&self) -> usize
        ensures { result ≡ length (at self.now).bytes }
    {
        self.bytes.len()
    }

    /// The address of the next byte.
    pub fn address(&self) -> u64
        ensures { result ≡ address_of (at self.now) }
    {
        self.base.wrapping_add(self.offset)
    }
}

// The index of the first zero byte.
fn first_zero(bytes: &[u8]) -> Option<usize>
    ensures is { result ≡ position (λ b. b == 0) bytes.now }
    ensures within { IfSome result (λ n. n < length bytes.now) }
{
    bytes.iter().position(|byte| *byte == 0)
}

// A signed number of seven bits, as a word.
fn signed_seven_bits(byte: u8) -> u64
    requires { byte < 128 }
    ensures { result ≡ signed_word 7 byte }
{
    if byte < 64 {
        byte as u64
    } else {
        u64::MAX - 127 + byte as u64
    }
}
