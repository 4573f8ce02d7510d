//! The fields that values are spelled with, read from the front of an input. They stay there, so no memory is taken.
ghost use Rattle.std.specs.Prelude.{◌≡◌, ◌+◌, ◌^◌, ◌<◌, ◌≤◌, not, length, position, IfOk, IfErr, IfSome, OnOk};
ghost use Rattle.std.specs.Int.{w16, w32, w64};
ghost use Rattle.std.specs.Option.{option_copied};
ghost use Rattle.rdf_types.specs.Limits.{is_name_byte, is_text_byte};
ghost use Rattle.rdf_codec.specs.declared.fault.CodecFault.TheVariants.{Extra, Truncated};
ghost use Rattle.rdf_codec.specs.Lists.{count_at};
ghost use Rattle.rdf_codec.specs.Reading.{left_of, Gives, bytes_at, byte_at, number_at, volume_at, sized_at, text_at, file_at, key_at, value_at, optional_at};

use crate::fault::CodecFault;

/// What is left of an input, and the place of its first byte.
#[derive(Clone, Copy)]
pub struct Input<'a> {
    pub at: u32,
    pub bytes: &'a [u8],
}

impl<'a> Input<'a> {
    // What reading more bytes than are left gives.
    fn cut_off(self) -> CodecFault
        requires { self.at + length self.bytes.now < 2 ^ 32 }
        ensures { result ≡ Truncated (self.entry.at + length self.entry.bytes.now) }
    {
        CodecFault::Truncated {
            at: self.at + self.bytes.len() as u32,
        }
    }

    // The next bytes, so many of them.
    fn front(self, count: u8) -> Result<(&'a [u8], Input<'a>), CodecFault>
        requires { self.at + count < 2 ^ 32 }
        ensures value { Gives (λ x. (x.0.now, left_of x.1)) result (bytes_at count (left_of self.entry)) }
        ensures near { IfOk result (λ x. x.1.at ≡ self.entry.at + count) }
    {
        if self.bytes.len() < count as usize {
            return Err(self.cut_off());
        }
        let (front, bytes) = self.bytes.split_at(count as usize);
        let at = self.at + count as u32;
        Ok((front, Input { at, bytes }))
    }

    // The next `N` bytes, as an array.
    fn array<const N: usize>(self) -> Result<([u8; N], Input<'a>), CodecFault>
        requires at { self.at < 2 ^ 31 }
        requires few { N ≤ 8 }
        ensures value { Gives (λ x. (x.0, left_of x.1)) result (bytes_at N (left_of self.entry)) }
        ensures near { IfOk result (λ x. x.1.at ≡ self.entry.at + N) }
    {
        let Some((front, bytes)) = self.bytes.split_first_chunk() else {
            return Err(self.cut_off());
        };
        let at = self.at + N as u32;
        Ok((*front, Input { at, bytes }))
    }

    /// One byte.
    pub fn byte(self) -> Result<(u8, Input<'a>), CodecFault>
        requires { self.at < 2 ^ 31 }
        ensures value { Gives (λ x. (x.0, left_of x.1)) result (byte_at (left_of self.entry)) }
        ensures near { IfOk result (λ x. x.1.at ≡ self.entry.at + 1) }
    {
        let (bytes, rest) = self.array::<1>()?;
        Ok((bytes[0], rest))
    }

    /// A number of two bytes, the highest first.
    pub fn u16(self) -> Result<(u16, Input<'a>), CodecFault>
        requires { self.at < 2 ^ 31 }
        ensures value { Gives (λ x. (x.0, left_of x.1)) result (number_at w16 (left_of self.entry)) }
        ensures near { IfOk result (λ x. x.1.at ≡ self.entry.at + 2) }
    {
        let (bytes, rest) = self.array()?;
        Ok((u16::from_be_bytes(bytes), rest))
    }

    /// A number of four bytes, the highest first.
    pub fn u32(self) -> Result<(u32, Input<'a>), CodecFault>
        requires { self.at < 2 ^ 31 }
        ensures value { Gives (λ x. (x.0, left_of x.1)) result (number_at w32 (left_of self.entry)) }
        ensures near { IfOk result (λ x. x.1.at ≡ self.entry.at + 4) }
    {
        let (bytes, rest) = self.array()?;
        Ok((u32::from_be_bytes(bytes), rest))
    }

    /// A number of eight bytes, the highest first.
    pub fn u64(self) -> Result<(u64, Input<'a>), CodecFault>
        requires { self.at < 2 ^ 31 }
        ensures value { Gives (λ x. (x.0, left_of x.1)) result (number_at w64 (left_of self.entry)) }
        ensures near { IfOk result (λ x. x.1.at ≡ self.entry.at + 8) }
    {
        let (bytes, rest) = self.array()?;
        Ok((u64::from_be_bytes(bytes), rest))
    }

    /// A number of two bytes, from `least` to `most`.
    #[tactic(auto, unfolding(crate::specs::Lists::count_at))]
    pub fn count(self, least: u16, most: u16) -> Result<(u16, Input<'a>), CodecFault>
        requires { self.at < 2 ^ 31 }
        ensures value { Gives (λ x. (x.0, left_of x.1)) result (count_at least most (left_of self.entry)) }
        ensures limit { IfOk result (λ x. x.0 ≤ most) }
        ensures near { IfOk result (λ x. x.1.at ≡ self.entry.at + 2) }
    {
        let (count, rest) = self.u16()?;
        if count < least || count > most {
            return Err(CodecFault::BadNumber { at: self.at });
        }
        Ok((count, rest))
    }

    /// Nothing may be left.
    pub fn ended(self) -> Result<(), CodecFault>
        ensures ok { OnOk result (length self.entry.bytes.now ≡ 0) }
        ensures err { IfErr result (λ e. (e ≡ Extra self.entry.at) × (0 < length self.entry.bytes.now)) }
    {
        if self.bytes.is_empty() {
            Ok(())
        } else {
            Err(CodecFault::Extra { at: self.at })
        }
    }

    /// A volume's number, 0 to 15.
    #[tactic(auto, unfolding(crate::specs::Reading::volume_at))]
    pub fn volume(self) -> Result<(u8, Input<'a>), CodecFault>
        requires { self.at < 2 ^ 31 }
        ensures value { Gives (λ x. (x.0, left_of x.1)) result (volume_at (left_of self.entry)) }
        ensures limit { IfOk result (λ x. x.0 < 16) }
        ensures near { IfOk result (λ x. x.1.at ≡ self.entry.at + 1) }
    {
        let (number, rest) = self.byte()?;
        if number >= 16 {
            return Err(CodecFault::BadNumber { at: self.at });
        }
        Ok((number, rest))
    }

    // A length of 1 to so many bytes, and the bytes.
    #[tactic(auto, unfolding(crate::specs::Reading::sized_at))]
    fn sized(self, limit: u8) -> Result<(&'a [u8], Input<'a>), CodecFault>
        requires { self.at < 2 ^ 31 }
        ensures value { Gives (λ x. (x.0.now, left_of x.1)) result (sized_at limit (left_of self.entry)) }
        ensures near { IfOk result (λ x. x.1.at ≤ self.entry.at + 1 + limit) }
        ensures few { IfOk result (λ x. length x.0.now ≤ limit) }
    {
        let (length, rest) = self.byte()?;
        if length == 0 || length > limit {
            return Err(CodecFault::BadNumber { at: self.at });
        }
        rest.front(length)
    }

    /// The bytes of a file's name.
    #[tactic(auto, unfolding(crate::specs::Reading::text_at))]
    pub fn file_name(self) -> Result<(&'a [u8], Input<'a>), CodecFault>
        requires { self.at < 2 ^ 31 }
        ensures value { Gives (λ x. (x.0.now, left_of x.1)) result (file_at (left_of self.entry)) }
        ensures near { IfOk result (λ x. x.1.at ≤ self.entry.at + 17) }
    {
        let (bytes, rest) = self.sized(16)?;
        match bad_in_name(bytes) {
            None => Ok((bytes, rest)),
            Some(bad) => Err(CodecFault::BadByte {
                at: self.at + 1 + bad as u32,
            }),
        }
    }

    // The bytes of a key or a value, so many at most.
    #[tactic(auto, unfolding(crate::specs::Reading::text_at))]
    fn text(self, limit: u8) -> Result<(&'a [u8], Input<'a>), CodecFault>
        requires { self.at < 2 ^ 31 }
        ensures value { Gives (λ x. (x.0.now, left_of x.1)) result (text_at is_text_byte limit (left_of self.entry)) }
        ensures near { IfOk result (λ x. x.1.at ≤ self.entry.at + 1 + limit) }
    {
        let (bytes, rest) = self.sized(limit)?;
        match bad_in_text(bytes) {
            None => Ok((bytes, rest)),
            Some(bad) => Err(CodecFault::BadByte {
                at: self.at + 1 + bad as u32,
            }),
        }
    }

    /// The bytes of a key.
    pub fn key(self) -> Result<(&'a [u8], Input<'a>), CodecFault>
        requires { self.at < 2 ^ 31 }
        ensures value { Gives (λ x. (x.0.now, left_of x.1)) result (key_at (left_of self.entry)) }
        ensures near { IfOk result (λ x. x.1.at ≤ self.entry.at + 33) }
    {
        self.text(32)
    }

    /// The bytes of a value.
    pub fn value(self) -> Result<(&'a [u8], Input<'a>), CodecFault>
        requires { self.at < 2 ^ 31 }
        ensures value { Gives (λ x. (x.0.now, left_of x.1)) result (value_at (left_of self.entry)) }
        ensures near { IfOk result (λ x. x.1.at ≤ self.entry.at + 201) }
    {
        self.text(200)
    }

    /// A value behind the tag 1, or the tag 0.
    #[tactic(auto, unfolding(crate::specs::Reading::optional_at))]
    pub fn optional(self) -> Result<(Option<&'a [u8]>, Input<'a>), CodecFault>
        requires { self.at + 1 < 2 ^ 31 }
        ensures value { Gives (λ x. (option_copied x.0, left_of x.1)) result (optional_at (left_of self.entry)) }
        ensures near { IfOk result (λ x. x.1.at ≤ self.entry.at + 202) }
    {
        let (tag, rest) = self.byte()?;
        match tag {
            0 => Ok((None, rest)),
            1 => {
                let (value, rest) = rest.value()?;
                Ok((Some(value), rest))
            }
            _ => Err(CodecFault::BadKind { at: self.at }),
        }
    }
}

// The first byte that is none of a file name's.
fn bad_in_name(bytes: &[u8]) -> Option<usize>
    ensures value { result ≡ position (λ b. not (is_name_byte b)) bytes.now }
    ensures within { IfSome result (λ at. at < length bytes.now) }
{
    bytes
        .iter()
        .position(|b| !(b.is_ascii_lowercase() || b.is_ascii_digit()))
}

// The first byte that is none of a key's or a value's.
fn bad_in_text(bytes: &[u8]) -> Option<usize>
    ensures value { result ≡ position (λ b. not (is_text_byte b)) bytes.now }
    ensures within { IfSome result (λ at. at < length bytes.now) }
{
    bytes.iter().position(|b| !b.is_ascii_graphic())
}
