ghost use Rattle.std.specs.Prelude.{◌≡◌, ℕ, ◌+◌, ◌^◌, ◌<◌, length};

/// The place of an item that doesn't fit into what is left of the bytes.
#[derive(Clone, Copy)]
pub struct Cut(pub u32);

/// Where a reader is: a place, and the bytes from there on.
#[derive(Clone, Copy)]
pub struct Cursor<'a> {
    pub rest: &'a [u8],
    pub place: u32,
    pub ghost fits: { place + length rest.now < 2 ^ 32 },
}

impl<'a> Cursor<'a> {
    ghost use Rattle.std.specs.Int.{w8, w16, w32, w64};
    ghost use Rattle.dj_cursor.specs.Steps.{never, Gives};
    ghost use Rattle.dj_cursor.specs.Reading.{start_of, cursor_at, at_end, bytes_at, number_at};
    ghost use Rattle.dj_cursor.specs.Views.{cursor_of};

    /// All of the bytes, from place 0 on.
    pub fn start(bytes: &'a [u8]) -> Cursor<'a>
        requires { length bytes.now < 2 ^ 32 }
        ensures { cursor_of result ≡ start_of bytes.now }
    {
        Cursor {
            rest: bytes,
            place: 0,
        }
    }

    /// The bytes from this place on; past their end there are none.
    pub fn at(bytes: &'a [u8], place: u32) -> Cursor<'a>
        requires { length bytes.now < 2 ^ 32 }
        ensures { cursor_of result ≡ cursor_at place bytes.now }
    {
        let start = bytes.len().min(place as usize);
        Cursor {
            rest: &bytes[start..],
            place,
        }
    }

    /// Whether no bytes are left.
    pub fn is_at_end(self) -> bool
        ensures { result ≡ at_end (cursor_of self.entry) }
    {
        self.rest.is_empty()
    }

    /// This many bytes.
    pub fn bytes_at(self, len: u32) -> Result<(&'a [u8], Cursor<'a>), Cut>
        ensures { Gives never (λ x. (x.0.now, cursor_of x.1)) result
            (bytes_at len (cursor_of self.entry)) }
    {
        if self.rest.len() < len as usize {
            return Err(Cut(self.place));
        }
        let (prefix, rest) = self.rest.split_at(len as usize);
        Ok((
            prefix,
            Cursor {
                rest,
                place: self.place + len,
            },
        ))
    }

    /// A byte.
    pub fn u8_at(self) -> Result<(u8, Cursor<'a>), Cut>
        ensures { Gives never (λ x. (x.0, cursor_of x.1)) result
            (number_at w8 (cursor_of self.entry)) }
    {
        let (bytes, after) = self.bytes_at(1)?;
        Ok((u8::from_be_bytes([bytes[0]]), after))
    }

    /// A number of two bytes.
    pub fn u16_at(self) -> Result<(u16, Cursor<'a>), Cut>
        ensures { Gives never (λ x. (x.0, cursor_of x.1)) result
            (number_at w16 (cursor_of self.entry)) }
    {
        let (bytes, after) = self.bytes_at(2)?;
        Ok((u16::from_be_bytes([bytes[0], bytes[1]]), after))
    }

    /// A number of four bytes.
    pub fn u32_at(self) -> Result<(u32, Cursor<'a>), Cut>
        ensures { Gives never (λ x. (x.0, cursor_of x.1)) result
            (number_at w32 (cursor_of self.entry)) }
    {
        let (bytes, after) = self.bytes_at(4)?;
        Ok((
            u32::from_be_bytes([bytes[0], bytes[1], bytes[2], bytes[3]]),
            after,
        ))
    }

    /// A number of eight bytes.
    pub fn u64_at(self) -> Result<(u64, Cursor<'a>), Cut>
        ensures { Gives never (λ x. (x.0, cursor_of x.1)) result
            (number_at w64 (cursor_of self.entry)) }
    {
        let (b, after) = self.bytes_at(8)?;
        let bytes = [b[0], b[1], b[2], b[3], b[4], b[5], b[6], b[7]];
        Ok((u64::from_be_bytes(bytes), after))
    }
}
