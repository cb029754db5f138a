//! A source: its bytes, which are UTF-8, with its number and its name.

ghost use Rattle.std.specs.Prelude.{◌≤◌, length};
ghost use Rattle.std.specs.Str.{IsUtf8};
ghost use Rattle.scw_text.specs.declared.source.TheConstants.{MAX_SOURCE_BYTES};

use crate::place::Place;
use crate::text::{Bytes, Text};

/// The most bytes of a source, 1 MiB: more than any source that a person writes, and so few that each
/// place in it, and each line and column, fits a `u32`.
pub const MAX_SOURCE_BYTES: usize = 1_048_576;

/// Why bytes are no source.
#[derive(Clone, Copy, Debug, PartialEq, Eq)]
pub enum TextFault {
    /// The bytes are not UTF-8.
    BadUtf8 {
        /// How many bytes stand before the first that begins no character.
        place: u32,
    },
    /// There are more than `MAX_SOURCE_BYTES` bytes.
    TooLong {
        /// The number of bytes.
        len: u64,
    },
}

/// One file that is compiled (SLS 9.1).
#[derive(Debug, Drop)]
pub struct Source {
    /// The number of the source, as spans have it.
    pub file: u32,
    /// The name, as messages show it.
    pub name: Text,
    /// The bytes of the text.
    pub bytes: Bytes,
    pub ghost utf8: { ∥ IsUtf8 bytes ∥₁ },
    pub ghost within: { length bytes ≤ MAX_SOURCE_BYTES },
}

impl Source {
    ghost use Rattle.std.specs.Prelude.{◌≡◌, ◌≤◌, length, IfErr, IfOk};
    ghost use Rattle.scw_text.specs.Place.{column_of, line_of};
    ghost use Rattle.scw_text.specs.Source.{HasFault};

    /// The source of these bytes.
    ///
    /// # Errors
    ///
    /// `TooLong` where there are more than `MAX_SOURCE_BYTES` bytes, and else `BadUtf8` where they are not UTF-8.
    pub fn new(file: u32, name: Text, bytes: Bytes) -> Result<Source, TextFault>
        ensures ok { IfOk result (λ source. (source.file ≡ file) × (source.name ≡ name) × (source.bytes ≡ bytes)) }
        ensures fault { IfErr result (λ fault. HasFault fault bytes) }
    {
        if MAX_SOURCE_BYTES < bytes.len() {
            return Err(TextFault::TooLong {
                len: bytes.len() as u64,
            });
        }
        if let Err(fault) = str::from_utf8(bytes.as_slice()) {
            return Err(TextFault::BadUtf8 {
                place: fault.valid_up_to() as u32,
            });
        }
        Ok(Source { file, name, bytes })
    }

    /// The number of the source.
    pub fn file(&self) -> u32
        ensures { result ≡ self.now.file }
    {
        self.file
    }

    /// The name of the source.
    pub fn name(&self) -> &[char]
        ensures { result.now ≡ self.now.name }
    {
        self.name.as_slice()
    }

    /// The bytes of the source.
    pub fn bytes(&self) -> &[u8]
        ensures { result.now ≡ self.now.bytes }
    {
        self.bytes.as_slice()
    }

    /// The line and the column of a place, which is how many bytes stand before it.
    pub fn place(&self, at: u32) -> Place
        requires { at ≤ length self.now.bytes }
        ensures line { result.line ≡ line_of self.now.bytes at }
        ensures column { result.column ≡ column_of self.now.bytes at }
    {
        let bytes = self.bytes.as_slice();
        let mut place = Place { line: 1, column: 1 };
        for before in 0..at as usize {
            place = place.past(bytes, before);
        }
        place
    }
}
