//! The version of a class file, where it isn't accepted.

use std::fmt;
use std::fmt::{Display, Formatter};

/// The major versions that are accepted, those of Java SE 6 to 8.
const FIRST_MAJOR: u16 = 50;

const LAST_MAJOR: u16 = 52;

/// A version of class files that isn't accepted.
#[derive(Clone, Copy)]
pub struct OtherVersion {
    pub major: u16,
    pub minor: u16,
}

impl OtherVersion {
    /// The version in the first bytes of a file; none where these are no class file's, or it is accepted.
    pub fn of(bytes: &[u8]) -> Option<OtherVersion> {
        let &[
            0xCA,
            0xFE,
            0xBA,
            0xBE,
            minor_high,
            minor_low,
            major_high,
            major_low,
            ..
        ] = bytes
        else {
            return None;
        };
        let major = u16::from_be_bytes([major_high, major_low]);
        if (FIRST_MAJOR..=LAST_MAJOR).contains(&major) {
            return None;
        }
        Some(OtherVersion {
            major,
            minor: u16::from_be_bytes([minor_high, minor_low]),
        })
    }
}

impl Display for OtherVersion {
    fn fmt<W: fmt::Write>(&self, f: &mut Formatter<W>) -> fmt::Result {
        let (major, minor) = (self.major, self.minor);
        write!(
            f,
            "its version is {major}.{minor}: compile with javac --release 8"
        )
    }
}
