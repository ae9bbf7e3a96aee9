//! How a trouble is told.

use crate::trouble::Trouble;
use std::fmt;

/// A trouble, in one line: what it is, the bucket that it came up at, if any, and how many of its kind were left out since the last line.
///
/// In a bucket's name all but letters, digits, `-`, `_` and `.` is shown as in a URL, by `%` and two hexadecimal digits, so that a name can't pass for another line.
#[derive(Clone, Copy, Drop)]
pub struct Line<'a> {
    /// What it is.
    pub trouble: Trouble,
    /// The name of the bucket.
    pub bucket: Option<&'a [u8]>,
    /// How many were left out.
    pub left_out: u64,
}

impl fmt::Display for Line<'_> {
    fn fmt<W: fmt::Write>(&self, f: &mut fmt::Formatter<W>) -> fmt::Result {
        write!(f, "{}", self.trouble)?;
        if let Some(bucket) = self.bucket {
            f.write_str(" (bucket ")?;
            write_name(f, bucket)?;
            f.write_str(")")?;
        }
        if self.left_out > 0 {
            write!(f, "; {} of its kind left out before", self.left_out)?;
        }
        Ok(())
    }
}

fn write_name<W: fmt::Write>(f: &mut fmt::Formatter<W>, name: &[u8]) -> fmt::Result {
    for &byte in name {
        match byte {
            b'0'..=b'9' | b'A'..=b'Z' | b'a'..=b'z' | b'-' | b'_' | b'.' => {
                f.write_char(char::from(byte))?;
            }
            _ => write!(f, "%{byte:02X}")?,
        }
    }
    Ok(())
}
