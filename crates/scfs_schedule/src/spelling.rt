ghost use Rattle.std.specs.Prelude.{◌≡◌, Some};
ghost use Rattle.scfs_base.specs.Words.{hex_pair, hex_word, hex_text, stands_for_itself, path_byte, path_word};
ghost use Rattle.scfs_schedule.specs.Text.{request_text, upload_text, names_text, answer_text, path_bytes};

use scfs_base::{Bytes, CloudAnswer, RequestNo, UploadNo};
use std::fmt;

/// A byte as two hexadecimal digits.
#[derive(Clone, Copy)]
struct HexPair(u8);

impl fmt::Display for HexPair {
    ghost output = { λ it. Some (hex_pair it.0) };

    fn fmt<W: fmt::Write>(&self, f: &mut fmt::Formatter<W>) -> fmt::Result {
        let HexPair(byte) = *self;
        write!(f, "{byte:02x}")
    }
}

fn stands_for_itself(byte: u8) -> bool
    ensures { result ≡ stands_for_itself byte }
{
    (0x21..=0x7d).contains(&byte) && byte != b'%'
}

/// A byte of a path: by itself, or as `%` and two digits.
#[derive(Drop)]
struct PathByte(u8);

impl fmt::Display for PathByte {
    ghost output = { λ it. Some (path_byte it.0) };

    fn fmt<W: fmt::Write>(&self, f: &mut fmt::Formatter<W>) -> fmt::Result {
        if stands_for_itself(self.0) {
            write!(f, "{}", char::from(self.0))
        } else {
            write!(f, "%{}", HexPair(self.0))
        }
    }
}

/// Bytes as two hexadecimal digits each.
#[derive(Drop)]
pub struct HexWord<'a>(pub &'a [u8]);

impl fmt::Display for HexWord<'_> {
    ghost output = { λ it. Some (hex_word it.0.now) };

    fn fmt<W: fmt::Write>(&self, f: &mut fmt::Formatter<W>) -> fmt::Result {
        for byte in self.0 {
            write!(f, "{}", HexPair(*byte))?;
        }
        Ok(())
    }
}

/// The same, and `-` for no bytes.
#[derive(Drop)]
pub struct HexText<'a>(pub &'a [u8]);

impl fmt::Display for HexText<'_> {
    ghost output = { λ it. Some (hex_text it.0.now) };

    fn fmt<W: fmt::Write>(&self, f: &mut fmt::Formatter<W>) -> fmt::Result {
        if self.0.is_empty() {
            write!(f, "-")
        } else {
            write!(f, "{}", HexWord(self.0))
        }
    }
}

/// The bytes of a path, one after another.
#[derive(Drop)]
struct PathBytes<'a>(&'a [u8]);

impl fmt::Display for PathBytes<'_> {
    ghost output = { λ it. Some (path_bytes it.0.now) };

    fn fmt<W: fmt::Write>(&self, f: &mut fmt::Formatter<W>) -> fmt::Result {
        for byte in self.0 {
            write!(f, "{}", PathByte(*byte))?;
        }
        Ok(())
    }
}

/// The word of a path.
#[derive(Drop)]
pub struct PathWord<'a>(pub &'a [u8]);

impl fmt::Display for PathWord<'_> {
    ghost output = { λ it. Some (path_word it.0.now) };

    fn fmt<W: fmt::Write>(&self, f: &mut fmt::Formatter<W>) -> fmt::Result {
        if self.0.is_empty() {
            write!(f, "%")
        } else {
            write!(f, "{}", PathBytes(self.0))
        }
    }
}

/// A request's number as agent, incarnation and number, joined by dots.
#[derive(Drop)]
pub struct RequestWord<'a>(pub &'a RequestNo);

impl fmt::Display for RequestWord<'_> {
    ghost output = { λ it. Some (request_text it.0.now) };

    fn fmt<W: fmt::Write>(&self, f: &mut fmt::Formatter<W>) -> fmt::Result {
        let RequestNo {
            agent,
            incarnation,
            number,
        } = *self.0;
        write!(f, "{agent}.{incarnation}.{number}")
    }
}

/// An upload's number as 16 digits: 2 of its agent, 6 of its incarnation, 8 of its count.
#[derive(Drop)]
pub struct UploadWord<'a>(pub &'a UploadNo);

impl fmt::Display for UploadWord<'_> {
    ghost output = { λ it. Some (upload_text it.0.now) };

    fn fmt<W: fmt::Write>(&self, f: &mut fmt::Formatter<W>) -> fmt::Result {
        let incarnation = self.0.incarnation.to_be_bytes();
        let count = self.0.count.to_be_bytes();
        write!(
            f,
            "{}{}{}",
            HexPair(self.0.agent),
            HexWord(&incarnation[1..]),
            HexWord(&count)
        )
    }
}

/// Names as path words, each behind a space.
#[derive(Drop)]
struct NamesText<'a>(&'a [Bytes]);

impl fmt::Display for NamesText<'_> {
    ghost output = { λ it. Some (names_text it.0.now) };

    fn fmt<W: fmt::Write>(&self, f: &mut fmt::Formatter<W>) -> fmt::Result {
        for name in self.0 {
            write!(f, " {}", PathWord(name.as_slice()))?;
        }
        Ok(())
    }
}

/// The answer of a cloud.
#[derive(Drop)]
pub struct AnswerText<'a>(pub &'a CloudAnswer);

impl fmt::Display for AnswerText<'_> {
    ghost output = { λ it. Some (answer_text it.0.now) };

    fn fmt<W: fmt::Write>(&self, f: &mut fmt::Formatter<W>) -> fmt::Result {
        match self.0 {
            CloudAnswer::Ack => write!(f, "ack"),
            CloudAnswer::Absent => write!(f, "absent"),
            CloudAnswer::Fail => write!(f, "fail"),
            CloudAnswer::Bytes(bytes) => write!(f, "bytes {}", HexText(bytes.as_slice())),
            CloudAnswer::Names(names) => write!(f, "names{}", NamesText(names.as_slice())),
        }
    }
}
