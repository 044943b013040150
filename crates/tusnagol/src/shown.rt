use std::fmt;
use std::str::from_utf8;

// A name as text: what is no UTF-8, and what does not print, is escaped.
#[derive(Clone, Copy)]
pub struct Plain<'a>(pub &'a [u8]);

// A value as text in double quotes.
#[derive(Clone, Copy)]
pub struct Quoted<'a>(pub &'a [u8]);

impl<'a> fmt::Display for Plain<'a> {
    fn fmt<W: fmt::Write>(&self, f: &mut fmt::Formatter<W>) -> fmt::Result {
        match from_utf8(self.0) {
            Ok(text) => write_text(text, f),
            Err(_) => write_bytes(self.0, f),
        }
    }
}

impl<'a> fmt::Display for Quoted<'a> {
    fn fmt<W: fmt::Write>(&self, f: &mut fmt::Formatter<W>) -> fmt::Result {
        write!(f, "\"{}\"", Plain(self.0))
    }
}

fn write_text<W: fmt::Write>(text: &str, f: &mut fmt::Formatter<W>) -> fmt::Result {
    for c in text.chars() {
        if c.is_ascii() {
            write_byte(c as u8, f)?;
        } else {
            f.write_char(c)?;
        }
    }
    Ok(())
}

fn write_bytes<W: fmt::Write>(bytes: &[u8], f: &mut fmt::Formatter<W>) -> fmt::Result {
    for b in bytes {
        write_byte(*b, f)?;
    }
    Ok(())
}

fn write_byte<W: fmt::Write>(b: u8, f: &mut fmt::Formatter<W>) -> fmt::Result {
    match b {
        b'"' => f.write_str("\\\""),
        b'\\' => f.write_str("\\\\"),
        b'\n' => f.write_str("\\n"),
        b'\r' => f.write_str("\\r"),
        b'\t' => f.write_str("\\t"),
        b' '..=b'~' => f.write_char(char::from(b)),
        _ => write!(f, "\\x{b:02x}"),
    }
}
