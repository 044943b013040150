use std::alloc::{AllocError, Global};

// The numbers of the texts below.
pub const MC: u32 = 1;

pub const IGNORABLE: u32 = 2;

pub const PROCESS_CONTENT: u32 = 3;

pub const MUST_UNDERSTAND: u32 = 4;

pub const REQUIRES: u32 = 5;

pub const CHOICE: u32 = 6;

pub const XML: u32 = 7;

pub const BASE: u32 = 8;

pub const P: u32 = 9;

pub const Q: u32 = 10;

pub const W: u32 = 11;

pub const URN_A: u32 = 12;

pub const URN_B: u32 = 13;

pub const COLON: u32 = 14;

pub const P_COLON: u32 = 15;

pub const COLON_W: u32 = 16;

pub const P_W: u32 = 17;

pub const BLANKS: u32 = 18;

// `p` so many times
pub const P_28: u32 = 19;

pub const P_29: u32 = 20;

pub const P_100: u32 = 21;

pub const P_128: u32 = 22;

pub const P_129: u32 = 23;

// `p:w` so many times
pub const P_W_28: u32 = 24;

pub const P_W_29: u32 = 25;

pub const P_W_100: u32 = 26;

pub const P_W_128: u32 = 27;

pub const P_W_129: u32 = 28;

// The first of 32 prefixes.
pub const PREFIXES: u32 = 29;

fn number(bytes: &mut Vec<u8>, n: usize) -> Result<(), AllocError> {
    bytes.extend_from_slice(&((n & 0xffff_ffff) as u32).to_le_bytes())
}

// One text more: these bytes so many times.
fn add(
    pairs: &mut Vec<u8>,
    text: &mut Vec<u8>,
    bytes: &[u8],
    times: usize,
) -> Result<(), AllocError> {
    let from = text.len();
    for _ in 0..times {
        text.extend_from_slice(bytes)?;
    }
    number(pairs, from)?;
    number(pairs, text.len().wrapping_sub(from))
}

// A file that has these texts, and no rows.
pub fn texts(heap: Global) -> Result<Vec<u8>, AllocError> {
    let names: [&[u8]; 19] = [
        b"",
        b"http://schemas.openxmlformats.org/markup-compatibility/2006",
        b"Ignorable",
        b"ProcessContent",
        b"MustUnderstand",
        b"Requires",
        b"Choice",
        b"http://www.w3.org/XML/1998/namespace",
        b"base",
        b"p",
        b"q",
        b"w",
        b"urn:a",
        b"urn:b",
        b":",
        b"p:",
        b":w",
        b"p:w",
        b" \t\r\n",
    ];
    let mut pairs = Vec::new(heap);
    let mut text = Vec::new(heap);
    for name in names {
        add(&mut pairs, &mut text, name, 1)?;
    }
    for times in [28, 29, 100, 128, 129] {
        add(&mut pairs, &mut text, b"p ", times)?;
    }
    for times in [28, 29, 100, 128, 129] {
        add(&mut pairs, &mut text, b"p:w ", times)?;
    }
    for k in 0..32u8 {
        add(&mut pairs, &mut text, &[b'A'.wrapping_add(k)], 1)?;
    }
    let mut file = Vec::new(heap);
    number(&mut file, pairs.len() / 8)?;
    number(&mut file, 0)?;
    number(&mut file, text.len())?;
    file.extend_from_slice(pairs.as_slice())?;
    file.extend_from_slice(text.as_slice())?;
    Ok(file)
}
