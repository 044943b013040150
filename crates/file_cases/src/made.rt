use record::row::Row;
use std::alloc::{AllocError, Global};

// Kept: each test crate with files has this line of its own. A crate for it would be public, and owe contracts that only tests need.
fn number(bytes: &mut Vec<u8>, n: u32) -> Result<(), AllocError> {
    bytes.extend_from_slice(&n.to_le_bytes())
}

// A file with these pairs, rows and text bytes, right or wrong.
pub(crate) fn made(
    heap: Global,
    pairs: &[(u32, u32)],
    rows: &[Row],
    text: &[u8],
) -> Result<Vec<u8>, AllocError> {
    let mut bytes = Vec::new(heap);
    for n in [pairs.len(), rows.len(), text.len()] {
        number(&mut bytes, (n & 0xffff_ffff) as u32)?;
    }
    for &(offset, length) in pairs {
        number(&mut bytes, offset)?;
        number(&mut bytes, length)?;
    }
    for &Row { kind, a, b, c } in rows {
        for n in [kind, a, b, c] {
            number(&mut bytes, n)?;
        }
    }
    bytes.extend_from_slice(text)?;
    Ok(bytes)
}

// A file with so many texts, of two bytes each but the first, so many empty text rows, and so many bytes behind the texts.
pub(crate) fn sized(
    heap: Global,
    texts: u32,
    rows: usize,
    tail: usize,
) -> Result<Vec<u8>, AllocError> {
    let mut pairs = Vec::new(heap);
    let mut text = Vec::new(heap);
    for k in 0..texts {
        if k == 0 {
            pairs.push((0, 0))?;
        } else {
            pairs.push(((k - 1).wrapping_mul(2), 2))?;
            text.push((k & 0xff) as u8)?;
            text.push((k >> 8 & 0xff) as u8)?;
        }
    }
    let blank = Row {
        kind: 4,
        a: 0,
        b: 0,
        c: 0,
    };
    let rows = vec![in heap; blank; rows]?;
    for _ in 0..tail {
        text.push(0)?;
    }
    made(heap, pairs.as_slice(), rows.as_slice(), text.as_slice())
}
