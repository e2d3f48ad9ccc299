// Files that are too long to be written out.
use std::alloc::{AllocError, Global};

// Strips 0, 1, 2 .. of so many rows each, at plain and home, with zeros for bodies and stamps.
pub(crate) fn long_strips(heap: Global, strips: u16, rows: u32) -> Result<Vec<u8>, AllocError> {
    let body = 16usize.saturating_mul(rows as usize);
    let bodies = body.saturating_mul(strips as usize);
    let mut file = vec![in heap; 0u8; bodies]?;
    let mut start = 0u32;
    // A strip's number is what is counted.
    for number in 0..strips {
        file.extend_from_slice(&number.to_be_bytes())?;
        file.extend_from_slice(&[0, 0])?;
        file.extend_from_slice(&rows.to_be_bytes())?;
        file.extend_from_slice(&start.to_be_bytes())?;
        file.extend_from_slice(&[0; 20])?;
        start = start.saturating_add(rows.saturating_mul(16));
    }
    file.extend_from_slice(&start.to_be_bytes())?;
    file.extend_from_slice(&strips.to_be_bytes())?;
    file.extend_from_slice(&[1, 0])?;
    file.extend_from_slice(&rows.saturating_mul(strips as u32).to_be_bytes())?;
    file.extend_from_slice(b"FNCP")?;
    Ok(file)
}

pub(crate) fn entries_only(heap: Global, entries: u16) -> Result<Vec<u8>, AllocError> {
    long_strips(heap, entries, 0)
}
