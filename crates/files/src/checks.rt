// The checks on a file's bytes, in their order.
ghost use Rattle.std.specs.Prelude.{◌≡◌, ◌+◌, ◌*◌, ◌^◌, ◌<◌, ◌≤◌, length, is_ok, IfOk, Decides};
ghost use Rattle.files.specs.Faults.{answer, sound};
ghost use Rattle.strips.specs.Rows.{most_rows};
ghost use Rattle.files.specs.Checks.{Passed};
ghost use Rattle.files.specs.Layout.{most_entries, entries, trailer};
ghost use Rattle.files.specs.Sound.{IsStripFile};
ghost use Rattle.files.specs.Verdict.{verdict, trailer_verdict, fields_verdict, rest_verdict, end_verdict};

use crate::fault::FileFault;
use crate::parts::Parts;
use crate::record::Record;

// FNCP
const MARK: u32 = 0x464E4350;

// How many entries a file may have.
const MOST_ENTRIES: u16 = 256;

fn check_trailer(file: Parts<'_>) -> Result<(), FileFault>
    ensures { answer result ≡ trailer_verdict (length file.entry.bytes.now) (trailer file.entry.bytes.now) }
{
    let Parts { bytes, trailer, .. } = file;
    let at = bytes.len() - 16;
    if trailer.mark != MARK {
        return Err(FileFault::Mark { byte: at + 12 });
    }
    if trailer.edition != 1 {
        return Err(FileFault::Edition { byte: at + 6 });
    }
    if trailer.count > MOST_ENTRIES {
        return Err(FileFault::Shape { byte: at + 4 });
    }
    if trailer.spare != 0 {
        return Err(FileFault::Shape { byte: at + 7 });
    }
    if trailer.start as usize + 32 * trailer.count as usize != at {
        return Err(FileFault::Shape { byte: at });
    }
    Ok(())
}

// What the entries before one leave it: the least strip number that it may have, and where its body is to begin.
#[derive(Clone, Copy)]
struct Before {
    least: u32,
    rows: usize,
}

// Entry i, whose bytes begin at byte `at`, and what it leaves the next one.
fn check_entry(entry: &[u8; 32], i: usize, at: usize, before: Before) -> Result<Before, FileFault>
    requires fits { at + 32 < 2 ^ 64 }
    requires few { before.rows ≤ most_rows * most_entries }
    ensures is { answer result ≡ fields_verdict i entry.now at before.least (16 * before.rows) }
    ensures leaves { IfOk result (Passed entry.now before) }
{
    let record = Record::read(entry).map_err(|field| FileFault::Field {
        entry: i,
        byte: at + field,
    })?;
    let number = u32::from(record.number);
    if number < before.least {
        return Err(FileFault::Order { entry: i, byte: at });
    }
    if record.start as usize != 16 * before.rows {
        return Err(FileFault::BodyStart {
            entry: i,
            byte: at + 8,
        });
    }
    Ok(Before {
        least: number + 1,
        rows: before.rows + record.rows as usize,
    })
}

// The end of the file, after all entries, which have `sum` rows.
fn check_end(file: Parts<'_>, sum: usize) -> Result<(), FileFault>
    requires { sum ≤ most_rows * most_entries }
    ensures { answer result ≡ end_verdict (length file.entry.bytes.now) (trailer file.entry.bytes.now) (entries file.entry.bytes.now) sum }
{
    let Parts { bytes, trailer, .. } = file;
    let at = bytes.len() - 16;
    let entry = trailer.count as usize;
    if 16 * sum != trailer.start as usize {
        return Err(FileFault::BodyStart { entry, byte: at });
    }
    if trailer.total as usize != sum {
        return Err(FileFault::TotalRows {
            entry,
            byte: at + 8,
        });
    }
    Ok(())
}

// What follows a sound trailer.
fn check_rest(file: Parts<'_>) -> Result<(), FileFault>
    requires { trailer_verdict (length file.bytes.now) (trailer file.bytes.now) ≡ sound }
    ensures { answer result ≡ rest_verdict file.entry.bytes.now }
{
    let start = file.trailer.start as usize;
    let mut before = Before { least: 0, rows: 0 };
    for (i, entry) in file.slots().iter().enumerate() {
        before = check_entry(entry, i, start + 32 * i, before)?;
    }
    check_end(file, before.rows)
}

// Whether the bytes are a strip file.
pub fn check(bytes: &[u8]) -> Result<(), FileFault>
    ensures is { answer result ≡ verdict bytes.now }
    ensures accepts { Decides (is_ok result) (IsStripFile bytes.now) }
{
    if bytes.len() < 16 {
        return Err(FileFault::Short);
    }
    let file = Parts::of(bytes);
    check_trailer(file)?;
    check_rest(file)
}
