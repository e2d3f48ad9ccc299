// Two strips in 128 bytes, and changes to them of a byte or two.

use files::FileFault;

// What a refusal tells: its number, the entries checked before it, and its byte. Figures and no `FileFault`, since that a
// fault tells those of docs/FORMATS.md is what is tried here.
#[derive(Clone, Copy, PartialEq, Eq, Debug)]
pub struct Refusal(pub u8, pub usize, pub usize);

impl From<FileFault> for Refusal {
    fn from(fault: FileFault) -> Refusal {
        Refusal(fault.number(), fault.entry(), fault.byte())
    }
}

// Whether a file is accepted.
pub type Told = Result<(), Refusal>;

// A byte of the sample, and what is put there.
pub type Edit = (usize, u8);

// Entries at 48 and 80, trailer at 112.
const SAMPLE: [u8; 128] = *b"\
    one row of strip\
    and two of the  \
    second, all here\
    \x00\x07\x00\x00\x00\x00\x00\x01\x00\x00\x00\x00\x00\x00\x00\x00stamp of strip 7\
    \x00\x09\x01\x01\x00\x00\x00\x02\x00\x00\x00\x10\x00\x00\x00\x00stamp of strip 9\
    \x00\x00\x00\x30\x00\x02\x01\x00\x00\x00\x00\x03FNCP";

// The first byte as it is, for a case of one edit or none: the cases are of one shape.
pub const SAME: Edit = (0, b'o');

// The sample with two edits made.
pub(crate) fn edited(first: Edit, second: Edit) -> [u8; 128] {
    let mut file = SAMPLE;
    for (at, byte) in [first, second] {
        if let Some(place) = file.get_mut(at) {
            *place = byte;
        }
    }
    file
}

pub const CASES: [(&str, Edit, Edit, Told); 53] = [
    ("the sample", SAME, SAME, Ok(())),
    ("mark, byte 0", (124, 0x47), SAME, Err(Refusal(6, 0, 124))),
    ("mark, byte 1", (125, 0x4F), SAME, Err(Refusal(6, 0, 124))),
    ("mark, byte 2", (126, 0x42), SAME, Err(Refusal(6, 0, 124))),
    ("mark, byte 3", (127, 0x51), SAME, Err(Refusal(6, 0, 124))),
    ("edition 0", (118, 0x00), SAME, Err(Refusal(7, 0, 118))),
    ("edition 1", (118, 0x01), SAME, Ok(())),
    ("edition 2", (118, 0x02), SAME, Err(Refusal(7, 0, 118))),
    (
        "257 entries claimed",
        (116, 0x01),
        (117, 0x01),
        Err(Refusal(8, 0, 116)),
    ),
    (
        "256 entries claimed",
        (116, 0x01),
        (117, 0x00),
        Err(Refusal(8, 0, 112)),
    ),
    ("spare byte 1", (119, 0x01), SAME, Err(Refusal(8, 0, 119))),
    ("spare byte 255", (119, 0xFF), SAME, Err(Refusal(8, 0, 119))),
    (
        "entries begin one byte early",
        (115, 0x2F),
        SAME,
        Err(Refusal(8, 0, 112)),
    ),
    (
        "entries begin one byte late",
        (115, 0x31),
        SAME,
        Err(Refusal(8, 0, 112)),
    ),
    (
        "one entry claimed of two",
        (117, 0x01),
        SAME,
        Err(Refusal(8, 0, 112)),
    ),
    ("station 2", (50, 0x02), SAME, Ok(())),
    ("station 3", (50, 0x03), SAME, Err(Refusal(9, 0, 50))),
    (
        "station 3 in the second entry",
        (82, 0x03),
        SAME,
        Err(Refusal(9, 1, 82)),
    ),
    ("pile 1", (51, 0x01), SAME, Ok(())),
    ("pile 2", (51, 0x02), SAME, Err(Refusal(9, 0, 51))),
    (
        "pile 2 in the second entry",
        (83, 0x02),
        SAME,
        Err(Refusal(9, 1, 83)),
    ),
    (
        "4,096 rows, and then a body start that does not follow",
        (54, 0x10),
        (55, 0x00),
        Err(Refusal(11, 1, 88)),
    ),
    ("4,097 rows", (54, 0x10), (55, 0x01), Err(Refusal(9, 0, 52))),
    (
        "2^24 rows and one",
        (52, 0x01),
        (55, 0x01),
        Err(Refusal(9, 0, 52)),
    ),
    ("zero byte 12", (60, 0x01), SAME, Err(Refusal(9, 0, 60))),
    ("zero byte 13", (61, 0x01), SAME, Err(Refusal(9, 0, 60))),
    ("zero byte 14", (62, 0x01), SAME, Err(Refusal(9, 0, 60))),
    ("zero byte 15", (63, 0x01), SAME, Err(Refusal(9, 0, 60))),
    (
        "zero byte 15 of the second entry",
        (95, 0x01),
        SAME,
        Err(Refusal(9, 1, 92)),
    ),
    ("strip number 8 after 7", (81, 0x08), SAME, Ok(())),
    (
        "strip number 7 after 7",
        (81, 0x07),
        SAME,
        Err(Refusal(10, 1, 80)),
    ),
    (
        "strip number 6 after 7",
        (81, 0x06),
        SAME,
        Err(Refusal(10, 1, 80)),
    ),
    ("strip number 256 after 7", (80, 0x01), (81, 0x00), Ok(())),
    (
        "strip number 65,535 before 9",
        (48, 0xFF),
        (49, 0xFF),
        Err(Refusal(10, 1, 80)),
    ),
    (
        "first body begins at 1",
        (59, 0x01),
        SAME,
        Err(Refusal(11, 0, 56)),
    ),
    (
        "second body begins one byte early",
        (91, 0x0F),
        SAME,
        Err(Refusal(11, 1, 88)),
    ),
    (
        "second body begins one byte late",
        (91, 0x11),
        SAME,
        Err(Refusal(11, 1, 88)),
    ),
    (
        "one row too many, and a total to match",
        (87, 0x03),
        (123, 0x04),
        Err(Refusal(11, 2, 112)),
    ),
    (
        "one row too few, and a total to match",
        (87, 0x01),
        (123, 0x02),
        Err(Refusal(11, 2, 112)),
    ),
    (
        "total one over",
        (123, 0x04),
        SAME,
        Err(Refusal(12, 2, 120)),
    ),
    (
        "total one under",
        (123, 0x02),
        SAME,
        Err(Refusal(12, 2, 120)),
    ),
    (
        "mark before edition",
        (118, 0x02),
        (127, 0x00),
        Err(Refusal(6, 0, 124)),
    ),
    (
        "edition before count",
        (118, 0x02),
        (116, 0x02),
        Err(Refusal(7, 0, 118)),
    ),
    (
        "count before spare",
        (116, 0x02),
        (119, 0x01),
        Err(Refusal(8, 0, 116)),
    ),
    (
        "spare before entries' end",
        (119, 0x01),
        (115, 0x00),
        Err(Refusal(8, 0, 119)),
    ),
    (
        "entries' end before stations",
        (115, 0x2F),
        (50, 0x03),
        Err(Refusal(8, 0, 112)),
    ),
    (
        "station before pile",
        (50, 0x03),
        (51, 0x02),
        Err(Refusal(9, 0, 50)),
    ),
    (
        "pile before rows",
        (51, 0x02),
        (52, 0x01),
        Err(Refusal(9, 0, 51)),
    ),
    (
        "rows before zeros",
        (52, 0x01),
        (63, 0x01),
        Err(Refusal(9, 0, 52)),
    ),
    (
        "zeros before order",
        (81, 0x07),
        (95, 0x01),
        Err(Refusal(9, 1, 92)),
    ),
    (
        "order before body start",
        (81, 0x07),
        (91, 0x00),
        Err(Refusal(10, 1, 80)),
    ),
    (
        "body start before the next entry's station",
        (59, 0x01),
        (82, 0x03),
        Err(Refusal(11, 0, 56)),
    ),
    (
        "last body's end before total",
        (87, 0x03),
        (123, 0x09),
        Err(Refusal(11, 2, 112)),
    ),
];
