// The tweaks of a strip's rows and of its header.
ghost use Rattle.std.specs.Prelude.{◌≡◌};
ghost use Rattle.ledgers.specs.Rows.{row_tweak, header_tweak};

use interfaces::bytes::big_endian;

// Two sums: one function for both would be handed the use, and have to ask that it is no other number than 0 and 1.
pub(crate) fn row_tweak(number: u16, row: u32) -> [u8; 8]
    ensures { result ≡ row_tweak number row }
{
    big_endian((u64::from(number) << 29) + u64::from(row))
}

pub(crate) fn header_tweak(number: u16) -> [u8; 8]
    ensures { result ≡ header_tweak number }
{
    big_endian((1 << 61) + (u64::from(number) << 29))
}
