// The parts of a file.
ghost use Rattle.std.specs.Prelude.{◌≡◌, ◌+◌, ◌*◌, ◌≤◌, length};
ghost use Rattle.files.specs.Checks.{trailer_fields};
ghost use Rattle.files.specs.Layout.{part, slots, trailer as file_trailer};

// The N bytes from byte `at` on.
pub(crate) fn cut<const N: usize>(bytes: &[u8], at: usize) -> [u8; N]
    requires { at + N ≤ length bytes.now }
    ensures { result ≡ part bytes.now at N }
{
    let mut cut = [0u8; N];
    cut.copy_from_slice(&bytes[at..at + N]);
    cut
}

// The fields of a trailer.
#[derive(Clone, Copy)]
pub(crate) struct Trailer {
    // The byte where the entries begin.
    pub(crate) start: u32,
    pub(crate) count: u16,
    pub(crate) edition: u8,
    pub(crate) spare: u8,
    // The rows of all strips.
    pub(crate) total: u32,
    pub(crate) mark: u32,
}

impl Trailer {
    // What a trailer's bytes write.
    fn read(trailer: &[u8; 16]) -> Trailer
        ensures { result ≡ trailer_fields trailer.now }
    {
        Trailer {
            start: u32::from_be_bytes(cut(trailer, 0)),
            count: u16::from_be_bytes(cut(trailer, 4)),
            edition: trailer[6],
            spare: trailer[7],
            total: u32::from_be_bytes(cut(trailer, 8)),
            mark: u32::from_be_bytes(cut(trailer, 12)),
        }
    }
}

// A file that is long enough for a trailer, and what stands there.
#[derive(Clone, Copy)]
pub(crate) struct Parts<'a> {
    pub(crate) bytes: &'a [u8],
    pub(crate) trailer: Trailer,
    ghost long: { 16 ≤ length bytes.now },
    ghost is: { trailer ≡ trailer_fields (file_trailer bytes.now) },
}

impl<'a> Parts<'a> {
    pub(crate) fn of(bytes: &'a [u8]) -> Parts<'a>
        requires { 16 ≤ length bytes.now }
        ensures { result.bytes.now ≡ bytes.now }
    {
        let trailer: [u8; 16] = cut(bytes, bytes.len() - 16);
        Parts {
            bytes,
            trailer: Trailer::read(&trailer),
        }
    }

    // The bytes of the entries, where these end at the trailer.
    pub(crate) fn slots(self) -> &'a [[u8; 32]]
        requires { self.trailer.start + 32 * self.trailer.count + 16 ≡ length self.bytes.now }
        ensures { result.now ≡ slots self.entry.bytes.now }
    {
        // What is left is the trailer.
        let (slots, _) = self.bytes[self.trailer.start as usize..].as_chunks();
        slots
    }
}
