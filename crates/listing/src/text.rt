// Text put into a place of bytes.
ghost use Rattle.std.specs.Prelude.{◌++◌, length, decimal};
ghost use Rattle.listing.specs.Text.{HasRoom, Adds};

use itoa::Buffer;

// A place that is filled from its start, and how many of its bytes are used. No String: a library takes no heap.
#[derive(Drop)]
pub(crate) struct Page<'a> {
    pub(crate) place: &'a mut [u8],
    pub(crate) used: usize,
}

impl Page<'_> {
    pub(crate) fn put(&mut self, text: &[u8])
        requires { HasRoom self.old (length text.now) }
        ensures { Adds self.old text.now self.new }
    {
        let end = self.used + text.len();
        let place = &mut *self.place;
        place[self.used..end].copy_from_slice(text);
        self.used = end;
    }

    // A number's decimal digits. A single one needs no buffer.
    #[inline]
    fn put_number(&mut self, n: usize)
        requires { HasRoom self.old (length (decimal n)) }
        ensures { Adds self.old (decimal n) self.new }
    {
        if n < 10 {
            return self.put(&[b'0' + n as u8]);
        }
        self.put(Buffer::new().format(n).as_bytes());
    }

    // A label and then a number. Inlined, so that each label is copied at the length that it is known to have.
    #[inline(always)]
    pub(crate) fn put_labelled(&mut self, label: &[u8], n: usize)
        requires { HasRoom self.old (length (label.now ++ decimal n)) }
        ensures { Adds self.old (label.now ++ decimal n) self.new }
    {
        self.put(label);
        self.put_number(n);
    }
}
