// The entries of a file that are yet to be read.
ghost use Rattle.std.specs.Prelude.{◌≡◌, None};
ghost use Rattle.std.specs.List.{All};
ghost use Rattle.files.specs.Checks.{faulty_field};

// The records that they write, one after another.
#[derive(Drop)]
pub struct Records<'a> {
    pub(crate) slots: &'a [[u8; 32]],
    ghost sound: { All (λ e. faulty_field e ≡ None) slots.now },
}

impl<'a> Records<'a> {
    pub(crate) fn of(slots: &'a [[u8; 32]]) -> Records<'a>
        requires { All (λ e. faulty_field e ≡ None) slots.now }
        ensures { result.slots.now ≡ slots.now }
    {
        Records { slots }
    }
}
