// The two sides of a forkcipher.
ghost use Rattle.std.specs.Prelude.{◌≡◌};
ghost use Rattle.interfaces.specs.Sides.{other};

#[derive(Clone, Copy, PartialEq, Eq, Debug)]
pub enum Side {
    Left,
    Right,
}

impl Side {
    pub fn other(self) -> Side
        ensures { result ≡ other self }
    {
        match self {
            Side::Left => Side::Right,
            Side::Right => Side::Left,
        }
    }
}
