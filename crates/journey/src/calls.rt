// The calls of the journey, in order.
use ledgers::{Act, Call, Change};
use strips::{Pile, Station};

// How many there are.
pub(crate) const COUNT: usize = 67;

// The length of the strip's own memory: three rows.
pub(crate) const OWN: usize = 48;

// Blocks to write, the last one only by calls that are refused.
const FIRST: [u8; 16] = *b"the first block.";

const SECOND: [u8; 16] = *b"the second block";

const THIRD: [u8; 16] = *b"the third block!";

const UNSEEN: [u8; 16] = *b"never to be seen";

pub(crate) const CALLS: [Call; COUNT] = [
    // Home: every turn from a station to a station but the one from left to plain.
    Call {
        memory: OWN,
        act: Act::Read(0, 16),
    },
    Call {
        memory: OWN,
        act: Act::Convert(Change::Turn(Station::Plain)),
    },
    Call {
        memory: OWN,
        act: Act::Stamp(16),
    },
    Call {
        memory: 47,
        act: Act::Convert(Change::Turn(Station::Left)),
    },
    Call {
        memory: OWN,
        act: Act::Convert(Change::Turn(Station::Left)),
    },
    Call {
        memory: OWN,
        act: Act::Read(1, 16),
    },
    Call {
        memory: OWN,
        act: Act::Stamp(16),
    },
    Call {
        memory: OWN,
        act: Act::Write(3, UNSEEN),
    },
    Call {
        memory: OWN,
        act: Act::Convert(Change::Turn(Station::Left)),
    },
    Call {
        memory: OWN,
        act: Act::Write(1, FIRST),
    },
    Call {
        memory: OWN,
        act: Act::Exchange(0, 2),
    },
    Call {
        memory: OWN,
        act: Act::Convert(Change::Turn(Station::Right)),
    },
    Call {
        memory: OWN,
        act: Act::Read(2, 16),
    },
    Call {
        memory: OWN,
        act: Act::Stamp(16),
    },
    Call {
        memory: OWN,
        act: Act::Exchange(3, 0),
    },
    Call {
        memory: OWN,
        act: Act::Convert(Change::Turn(Station::Right)),
    },
    Call {
        memory: OWN,
        act: Act::Exchange(1, 1),
    },
    Call {
        memory: OWN,
        act: Act::Write(2, SECOND),
    },
    Call {
        memory: OWN,
        act: Act::Read(0, 15),
    },
    Call {
        memory: OWN,
        act: Act::Convert(Change::Renumber(65535)),
    },
    Call {
        memory: OWN,
        act: Act::Stamp(16),
    },
    Call {
        memory: OWN,
        act: Act::Convert(Change::Turn(Station::Plain)),
    },
    Call {
        memory: OWN,
        act: Act::Read(70000, 16),
    },
    Call {
        memory: OWN,
        act: Act::Read(1, 16),
    },
    Call {
        memory: OWN,
        act: Act::Convert(Change::Turn(Station::Right)),
    },
    Call {
        memory: 0,
        act: Act::Write(0, UNSEEN),
    },
    Call {
        memory: OWN,
        act: Act::Convert(Change::Turn(Station::Left)),
    },
    Call {
        memory: OWN,
        act: Act::Read(2, 16),
    },
    // Away.
    Call {
        memory: OWN,
        act: Act::Convert(Change::Transfer(Pile::Away)),
    },
    Call {
        memory: OWN,
        act: Act::Read(0, 16),
    },
    Call {
        memory: OWN,
        act: Act::Stamp(16),
    },
    Call {
        memory: OWN,
        act: Act::Exchange(1, 4),
    },
    Call {
        memory: OWN,
        act: Act::Convert(Change::Renumber(65535)),
    },
    Call {
        memory: OWN,
        act: Act::Stamp(17),
    },
    Call {
        memory: OWN,
        act: Act::Convert(Change::Transfer(Pile::Away)),
    },
    Call {
        memory: OWN,
        act: Act::Exchange(2, 1),
    },
    Call {
        memory: 64,
        act: Act::Convert(Change::Transfer(Pile::Home)),
    },
    Call {
        memory: OWN,
        act: Act::Convert(Change::Turn(Station::Right)),
    },
    Call {
        memory: OWN,
        act: Act::Read(1, 16),
    },
    Call {
        memory: OWN,
        act: Act::Stamp(16),
    },
    Call {
        memory: OWN,
        act: Act::Exchange(5, 3),
    },
    Call {
        memory: OWN,
        act: Act::Write(2, THIRD),
    },
    Call {
        memory: OWN,
        act: Act::Exchange(0, 1),
    },
    Call {
        memory: OWN,
        act: Act::Convert(Change::Renumber(0)),
    },
    Call {
        memory: OWN,
        act: Act::Stamp(16),
    },
    Call {
        memory: OWN,
        act: Act::Read(3, 17),
    },
    Call {
        memory: OWN,
        act: Act::Convert(Change::Turn(Station::Plain)),
    },
    Call {
        memory: OWN,
        act: Act::Stamp(16),
    },
    Call {
        memory: 47,
        act: Act::Write(70000, UNSEEN),
    },
    Call {
        memory: OWN,
        act: Act::Read(2, 16),
    },
    Call {
        memory: 0,
        act: Act::Convert(Change::Renumber(9)),
    },
    // Home again, with that turn.
    Call {
        memory: OWN,
        act: Act::Convert(Change::Transfer(Pile::Home)),
    },
    Call {
        memory: OWN,
        act: Act::Stamp(0),
    },
    Call {
        memory: OWN,
        act: Act::Convert(Change::Transfer(Pile::Home)),
    },
    Call {
        memory: OWN,
        act: Act::Read(1, 0),
    },
    Call {
        memory: OWN,
        act: Act::Stamp(16),
    },
    Call {
        memory: OWN,
        act: Act::Convert(Change::Turn(Station::Left)),
    },
    Call {
        memory: 64,
        act: Act::Stamp(15),
    },
    Call {
        memory: OWN,
        act: Act::Convert(Change::Turn(Station::Plain)),
    },
    Call {
        memory: OWN,
        act: Act::Read(2, 17),
    },
    Call {
        memory: OWN,
        act: Act::Exchange(0, 2),
    },
    Call {
        memory: OWN,
        act: Act::Stamp(15),
    },
    // And away, to stay.
    Call {
        memory: OWN,
        act: Act::Convert(Change::Transfer(Pile::Away)),
    },
    Call {
        memory: OWN,
        act: Act::Convert(Change::Turn(Station::Left)),
    },
    Call {
        memory: 64,
        act: Act::Exchange(3, 70000),
    },
    Call {
        memory: OWN,
        act: Act::Convert(Change::Turn(Station::Right)),
    },
    Call {
        memory: OWN,
        act: Act::Read(0, 16),
    },
];
