// How many rows a strip has.
ghost use Rattle.std.specs.Prelude.{◌≡◌, ◌<◌, ◌≤◌, MatchOption};
ghost use Rattle.strips.specs.Rows.{most_rows, most_text, rows_for};

// A count that a strip may have. There is no other, so no longer strip can be made.
#[derive(Clone, Copy, PartialEq, Eq, Debug)]
pub struct RowCount {
    count: usize,
    ghost few: { count ≤ most_rows },
}

impl RowCount {
    // The most rows that a strip may have.
    pub const MOST: usize = 4096;

    // None where the count is over the most.
    pub fn new(count: usize) -> Option<RowCount>
        ensures { MatchOption result (most_rows < count) (λ n. n.count ≡ count) }
    {
        if count > Self::MOST {
            return None;
        }
        Some(RowCount { count })
    }

    // The rows of a text of so many bytes, the last one filled up; None where it takes more than the most.
    pub fn of_text(len: usize) -> Option<RowCount>
        ensures { MatchOption result (most_text < len) (λ n. (len ≤ most_text) × (n.count ≡ rows_for len)) }
    {
        if len > 16 * Self::MOST {
            return None;
        }
        Some(RowCount {
            count: (len + 15) / 16,
        })
    }

    pub fn get(self) -> usize
        ensures { (result ≡ self.count) × (result ≤ most_rows) }
    {
        self.count
    }
}
