// What is marked of a source.
ghost use Rattle.std.specs.Prelude.{◌≡◌, ◌^◌, ◌<◌};
ghost use Rattle.reach.specs.Reached.{row_of};

// What is marked of a source: its row, which has a bit for each array term, in three numbers of sixteen bits, the lowest first, so that 302 marks
// are 2,416 bytes; and the next source of its index value.
#[derive(Clone, Copy, Debug, PartialEq, Eq)]
pub struct Mark {
    low: u16,
    middle: u16,
    high: u16,
    pub next: u16,
}

impl Mark {
    // of a source that is not yet marked
    pub const NONE: Self = Self {
        low: 0,
        middle: 0,
        high: 0,
        next: 0,
    };

    // The row and its store: whoever reads or writes a row does it here.
    pub fn row(&self) -> u64
        ensures { result ≡ row_of self.now }
    {
        let low = self.low as u64;
        let middle = self.middle as u64;
        let high = self.high as u64;
        low + middle * 65536 + high * 4294967296
    }

    pub fn set_row(&mut self, row: u64)
        requires { row < 2 ^ 48 }
        ensures row { row_of self.new ≡ row }
        ensures others { self.new.next ≡ self.old.next }
    {
        self.low = (row % 65536) as u16;
        self.middle = (row / 65536 % 65536) as u16;
        self.high = (row / 4294967296) as u16;
    }
}
