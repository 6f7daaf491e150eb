//! The rows that stand at one spot.

ghost use Rattle.std.specs.Prelude.{◌≡◌, ◌<◌};
ghost use Rattle.vsw_flows.specs.Leaners as spec;

/// At most four rows. Each is told by its number and one, and 0 is none.
#[derive(Clone, Copy, Debug, PartialEq, Eq)]
pub struct Leaners {
    pub first: u32,
    pub second: u32,
    pub third: u32,
    pub fourth: u32,
}

/// The rows once one more is among them, and the one that gave way to it, told in the same way.
#[derive(Clone, Copy, Debug, PartialEq, Eq)]
pub struct Joined {
    pub leaners: Leaners,
    pub way: u32,
}

impl Leaners {
    /// No row.
    pub fn none() -> Leaners
        ensures { result ≡ spec.none }
    {
        Leaners {
            first: 0,
            second: 0,
            third: 0,
            fourth: 0,
        }
    }

    /// Whether the row is one of them.
    fn has(&self, row: u32) -> bool
        requires row { row < 4294967295 }
        ensures { result ≡ spec.has self.now row }
    {
        let mark = row + 1;
        mark == self.first || mark == self.second || mark == self.third || mark == self.fourth
    }

    /// The row is one of them. Of four others the one that joined first gives way.
    pub fn joined(&self, row: u32) -> Joined
        requires row { row < 4294967295 }
        ensures { result ≡ spec.joined self.now row }
    {
        if self.has(row) {
            return Joined {
                leaners: *self,
                way: 0,
            };
        }
        Joined {
            leaners: Leaners {
                first: row + 1,
                second: self.first,
                third: self.second,
                fourth: self.third,
            },
            way: self.fourth,
        }
    }

    /// The row isn't one of them any more.
    pub fn without(&self, row: u32) -> Leaners
        requires row { row < 4294967295 }
        ensures { result ≡ spec.without self.now row }
    {
        let Leaners {
            first,
            second,
            third,
            fourth,
        } = *self;
        let mark = row + 1;
        if mark == first {
            return of(second, third, fourth);
        }
        if mark == second {
            return of(first, third, fourth);
        }
        if mark == third {
            return of(first, second, fourth);
        }
        if mark == fourth {
            return of(first, second, third);
        }
        *self
    }

    /// Whether there is none.
    pub fn is_empty(&self) -> bool
        ensures { result ≡ spec.is_empty self.now }
    {
        self.first == 0 && self.second == 0 && self.third == 0 && self.fourth == 0
    }
}

/// Three rows.
fn of(first: u32, second: u32, third: u32) -> Leaners
    ensures { result ≡ spec.three first second third }
{
    Leaners {
        first,
        second,
        third,
        fourth: 0,
    }
}
