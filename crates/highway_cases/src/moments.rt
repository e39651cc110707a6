//! The clock of a run.

use hw_io::Clock;

/// A clock that gives these moments in turn, and then the last one again; 0 where there is none.
#[derive(Drop)]
pub struct Moments {
    moments: Vec<u64>,
    next: usize,
}

impl Moments {
    pub fn new(moments: Vec<u64>) -> Moments {
        Moments { moments, next: 0 }
    }
}

impl Clock for Moments {
    ghost use Rattle.std.specs.Prelude.{None};

    ghost given = { λ _. None };

    fn now(&mut self) -> u64 {
        let last = self.moments.len().saturating_sub(1);
        let moment = match self.moments.get(self.next.min(last)) {
            Some(moment) => *moment,
            None => 0,
        };
        self.next = self.next.saturating_add(1);
        moment % (1 << 63)
    }
}
