//! The fork choice as it is defined: from each place on to the child of the greatest score, and the score of
//! each child is summed anew over all slots.

ghost use Rattle.std.specs.Prelude.{◌≡◌, ◌<◌, ◌≤◌, length};
ghost use Rattle.hw_dag.specs.Dag.{count_of, IsPanorama};

use hw_dag::{Dag, Panorama, UnitNo, View};

/// What a fork choice is made over.
#[derive(Clone, Copy)]
pub struct Plain<'a> {
    pub dag: &'a Dag,
    pub weights: &'a [u64],
    pub panorama: &'a Panorama,
}

impl Plain<'_> {
    /// The fork choice of the panorama.
    pub fn choice(&self) -> Option<UnitNo>
        requires { IsPanorama self.now.dag.now self.now.panorama.now }
    {
        let mut place = None;
        for _ in 0..self.dag.count() {
            match self.best_child(place) {
                Some(child) => place = Some(child),
                None => break,
            }
        }
        place
    }

    /// The child of the greatest score above 0, of those of one score the one of the greatest name.
    fn best_child(&self, place: Option<UnitNo>) -> Option<UnitNo>
        requires { IsPanorama self.now.dag.now self.now.panorama.now }
    {
        let mut best = None;
        for number in 0..self.dag.count() {
            let unit = self.dag.unit(UnitNo(number));
            if unit.height().is_some() && unit.parent() == place {
                best = self.better(best, UnitNo(number));
            }
        }
        best
    }

    /// The better one of two children, where the second has a score above 0.
    fn better(&self, best: Option<UnitNo>, child: UnitNo) -> Option<UnitNo>
        requires { IsPanorama self.now.dag.now self.now.panorama.now }
    {
        let score = self.score(child);
        let held = match best {
            Some(best) => self.score(best),
            None => 0,
        };
        if held < score || held == score && 0 < score && self.is_named_above(child, best) {
            Some(child)
        } else {
            best
        }
    }

    /// Whether the child's name is greater than that of the best one.
    fn is_named_above(&self, child: UnitNo, best: Option<UnitNo>) -> bool {
        match best {
            Some(best) => {
                child.0 < self.dag.count()
                    && best.0 < self.dag.count()
                    && self.dag.unit(best).digest() < self.dag.unit(child).digest()
            }
            None => true,
        }
    }

    /// The weight of the slots whose unit votes for the block or a descendant of it.
    fn score(&self, block: UnitNo) -> u64
        requires { IsPanorama self.now.dag.now self.now.panorama.now }
    {
        let mut score: u64 = 0;
        for validator in 0..self.dag.validators() {
            if self.votes_for(validator, block) {
                score = score.saturating_add(weight_at(self.weights, validator));
            }
        }
        score
    }

    /// Whether the slot's unit votes for the block or a descendant of it.
    fn votes_for(&self, validator: u32, block: UnitNo) -> bool
        requires panorama { IsPanorama self.now.dag.now self.now.panorama.now }
        requires slot { validator < self.now.dag.now.validators }
    {
        match self.panorama.get(validator) {
            View::Correct(no) => {
                no.0 < self.dag.count() && self.descends(self.dag.unit(no).vote(), block)
            }
            View::Absent | View::Faulty => false,
        }
    }

    /// Whether the one block is the other or descends from it, parent by parent.
    fn descends(&self, low: UnitNo, block: UnitNo) -> bool {
        let mut at = low;
        for _ in 0..self.dag.count() {
            if at == block {
                return true;
            }
            match parent_of(self.dag, at) {
                Some(parent) => at = parent,
                None => return false,
            }
        }
        false
    }
}

fn parent_of(dag: &Dag, no: UnitNo) -> Option<UnitNo> {
    if no.0 < dag.count() {
        dag.unit(no).parent()
    } else {
        None
    }
}

fn weight_at(weights: &[u64], validator: u32) -> u64 {
    match weights.get(validator as usize) {
        Some(weight) => *weight,
        None => 0,
    }
}
