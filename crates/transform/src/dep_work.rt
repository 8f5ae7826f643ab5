ghost use Rattle.stages.specs.Plain.{dep as plain_dep, plain_rows};

use crate::dep_rows::DepRows;
use crate::work::Work;
use sets::shape::Shape;
use stages::stage::Dep;

// Dependency rows.
impl Work for Dep {
    ghost kind = { λ d. plain_dep d.first (plain_rows d) };

    #[tactic(auto, using(crate::proofs::DepWork::dep_applied))]
    fn apply(&self, shape: &Shape, area: &mut [i32]) {
        let rows = DepRows {
            shape: *shape,
            dep: *self,
        };
        rows.apply(area);
    }

    #[tactic(auto, using(crate::proofs::DepWork::dep_source))]
    fn take_back(&self, shape: &Shape, area: &mut [i32]) -> bool {
        let rows = DepRows {
            shape: *shape,
            dep: *self,
        };
        rows.undo(area);
        true
    }
}
