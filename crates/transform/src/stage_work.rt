ghost use Rattle.std.specs.Prelude.{◌≡◌, length};
ghost use Rattle.sets.specs.Areas.{size_of};
ghost use Rattle.sets.specs.Sets.{rows_of};
ghost use Rattle.stages.specs.Plain.{plain};
ghost use Rattle.transform.specs.Work.{Workable, FoundSet};

use crate::work::Work;
use sets::shape::Shape;
use sets::span_list::SpanList;
use stages::stage::Stage;

// The kinds are closed: each goes to its own impl, where its proof is.
#[tactic(auto, unfolding(stages::specs::Plain::plain))]
impl Work for Stage {
    ghost kind = { plain };

    fn apply(&self, shape: &Shape, area: &mut [i32]) {
        match self {
            Stage::Lift(lift) => lift.apply(shape, area),
            Stage::Dep(dep) => dep.apply(shape, area),
            Stage::Rct(rct) => rct.apply(shape, area),
        }
    }

    fn take_back(&self, shape: &Shape, area: &mut [i32]) -> bool {
        match self {
            Stage::Lift(lift) => lift.take_back(shape, area),
            Stage::Dep(dep) => dep.take_back(shape, area),
            Stage::Rct(rct) => rct.take_back(shape, area),
        }
    }
}

// Undoes a stage; whether that gave a set within the spans. A function of its own, so that its contract stands apart from the rack's.
#[tactic(auto, using(crate::proofs::Finding::found_set))]
pub(crate) fn undo_stage(stage: &Stage, shape: &Shape, spans: &SpanList, area: &mut [i32]) -> bool
    requires workable { Workable shape.now (plain stage.now) (rows_of spans.now) }
    requires long { length area.old ≡ size_of shape.now }
    ensures { FoundSet shape.now (plain stage.now) (rows_of spans.now) area.old result area.new }
{
    stage.take_back(shape, area) && spans.hold(shape, area)
}
