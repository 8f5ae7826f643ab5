ghost use Rattle.std.specs.Prelude.{◌≡◌, ◌<◌, ◌+◌, Some, IfOk};
ghost use Rattle.stages.specs.Plain.{plain};
ghost use Rattle.recipe.specs.Promises.{Grows};
ghost use Rattle.recipe.specs.Room.{room_in};

use crate::fault::{Cause, Fault};
use crate::forms::{row_due, step_due};
use crate::line::Line;
use stages::stage::Stage;

// The stage at hand with the step or the row of one more line.
#[tactic(auto, using(crate::proofs::Tables::room_lift, crate::proofs::Tables::room_dep))]
pub(crate) fn grown(stage: Stage, line: &Line) -> Result<Stage, Fault>
    requires { 0 < room_in (Some (plain stage)) }
    ensures stage { Grows (plain stage) line.now result }
    ensures room { IfOk result (λ s. room_in (Some (plain s)) + 1 ≡ room_in (Some (plain stage))) }
{
    // The kinds are closed, and each grows in its own way.
    match stage {
        Stage::Lift(mut lift) => {
            let step = step_due(line)?;
            lift.steps[lift.step_count] = step;
            lift.step_count += 1;
            Ok(Stage::Lift(lift))
        }
        Stage::Dep(mut dep) => {
            let row = row_due(line, dep.count)?;
            dep.rows[dep.count - 1] = row;
            dep.count += 1;
            Ok(Stage::Dep(dep))
        }
        Stage::Rct(_) => Err(line.fault(Cause::WordDue, 0)),
    }
}
