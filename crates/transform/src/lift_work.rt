ghost use Rattle.stages.specs.Plain.{lift as plain_lifting, plain_lift, plain_steps};

use crate::lifting::Lifting;
use crate::work::Work;
use sets::shape::Shape;
use stages::indexed::Indexed;
use stages::stage::Lift;

// A lifting: its steps, or a doubling where every line has one odd index.
impl Work for Lift {
    ghost kind = { λ l. plain_lifting (plain_lift l) (plain_steps l) };

    fn apply(&self, shape: &Shape, area: &mut [i32]) {
        let lifting = Lifting {
            shape: *shape,
            lift: *self,
        };
        match lifting.indexed() {
            Indexed::Many => lifting.long_lines().apply_steps(area),
            Indexed::LoneOdd => lifting.double_lone(area),
            Indexed::Still => {}
        }
    }

    #[tactic(auto, using(crate::proofs::LiftWork::steps_source, crate::proofs::LiftWork::halved_back))]
    fn take_back(&self, shape: &Shape, area: &mut [i32]) -> bool {
        let lifting = Lifting {
            shape: *shape,
            lift: *self,
        };
        match lifting.indexed() {
            Indexed::Many => {
                lifting.long_lines().undo_steps(area);
                true
            }
            Indexed::LoneOdd => lifting.halve_lone(area).is_some(),
            Indexed::Still => true,
        }
    }
}
