ghost use Rattle.stages.specs.Plain.{rct as plain_rct};

use crate::rct::turn_rct;
use crate::work::Work;
use sets::shape::Shape;
use stages::stage::Rct;

// The colour transform.
impl Work for Rct {
    ghost kind = { λ r. plain_rct r.first };

    #[tactic(auto, using(crate::proofs::RctWork::rct_applied))]
    fn apply(&self, shape: &Shape, area: &mut [i32]) {
        turn_rct::<false>(self, shape, area);
    }

    #[tactic(auto, using(crate::proofs::RctWork::rct_source))]
    fn take_back(&self, shape: &Shape, area: &mut [i32]) -> bool {
        turn_rct::<true>(self, shape, area);
        true
    }
}
