ghost use Rattle.std.specs.Prelude.{◌≡◌, length};
ghost use Rattle.sets.specs.Areas.{size_of};
ghost use Rattle.transform.specs.Steps.{parity_at, step_pass, passes_of};
ghost use Rattle.transform.specs.Turned.{Turned, Forth, Back};

use crate::long_lines::LongLines;
use crate::turn::Turn;
use stages::stage::{Parity, Step};

// The functions on areas ask for the length of the sets: a type of both would have to hold the lent area.
impl LongLines {
    // The parity that step k changes: the steps change the parities in turn.
    fn parity(&self, k: usize) -> Parity
        ensures { result ≡ parity_at self.now.lifting.lift.parity k }
    {
        let first = self.lifting.lift.parity;
        if k % 2 == 0 { first } else { first.other() }
    }

    // Carries out step k, or undoes it.
    fn turn<const UNDO: bool>(&self, k: usize, step: &Step, area: &mut [i32])
        requires { length area.old ≡ size_of self.now.lifting.shape }
        ensures { Turned UNDO (step_pass self.now.lifting k step.now) area.old area.new }
    {
        let turn = Turn {
            on_lines: *self,
            parity: self.parity(k),
            step: *step,
        };
        turn.everywhere::<UNDO>(area);
    }

    // The steps in order. Undoing is another function: a flag for the order would put both loops into one.
    #[tactic(auto, using(crate::proofs::Stepping::forth_none, crate::proofs::Stepping::forth_more))]
    pub(crate) fn apply_steps(&self, area: &mut [i32])
        requires { length area.old ≡ size_of self.now.lifting.shape }
        ensures { Forth (passes_of self.now.lifting) area.old area.new }
    {
        for (k, step) in self.lifting.lift.steps().iter().enumerate() {
            self.turn::<false>(k, step, area);
        }
    }

    // The steps undone, the last first.
    pub(crate) fn undo_steps(&self, area: &mut [i32])
        requires { length area.old ≡ size_of self.now.lifting.shape }
        ensures { Back (passes_of self.now.lifting) area.old area.new }
    {
        for (k, step) in self.lifting.lift.steps().iter().enumerate().rev() {
            self.turn::<true>(k, step, area);
        }
    }
}
