ghost use Rattle.std.specs.Prelude.{◌≡◌, true, length};
ghost use Rattle.sets.specs.Areas.{size_of};
ghost use Rattle.sets.specs.Sets.{in_limits};
ghost use Rattle.stages.specs.Plain.{Plain};
ghost use Rattle.stages.specs.Stages.{fits_in};
ghost use Rattle.transform.specs.Work.{Applied, TakenBack};

use sets::shape::Shape;

// What a kind of stage does to areas of samples, in place.
// Shape and area are passed apart, as a rack's calls pass them, and each function asks that they fit: a type of both would have to hold the
// lent area.
pub(crate) trait Work {
    // The stage by its words and numbers.
    ghost kind: { Self → Plain };

    // Turns a set within spans that the stage admits into what the stage makes of it.
    fn apply(&self, shape: &Shape, area: &mut [i32])
        requires shape { in_limits shape.now ≡ true }
        requires fit { fits_in (kind self.now) shape.now.channels ≡ true }
        requires long { length area.old ≡ size_of shape.now }
        ensures { Applied shape.now (kind self.now) area.old area.new };

    // Turns an area back into the only set that can give it. False where none can: then the area holds anything.
    // A flag is the whole answer, as in `Stages::backward`.
    fn take_back(&self, shape: &Shape, area: &mut [i32]) -> bool
        requires shape { in_limits shape.now ≡ true }
        requires fit { fits_in (kind self.now) shape.now.channels ≡ true }
        requires long { length area.old ≡ size_of shape.now }
        ensures { TakenBack shape.now (kind self.now) area.old result area.new };
}
