ghost use Rattle.std.specs.Prelude.{◌≡◌, true, length, ℤ, ◌+ℤ◌, Some, None, ◌≢◌};
ghost use Rattle.std.specs.Int.{int_wrap, w32};
ghost use Rattle.sets.specs.Areas.{size_of};
ghost use Rattle.stages.specs.Plain.{plain_lift};
ghost use Rattle.rules.specs.Lifted.{lone_odd};
ghost use Rattle.transform.specs.Lone.{Doubled, Halved, NoHalf};

use crate::lifting::Lifting;

// The double of a sample, in 32 bits that wrap.
fn double(x: i32) -> i32
    ensures { result ≡ int_wrap w32 (x +ℤ x) }
{
    x.wrapping_add(x)
}

// The number of which a sample is the double.
fn half(x: i32) -> Option<i32>
    ensures { elim result [ Some y ↦ y +ℤ y ≡ x | None ↦ ((y : ℤ) → y +ℤ y ≢ x) ] }
{
    (x % 2 == 0).then_some(x / 2)
}

// The samples of such lines are evenly spaced, and are walked in place. Doubling and halving are two loops, since only halving can fail.
// The area is passed apart, as in `LongLines`.
impl Lifting {
    // Doubles the samples of lines of one odd index.
    pub(crate) fn double_lone(&self, area: &mut [i32])
        requires lone { lone_odd self.now.shape (plain_lift self.now.lift) ≡ true }
        requires long { length area.old ≡ size_of self.now.shape }
        ensures { Doubled self.now.shape (plain_lift self.now.lift) area.old area.new }
    {
        let lines = self.along_time();
        for i in 0..lines.line_count {
            let a = lines.start + i * lines.apart;
            area[a] = double(area[a]);
        }
    }

    // Halves the samples of lines of one odd index. None where one is odd, and then the area may hold anything.
    pub(crate) fn halve_lone(&self, area: &mut [i32]) -> Option<()>
        requires lone { lone_odd self.now.shape (plain_lift self.now.lift) ≡ true }
        requires long { length area.old ≡ size_of self.now.shape }
        ensures even { result ≡ Some tt → Halved self.now.shape (plain_lift self.now.lift) area.old area.new }
        ensures odd { result ≡ None → NoHalf self.now.shape (plain_lift self.now.lift) area.old }
    {
        let lines = self.along_time();
        for i in 0..lines.line_count {
            let a = lines.start + i * lines.apart;
            area[a] = half(area[a])?;
        }
        Some(())
    }
}
