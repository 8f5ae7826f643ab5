ghost use Rattle.std.specs.Prelude.{◌≡◌, ◌+◌, ◌≤◌, true, length, ◌+ℤ◌, ◌-ℤ◌};
ghost use Rattle.std.specs.Int.{int_wrap, w32};
ghost use Rattle.sets.specs.Areas.{size_of};
ghost use Rattle.sets.specs.Sets.{in_limits};
ghost use Rattle.stages.specs.Floors.{floor_over};
ghost use Rattle.transform.specs.Colours.{recoloured, Recoloured, RctTurned};

use crate::low_bits::low_bits;
use sets::shape::Shape;
use stages::colour::{luma, quarter};
use stages::stage::Rct;

// One sample of each of three channels. Not an array: a number for each channel says less than its name.
#[derive(Clone, Copy)]
struct Colours {
    first: i32,
    second: i32,
    third: i32,
}

// The second sample again, from the luma and the two differences.
// Casts: tried `i64::from`, and the proof of the bounds didn't close with it.
fn middle_of(luma: i32, one: i32, other: i32) -> i32
    ensures { result ≡ int_wrap w32 (luma -ℤ floor_over (one +ℤ other) 2) }
{
    low_bits(luma as i64 - quarter(one as i64 + other as i64))
}

fn recolour<const UNDO: bool>(a: i32, b: i32, c: i32) -> Colours
    ensures { result ≡ recoloured UNDO a b c }
{
    if UNDO {
        let middle = middle_of(a, b, c);
        Colours {
            first: c.wrapping_add(middle),
            second: middle,
            third: b.wrapping_add(middle),
        }
    } else {
        Colours {
            first: low_bits(luma(a, b, c)),
            second: c.wrapping_sub(b),
            third: a.wrapping_sub(b),
        }
    }
}

// Recolours `count` samples of three channels that start at p, q and r.
fn recolour_all<const UNDO: bool>(area: &mut [i32], p: usize, q: usize, r: usize, count: usize)
    requires apart { (p + count ≤ q) × (q + count ≤ r) }
    requires inside { r + count ≤ length area.old }
    ensures { Recoloured UNDO p q r count area.old area.new }
{
    // by index: the three channels are walked in place, side by side
    for t in 0..count {
        let new = recolour::<UNDO>(area[p + t], area[q + t], area[r + t]);
        area[p + t] = new.first;
        area[q + t] = new.second;
        area[r + t] = new.third;
    }
}

// Applies or undoes the colour transform. One function asks all this: a type like `DepRows` would be made for it alone.
pub(crate) fn turn_rct<const UNDO: bool>(rct: &Rct, shape: &Shape, area: &mut [i32])
    requires limits { in_limits shape.now ≡ true }
    requires room { rct.now.first + 3 ≤ shape.now.channels }
    requires long { length area.old ≡ size_of shape.now }
    ensures { RctTurned UNDO shape.now rct.now.first area.old area.new }
{
    let n = shape.samples;
    recolour_all::<UNDO>(
        area,
        rct.first * n,
        (rct.first + 1) * n,
        (rct.first + 2) * n,
        n,
    );
}
