ghost use Rattle.std.specs.Prelude.{◌≡◌, ◌+◌, ◌-◌, ◌≤◌, [], length, take, replicate, pos, codes};
ghost use Rattle.stages.specs.Channels.{half_of};
ghost use Rattle.recipe.specs.Grammar.{natural, numbers, lift_from, parity_from, step_from, row_from};
ghost use Rattle.stages.specs.Plain.{plain_step, plain_row, lift as a-lift, dep as a-dep, rct as an-rct};
ghost use Rattle.recipe.specs.Promises.{Judged, Begins, fields_in, headed, wrong_as, wrong_from};
ghost use Rattle.recipe.specs.Rules.{lift, step, dep, row, rct, tap_rule};

use crate::begun::Begun;
use crate::fault::Fault;
use crate::line::Line;
use stages::quotient::Quotient;
use stages::stage::{Axis, Dep, Extension, Lift, Parity, Rct, Stage, Step};

// The numbers of the `n` fields from field `from` on, as taps.
fn taps(line: &Line, from: usize, n: usize) -> Result<[i16; 8], Fault>
    requires from { from ≤ 4 }
    requires few { n ≤ 8 }
    ensures { Judged (wrong_from line.now from (replicate n tap_rule)) (λ ts. take n ts ≡ numbers (fields_in line.now) from n) result }
{
    // The casts, here and below, lose nothing, as the check proves: `try_from` would ask for an answer where it fails.
    let mut found: [i16; 8] = [0; 8];
    for (i, tap) in found[..n].iter_mut().enumerate() {
        *tap = line.number((from + i) as u8, -32768, 32767)? as i16;
    }
    Ok(found)
}

// A quotient without taps, which holds the place of steps and rows to come.
const NO_QUOTIENT: Quotient = Quotient {
    taps: [0; 8],
    tap_count: 0,
    residue: 0,
    exponent: 0,
};

// A function: the number is 0 or 1 by now, and a `TryFrom` would have an error to rule out.
fn parity(number: usize) -> Parity
    ensures { result ≡ parity_from number }
{
    match number {
        0 => Parity::Even,
        _ => Parity::Odd,
    }
}

// A LIFT line; its steps are still to come.
pub(crate) fn lift_line(line: &Line) -> Result<Begun, Fault>
    ensures { Judged (wrong_as lift line.now) (Begins (a-lift (lift_from (fields_in line.now)) []) (natural (fields_in line.now) 7)) result }
{
    let axis = line.one_of(1, (b"T", Axis::Time), (b"C", Axis::Channel))?;
    let first = line.natural(2, 0, 63)?;
    let count = line.natural(3, 1, 64 - first)?;
    let level = line.natural(4, 0, 15)?;
    let extension = line.one_of(
        5,
        (b"WS", Extension::Mirrored),
        (b"CON", Extension::Nearest),
    )?;
    let odd = line.natural(6, 0, 1)?;
    let left = line.natural(7, 1, 4)?;
    let step = Step {
        offset: 0,
        quotient: NO_QUOTIENT,
    };
    let lift = Lift {
        axis,
        first,
        count,
        level: level as u32,
        extension,
        parity: parity(odd),
        steps: [step; 4],
        step_count: 0,
    };
    Ok(Begun {
        stage: Stage::Lift(lift),
        left,
    })
}

// A DEP line; its rows are still to come.
pub(crate) fn dep_line(line: &Line) -> Result<Begun, Fault>
    ensures { Judged (wrong_as dep line.now) (Begins (a-dep (natural (fields_in line.now) 1) []) (natural (fields_in line.now) 2 - 1)) result }
{
    let first = line.natural(1, 0, 63)?;
    let count = line.natural(2, 2, (64 - first).min(8))?;
    let dep = Dep {
        first,
        count: 1,
        rows: [NO_QUOTIENT; 7],
    };
    Ok(Begun {
        stage: Stage::Dep(dep),
        left: count - 1,
    })
}

// An RCT line, which is a stage by itself.
pub(crate) fn rct_line(line: &Line) -> Result<Begun, Fault>
    ensures { Judged (wrong_as rct line.now) (Begins (an-rct (natural (fields_in line.now) 1)) 0) result }
{
    let first = line.natural(1, 0, 61)?;
    Ok(Begun {
        stage: Stage::Rct(Rct { first }),
        left: 0,
    })
}

// The fields of a STEP line with `n` taps.
fn step_line(line: &Line, n: usize) -> Result<Step, Fault>
    requires few { n ≤ 8 }
    requires fields { length (fields_in line.now) ≡ n + 4 }
    ensures { Judged (wrong_as step line.now) (λ s. plain_step s ≡ step_from (fields_in line.now)) result }
{
    let offset = line.number(1, -8, 8)?;
    let exponent = line.natural(2, 0, 16)?;
    let residue = line.number(3, -65536, 65536)?;
    let taps = taps(line, 4, n)?;
    let quotient = Quotient {
        taps,
        tap_count: n,
        residue,
        exponent: exponent as u32,
    };
    Ok(Step { offset, quotient })
}

// The step of a line that must be a STEP line.
#[tactic(auto, unfolding(crate::specs::Fields::is_word))]
pub(crate) fn step_due(line: &Line) -> Result<Step, Fault>
    ensures { Judged (headed (codes "STEP") step line.now.number (fields_in line.now)) (λ s. plain_step s ≡ step_from (fields_in line.now)) result }
{
    let behind = line.check_head(b"STEP", 4, 11)?;
    step_line(line, behind - 3)
}

// Half of 2 to the exponent, rounded down.
fn half(exponent: usize) -> i32
    requires { exponent ≤ 16 }
    ensures { result ≡ pos (half_of exponent) }
{
    if exponent == 0 {
        0
    } else {
        1 << (exponent - 1)
    }
}

// The fields of the ROW line of row `i`, from 1.
fn row_line(line: &Line, i: usize) -> Result<Quotient, Fault>
    requires few { i ≤ 7 }
    requires fields { length (fields_in line.now) ≡ i + 2 }
    ensures { Judged (wrong_as (row i) line.now) (λ q. plain_row q ≡ row_from (fields_in line.now)) result }
{
    let exponent = line.natural(1, 0, 16)?;
    let taps = taps(line, 2, i)?;
    let residue = half(exponent);
    Ok(Quotient {
        taps,
        tap_count: i,
        residue,
        exponent: exponent as u32,
    })
}

// The row of a line that must be the ROW line of row `i`.
#[tactic(auto, unfolding(crate::specs::Fields::is_word))]
pub(crate) fn row_due(line: &Line, i: usize) -> Result<Quotient, Fault>
    requires { i ≤ 7 }
    ensures { Judged (headed (codes "ROW") (row i) line.now.number (fields_in line.now)) (λ q. plain_row q ≡ row_from (fields_in line.now)) result }
{
    line.check_head(b"ROW", i + 1, i + 1)?;
    row_line(line, i)
}
