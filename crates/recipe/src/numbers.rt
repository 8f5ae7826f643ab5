ghost use Rattle.std.specs.Prelude.{◌≡◌, min};
ghost use Rattle.recipe.specs.Fields.{read_on, value_of};
ghost use Rattle.recipe.specs.Promises.{capped, within};

// Where a number is cut off: no limit is as high.
const MOST: u64 = 4_294_967_295;

// The number that digits write, or 4,294,967,295 for any above. By hand, since `parse` takes text and refuses a number that is too high;
// cut off before each digit, in 64 bits, so that nothing overflows and no digit needs a test.
fn magnitude(digits: &[u8]) -> u32
    ensures { result ≡ min (read_on 0 digits.now) 4294967295 }
{
    let number = digits.iter().fold(0u64, |n, b| {
        n.min(MOST) * 10 + u64::from(b.saturating_sub(b'0'))
    });
    number.min(MOST) as u32
}

// The value of a number, of any length, with 4,294,967,295 for the magnitude of any above.
fn value(number: &[u8]) -> i64
    ensures { result ≡ capped (value_of number.now) }
{
    match number {
        [b'-', digits @ ..] => -i64::from(magnitude(digits)),
        _ => i64::from(magnitude(number)),
    }
}

// The value of a number, if it lies between the limits: two numbers, as in `Line::number`.
pub(crate) fn value_within(number: &[u8], least: i32, greatest: i32) -> Option<i32>
    ensures { result ≡ within least greatest (value_of number.now) }
{
    let value = i32::try_from(value(number)).ok()?;
    (least..=greatest).contains(&value).then_some(value)
}
