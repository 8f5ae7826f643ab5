ghost use Rattle.std.specs.Prelude.{◌≡◌};
ghost use Rattle.recipe.specs.Fields.{Shows, is_word, is_natural, is_number};

use crate::field::Field;

fn is_word(bytes: &[u8]) -> bool
    ensures { result ≡ is_word bytes.now }
{
    !bytes.is_empty() && bytes.iter().all(|b| b.is_ascii_uppercase())
}

fn is_natural(bytes: &[u8]) -> bool
    ensures { result ≡ is_natural bytes.now }
{
    match bytes {
        [] => false,
        [b'0', more @ ..] => more.is_empty(),
        _ => bytes.iter().all(|b| b.is_ascii_digit()),
    }
}

fn is_number(bytes: &[u8]) -> bool
    ensures { result ≡ is_number bytes.now }
{
    match bytes {
        [b'-', b'0'] => false, // there is no -0
        [b'-', digits @ ..] => is_natural(digits),
        _ => is_natural(bytes),
    }
}

// The field that the bytes make.
pub(crate) fn kind(bytes: &[u8]) -> Field<'_>
    ensures { Shows result bytes.now }
{
    match bytes {
        [] => Field::Empty,
        _ if is_word(bytes) => Field::Word(bytes),
        _ if is_number(bytes) => Field::Number(bytes),
        _ => Field::Other(bytes),
    }
}
