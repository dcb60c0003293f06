//! Values that are let go, and values that take the place of others, by small functions: the proof of a function that
//! lets a large value go itself unfolds all that its type is of, once for each way on which it does.

ghost use Rattle.std.specs.Prelude.{◌≡◌, IfOk, Ok};

/// Lets a value go.
pub fn let_go<T: Drop>(value: T) {
    let _value = value;
}

/// Puts a value in the place of another, which is let go.
pub fn put_in<T: Drop>(place: &mut T, value: T)
    ensures { place.new ≡ value }
{
    *place = value;
}

/// A value and what an answer holds beside it; where the answer is an error, the value is let go.
pub fn beside<T: Drop, U, E>(value: T, answer: Result<U, E>) -> Result<(T, U), E>
    ensures same { IfOk result (λ both. both.0 ≡ value) }
    ensures ok { IfOk result (λ both. answer ≡ Ok both.1) }
{
    match answer {
        Ok(found) => Ok((value, found)),
        Err(error) => {
            let_go(value);
            Err(error)
        }
    }
}
