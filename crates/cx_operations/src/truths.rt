//! Whether a value compares unequal to 0 (ISO C99, 6.5.3.3p5).

ghost use Rattle.std.specs.Prelude.{◌≡◌};
ghost use Rattle.cx_access.specs.Finds.{Finds};
ghost use Rattle.cx_mean.specs.Values.{is_true};

use crate::pointers::pointer_trouble;
use cr_base::URule;
use cx_access::Trouble;
use mem_bytes::{Store, Value, usable};

/// Whether a value compares unequal to 0.
///
/// # Errors
///
/// `Undefined(U5)` for a pointer to a dead object.
pub fn is_true<S: Store>(store: &S, value: Value) -> Result<bool, Trouble>
    ensures { Finds (λ truth. truth) result (is_true (S.memory store.now) value) }
{
    match value {
        Value::Whole(number) => Ok(number != 0),
        Value::Null => Ok(false),
        Value::Object(_) => match usable(store, value) {
            Ok(_) => Ok(true),
            Err(fault) => Err(pointer_trouble(URule::U12, fault)),
        },
        Value::Code(_) => Ok(true),
    }
}
