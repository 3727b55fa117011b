use cr_base::{Place, URule};
use cx_outside::Lack;

/// Why a run goes no further.
#[derive(Clone, Copy)]
pub enum Stop<'a> {
    /// The program ended with a status.
    Ended(i32),
    /// Its step is undefined.
    Undefined(URule, Place),
    Lacks(Lack<'a>),
}
