//! Conversions (ISO C99, 6.3).

ghost use Rattle.std.specs.Prelude.{◌≡◌, IfSome};
ghost use Rattle.cx_access.specs.Finds.{Finds};
ghost use Rattle.cx_access.specs.Views.{view_setting};
ghost use Rattle.cx_core.specs.Trees.{form_of_type};
ghost use Rattle.cx_core.specs.Views.{view_type};
ghost use Rattle.cx_mean.specs.Values.{converted_scalar, converted_value, to_scalar};
ghost use Rattle.cx_operations.specs.Gives.{given_value, whole_of};
ghost use Rattle.cx_work.specs.Views.{view_finished, view_operand_ty};
ghost use Rattle.cx_mean.specs.Operands.{by_pointers};
ghost use Rattle.mem_bytes.specs.Coding.{IsScalar};
ghost use Rattle.mem_bytes.specs.Pointers.{usable};

use crate::pointers::pointer_trouble;
use crate::truths::is_true;
use cr_base::{Int, Scalar, URule, convert};
use cx_access::{Setting, Trouble, number_in, scalar_of, scalar_value};
use cx_core::{Ty, TyForm};
use cx_work::{Finished, OperandTy};
use mem_bytes::{Store, Value, usable};

// To an integer type that isn't `_Bool`.
fn to_whole(width: u8, signed: bool, value: Value) -> Result<Value, Trouble>
    requires { IsScalar (Scalar.Whole width signed) }
    ensures { Finds (λ one. one) result (whole_of width signed value) }
{
    match number_in(value) {
        Ok(number) => Ok(Value::Whole(convert(Scalar::Whole { width, signed }, number))),
        Err(trouble) => Err(trouble),
    }
}

// Between pointers of one kind.
fn to_pointer<S: Store>(store: &S, value: Value) -> Result<Value, Trouble>
    ensures { Finds (λ one. one) result (by_pointers URule.U11 (usable (S.memory store.now) value)) }
{
    match usable(store, value) {
        Ok(pointer) => Ok(pointer),
        Err(fault) => Err(pointer_trouble(URule::U11, fault)),
    }
}

fn to_scalar<S: Store>(store: &S, kind: Scalar, value: Value) -> Result<Value, Trouble>
    requires { IsScalar kind }
    ensures { Finds (λ one. one) result (to_scalar kind (S.memory store.now) value) }
{
    match kind {
        Scalar::Truth => match is_true(store, value) {
            Ok(truth) => Ok(Value::Whole(Int::from(truth))),
            Err(trouble) => Err(trouble),
        },
        Scalar::Whole { width, signed } => to_whole(width, signed, value),
        Scalar::Object => match value {
            Value::Null => to_pointer(store, value),
            Value::Object(_) => to_pointer(store, value),
            Value::Whole(_) => Err(Trouble::Memory),
            Value::Code(_) => Err(Trouble::Memory),
        },
        Scalar::Code => match value {
            Value::Null => to_pointer(store, value),
            Value::Code(_) => to_pointer(store, value),
            Value::Whole(_) => Err(Trouble::Memory),
            Value::Object(_) => Err(Trouble::Memory),
        },
    }
}

fn converted_scalar<S: Store>(
    store: &S,
    kind: Option<Scalar>,
    value: &Finished,
) -> Result<Option<Value>, Trouble>
    requires { IfSome kind IsScalar }
    ensures { Finds given_value result (converted_scalar kind (S.memory store.now) (view_finished value.now)) }
{
    let Some(kind) = kind else {
        return Err(Trouble::Memory);
    };
    let one = match scalar_value(value) {
        Ok(one) => one,
        Err(trouble) => return Err(trouble),
    };
    match to_scalar(store, kind, one) {
        Ok(new) => Ok(Some(new)),
        Err(trouble) => Err(trouble),
    }
}

fn converted_to<S: Store>(
    store: &S,
    setting: &Setting<'_>,
    ty: &Ty,
    value: &Finished,
) -> Result<Option<Value>, Trouble>
    ensures { Finds given_value result (converted_value (view_setting setting.now) (view_type ty.now) (S.memory store.now) (view_finished value.now)) }
{
    match &ty.form {
        TyForm::Void => Ok(None),
        TyForm::Basic(_) => converted_scalar(store, scalar_of(setting, OperandTy::Of(ty)), value),
        TyForm::Enum(_) => converted_scalar(store, scalar_of(setting, OperandTy::Of(ty)), value),
        TyForm::Pointer(_) => converted_scalar(store, scalar_of(setting, OperandTy::Of(ty)), value),
        TyForm::Array(_, _) => Err(Trouble::Memory),
        TyForm::Record(_) => Err(Trouble::Memory),
        TyForm::Function(_) => Err(Trouble::Memory),
    }
}

/// What a conversion to a type gives: none for `void` (6.3.2.2).
///
/// # Errors
///
/// `Undefined` by U5 for a pointer to a dead object, or by U14 where there is no value.
#[tactic(auto, using(crate::proofs::Unqualified::same_conversion))]
pub fn converted_value<S: Store>(
    store: &S,
    setting: &Setting<'_>,
    ty: OperandTy<'_>,
    value: &Finished,
) -> Result<Option<Value>, Trouble>
    ensures { Finds given_value result (converted_value (view_setting setting.now) (view_operand_ty ty.entry) (S.memory store.now) (view_finished value.now)) }
{
    match ty {
        OperandTy::Of(ty) => converted_to(store, setting, ty, value),
        OperandTy::Unqualified(ty) => converted_to(store, setting, ty, value),
        OperandTy::Basic(_) => converted_scalar(store, scalar_of(setting, ty), value),
    }
}
