//! `op=`, `++` and `--` in four steps: a load, a computation, a conversion and a store (ISO C99, 6.5.2.4, 6.5.3.1,
//! 6.5.16.2).

ghost use Rattle.std.specs.Prelude.{◌≡◌};
ghost use Rattle.cx_access.specs.Finds.{Finds};
ghost use Rattle.cx_access.specs.Views.{view_setting};
ghost use Rattle.cx_core.specs.Views.{view_type};
ghost use Rattle.cx_mean.specs.Nodes.{update_computed, update_converted, update_loaded, update_stored};
ghost use Rattle.cx_mean.specs.Operands.{scalar, scalar_value};
ghost use Rattle.cx_mean.specs.Marks.{Marks};
ghost use Rattle.cx_mean.specs.Values.{converted_value};
ghost use Rattle.cx_node_steps.specs.Changes.{view_change, view_updating};
ghost use Rattle.cx_work.specs.Views.{view_finished, view_operand_ty, view_update};
ghost use Rattle.mem_bytes.specs.Access.{and_then};

use cr_base::URule;
use cx_access::{Setting, Trouble, loaded, scalar_value, stored};
use cx_core::{Op2, Ty};
use cx_operations::{binary_value, converted_value};
use cx_work::{Finished, Marks, Objects, OperandTy, Typed, Update};
use mem_bytes::{Store, Value};
use std::alloc::Global;

/// What `op=`, `++` or `--` computes, and with what.
#[derive(Clone, Copy)]
pub struct Change<'a> {
    pub op: Op2,
    /// The type in which the operator computes.
    pub computes: OperandTy<'a>,
    pub right: Typed<'a>,
    /// Whether the operator stands behind the lvalue.
    pub is_postfix: bool,
}

/// The first step: the load of the target, which is marked.
///
/// # Errors
///
/// `Undefined` by the rules of a load.
pub fn updating<'a, S: Store, O: Objects>(
    alloc: Global,
    store: &S,
    objects: &O,
    setting: &Setting<'_>,
    change: Change<'a>,
    ty: &'a Ty,
    target: Finished,
    marks: &mut Marks,
) -> Result<Update<'a>, Trouble>
    ensures { (before : Marks) → Finds (view_updating marks.new) result (update_loaded (view_setting setting.now) (O.frame objects.now) (S.memory store.now) marks.old
        (view_change change.entry (record { type = view_type ty.now; value = view_finished target; marks = before }))) }
{
    let target_ty = OperandTy::Unqualified(ty);
    let value = match loaded(alloc, store, objects, setting, target_ty, &target, marks) {
        Ok(value) => value,
        Err(trouble) => return Err(trouble),
    };
    match scalar_value(&value) {
        Ok(old) => Ok(Update {
            op: change.op,
            computes: change.computes,
            right: change.right,
            target_ty,
            target,
            is_postfix: change.is_postfix,
            old,
        }),
        Err(trouble) => Err(trouble),
    }
}

// A conversion that has to give a scalar value.
fn converted<S: Store>(
    store: &S,
    setting: &Setting<'_>,
    ty: OperandTy<'_>,
    value: Value,
) -> Result<Value, Trouble>
    ensures { Finds (λ one. one) result (and_then (converted_value (view_setting setting.now) (view_operand_ty ty.entry) (S.memory store.now) (scalar value)) scalar_value) }
{
    match converted_value(store, setting, ty, &Finished::Scalar(value)) {
        Ok(Some(value)) => Ok(value),
        Ok(None) => Err(Trouble::Undefined(URule::U14)),
        Err(trouble) => Err(trouble),
    }
}

/// The second: what was loaded is converted to the type in which the operator computes, and the operator is applied.
///
/// # Errors
///
/// `Undefined` by the rules of the operator.
#[tactic(auto, using(crate::proofs::Grouped::converted_first))]
pub fn update_computed<S: Store>(
    store: &S,
    setting: &Setting<'_>,
    update: &Update<'_>,
) -> Result<Value, Trouble>
    ensures { Finds (λ one. one) result (update_computed (view_setting setting.now) (S.memory store.now) (view_update update.now)) }
{
    let left = match converted(store, setting, update.computes, update.old) {
        Ok(value) => Typed {
            ty: update.computes,
            value,
        },
        Err(trouble) => return Err(trouble),
    };
    binary_value(
        store,
        setting,
        update.op,
        update.computes,
        left,
        update.right,
    )
}

/// The third: the conversion to the type of the target.
///
/// # Errors
///
/// `Undefined(U5)` for a pointer to a dead object.
pub fn update_converted<S: Store>(
    store: &S,
    setting: &Setting<'_>,
    update: &Update<'_>,
    new: Value,
) -> Result<Value, Trouble>
    ensures { Finds (λ one. one) result (update_converted (view_setting setting.now) (S.memory store.now) (view_update update.now) new) }
{
    converted(store, setting, update.target_ty, new)
}

/// The fourth: the store, which is marked; a postfix form gives what was loaded.
///
/// # Errors
///
/// `Undefined` by the rules of a store.
pub fn update_stored<S: Store, O: Objects>(
    store: &mut S,
    objects: &O,
    setting: &Setting<'_>,
    update: &Update<'_>,
    new: Value,
    marks: &mut Marks,
) -> Result<Finished, Trouble>
    ensures stored { Finds (λ given. record { value = view_finished given; marks = marks.new; blocks = S.memory store.new }) result
        (update_stored (view_setting setting.now) (O.frame objects.now) (S.memory store.old) (view_update update.now) marks.old new) }
    ensures limit { S.limit store.new ≡ S.limit store.old }
{
    let given = match stored(
        store,
        objects,
        setting,
        update.target_ty,
        &update.target,
        Finished::Scalar(new),
        marks,
    ) {
        Ok(given) => given,
        Err(trouble) => return Err(trouble),
    };
    if update.is_postfix {
        return Ok(Finished::Scalar(update.old));
    }
    Ok(given)
}
