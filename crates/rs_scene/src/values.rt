//! Values that are written, and pointers to functions (the Rust Reference, "Literal expressions" and
//! "Function pointer types").

ghost use Rattle.std.specs.Prelude.{◌≡◌, map, option_map};
ghost use Rattle.std.specs.Option.{option_copied};
ghost use Rattle.rs_scene.specs.Calls.{pointed_view};
ghost use Rattle.rs_scene.specs.Scenes.{IsScene, frame_view};
ghost use Rattle.rs_machine.specs.Does.{Stays, end_of, found_end};
ghost use Rattle.rs_mean.specs.Run as run;
ghost use Rattle.rs_mean.specs.Values.{truth, typed};
ghost use Rattle.rs_mean.specs.World.{or_fails, pure};
ghost use Rattle.rs_text.specs.Tree as tree;
ghost use Rattle.rs_text.specs.Tree.{option_ty, tys};
ghost use Rattle.rs_tree.specs.Views.{module_view, ty_view};
ghost use Rattle.rs_value.specs.Views.{seen_as, typed_view};

use crate::lookup::{function_number, function_with};
use crate::scene::Scene;
use cr_base::{Boxed, Int, Items};
use mem_bytes::Value;
use rs_machine::Halt;
use rs_mean::Cause;
use rs_tree::{Function, IntegerTy, RPath, RTy};
use rs_value::{TypedValue, ValueTy, result_ty, truth};

/// A function pointer that isn't `None`: the types that it has, and the function.
#[derive(Clone, Copy)]
pub struct Pointed<'t> {
    pub params: &'t [RTy],
    pub given: Option<&'t RTy>,
    pub fun: Option<&'t Function>,
}

#[inline(always)]
fn integer_value<'t>(value: &Int, ty: IntegerTy) -> TypedValue<'t>
    ensures { typed_view result ≡ typed (tree.Integer ty) (Value.Whole value.now) }
{
    TypedValue {
        ty: ValueTy::Integer(ty),
        value: Value::Whole(*value),
    }
}

/// An integer literal.
#[inline(always)]
pub fn literal<'t>(value: &Int, ty: IntegerTy) -> Result<TypedValue<'t>, Halt<'t>>
    ensures { Stays (pure (typed (tree.Integer ty) (Value.Whole value.now))) (end_of typed_view result) }
{
    Ok(integer_value(value, ty))
}

/// `true` or `false`.
pub fn truth_value<'t>(test: bool) -> Result<TypedValue<'t>, Halt<'t>>
    ensures { Stays (pure (truth test)) (end_of typed_view result) }
{
    Ok(truth(test))
}

fn none_value<'t>() -> TypedValue<'t>
    ensures { typed_view result ≡ typed (tree.Code tree.no_tys tree.no_ty) Value.Null }
{
    TypedValue {
        ty: ValueTy::Code(&[], None),
        value: Value::Null,
    }
}

/// `None`, no function.
pub fn no_function<'t>() -> Result<TypedValue<'t>, Halt<'t>>
    ensures { Stays (pure (typed (tree.Code tree.no_tys tree.no_ty) Value.Null)) (end_of typed_view result) }
{
    Ok(none_value())
}

/// The null pointer to a value of a type.
pub fn null_pointer<'t>(ty: &'t RTy) -> Result<TypedValue<'t>, Halt<'t>>
    ensures { Stays (pure (typed (tree.Pointer (ty_view ty.now)) Value.Null)) (end_of typed_view result) }
{
    Ok(TypedValue {
        ty: ValueTy::Pointer(ty),
        value: Value::Null,
    })
}

fn code_value<'t>(
    params: &'t Items<RTy>,
    given: &'t Option<Boxed<RTy>>,
    number: u32,
) -> TypedValue<'t>
    ensures { typed_view result ≡ typed (tree.Code (tys (map ty_view params.now)) (option_ty (option_map ty_view given.now))) (Value.Code number) }
{
    TypedValue {
        ty: ValueTy::Code(params.as_slice(), result_ty(given)),
        value: Value::Code(number),
    }
}

fn function_value<'t>(
    number: Option<u32>,
    params: &'t Items<RTy>,
    given: &'t Option<Boxed<RTy>>,
) -> Result<TypedValue<'t>, Cause>
    ensures { run.function_value (tys (map ty_view params.now)) (option_ty (option_map ty_view given.now)) number ≡ or_fails (seen_as typed_view result) }
{
    match number {
        Some(number) => Ok(code_value(params, given, number)),
        None => Err(Cause::WrongCall),
    }
}

/// The address of a function.
pub fn some_function<'t>(
    scene: Scene<'t, '_>,
    path: &'t RPath,
    params: &'t Items<RTy>,
    given: &'t Option<Boxed<RTy>>,
) -> Result<TypedValue<'t>, Halt<'t>>
    requires { IsScene scene }
    ensures { Stays (run.run_expr (frame_view scene.entry) (tree.SomeFunction path.now.home path.now.name (tys (map ty_view params.now)) (option_ty (option_map ty_view given.now)))) (end_of typed_view result) }
{
    let number = match function_number(scene.functions, path) {
        Ok(number) => number,
        Err(_) => return Err(Halt::Memory),
    };
    settle(function_value(number, params, given))
}

/// A value that was found, or why there is none.
pub fn settle<'t>(found: Result<TypedValue<'t>, Cause>) -> Result<TypedValue<'t>, Halt<'t>>
    ensures { end_of typed_view result ≡ found_end (seen_as typed_view found.entry) }
{
    match found {
        Ok(value) => Ok(value),
        Err(why) => Err(Halt::Wrong(why)),
    }
}

fn value_given<'t>(given: Option<TypedValue<'t>>) -> Result<TypedValue<'t>, Cause>
    ensures { run.the_value (option_map typed_view given.entry) ≡ or_fails (seen_as typed_view result) }
{
    match given {
        Some(value) => Ok(value),
        None => Err(Cause::WrongCall),
    }
}

/// The result of a call whose value is used.
pub fn the_value<'t>(given: Option<TypedValue<'t>>) -> Result<TypedValue<'t>, Halt<'t>>
    ensures { Stays (run.the_value (option_map typed_view given.entry)) (end_of typed_view result) }
{
    settle(value_given(given))
}

// A function pointer that isn't `None`, or why it is none.
fn pointed_by<'t>(
    scene: Scene<'t, '_>,
    params: &'t [RTy],
    given: Option<&'t RTy>,
    value: Value,
) -> Result<Pointed<'t>, Cause>
    requires { IsScene scene }
    ensures { run.unwrapped_as (map module_view scene.entry.modules.now) (tys (map ty_view params.now)) (option_ty (option_map ty_view (option_copied given.entry))) value ≡ or_fails (seen_as pointed_view result) }
{
    match value {
        Value::Code(number) => Ok(Pointed {
            params,
            given,
            fun: function_with(scene.functions, number),
        }),
        Value::Null => Err(Cause::NoneCall),
        Value::Whole(_) => Err(Cause::WrongCall),
        Value::Object(_) => Err(Cause::WrongCall),
    }
}

fn pointed_found<'t>(scene: Scene<'t, '_>, pointer: TypedValue<'t>) -> Result<Pointed<'t>, Cause>
    requires { IsScene scene }
    ensures { run.unwrapped (map module_view scene.entry.modules.now) (typed_view pointer.entry) ≡ or_fails (seen_as pointed_view result) }
{
    match pointer.ty {
        ValueTy::Code(params, given) => pointed_by(scene, params, given, pointer.value),
        ValueTy::Integer(_)
        | ValueTy::Boolean
        | ValueTy::Void
        | ValueTy::Pointer(_)
        | ValueTy::Array(_, _)
        | ValueTy::Record(_) => Err(Cause::WrongCall),
    }
}

fn settle_pointed<'t>(found: Result<Pointed<'t>, Cause>) -> Result<Pointed<'t>, Halt<'t>>
    ensures { end_of pointed_view result ≡ found_end (seen_as pointed_view found.entry) }
{
    match found {
        Ok(value) => Ok(value),
        Err(why) => Err(Halt::Wrong(why)),
    }
}

/// `unwrap` of a function pointer.
pub fn unwrapped<'t>(scene: Scene<'t, '_>, pointer: TypedValue<'t>) -> Result<Pointed<'t>, Halt<'t>>
    requires { IsScene scene }
    ensures { Stays (run.unwrapped (map module_view scene.entry.modules.now) (typed_view pointer.entry)) (end_of pointed_view result) }
{
    settle_pointed(pointed_found(scene, pointer))
}
