//! Functions around bodies that are given. They are refused only for want of memory.

ghost use Rattle.std.specs.Prelude.{◌≡◌, ◌++◌, ◌∷◌, [], true, Some, flat_map, length, map, option_map, IfOk, OnOk};
ghost use Rattle.cx_core.specs.Trees.{form_of_type};
ghost use Rattle.cx_core.specs.Views.{view_function, view_type};
ghost use Rattle.rs_items.specs.Known.{view_names};
ghost use Rattle.rs_text.specs.Tree as tree;
ghost use Rattle.rs_tree.specs.Views.{item_view, local_view, ty_view};
ghost use Rattle.whole_functions.specs.Bodies.{view_body};
ghost use Rattle.whole_functions.specs.Locals.{local_with};
ghost use Rattle.whole_given.specs.Whole.{named};
ghost use Rattle.whole_items.specs.Items.{dispatch_local, function_attribute, function_tree, param_of, result_of_form, value_type, written_result};
ghost use Rattle.whole_known.specs.Stages.{HasTypes};
ghost use Rattle.whole_locals.specs.Names.{view_local};
ghost use Rattle.whole_names.specs.FunctionNames.{gives_record, local_names};

use crate::locals::{put_locals, put_params};
use cr_base::{Boxed, Items, Memory, Name};
use cx_core::{Fun, Ty, TyForm};
use rs_items::NameMap;
use rs_text::{Attribute, IntegerTy};
use rs_tree::{Function, Item, Local, RStmt, RTy};
use std::alloc::Global;
use whole_given::Whole;
use whole_keys::{NameKey, is_entry};
use whole_known::type_of;
use whole_locals::{LocalName, gives_record};
use whole_statics::attribute_of;

/// What a body gives to its function.
#[derive(Drop)]
pub struct WrittenBody {
    /// The types of its temporaries.
    pub temporaries: Items<RTy>,
    /// Whether it says where it goes on by a number.
    pub has_dispatch: bool,
    pub statements: Items<RStmt>,
}

fn params_of(
    alloc: Global,
    whole: &Whole<'_>,
    names: &NameMap,
    fun: &Fun,
    keys: &[LocalName],
) -> Result<Items<Local>, Memory>
    requires { HasTypes (named whole.now) (view_names names.now).known }
    ensures { IfOk result (λ made. map local_view made ≡ flat_map (param_of (named whole.now) (view_function fun.now)) (map view_local keys.now)) }
{
    let mut params = Items::new(alloc);
    put_params(alloc, whole, names, fun, keys, &mut params)?;
    Ok(params)
}

fn block_number(alloc: Global) -> Result<Local, Memory>
    ensures { IfOk result (λ made. local_view made ∷ [] ≡ dispatch_local true) }
{
    let name = Vec::from_slice(alloc, b"current_block".as_slice())?;
    let ty = Boxed::new(alloc, RTy::Integer(IntegerTy::U32))?;
    Ok(Local {
        name: Name::of(name),
        ty,
    })
}

// Where the function goes on, by a number.
fn put_dispatch(alloc: Global, has_dispatch: bool, locals: &mut Items<Local>) -> Result<(), Memory>
    ensures { OnOk result (map local_view locals.new ≡ map local_view locals.old ++ dispatch_local has_dispatch) }
{
    if !has_dispatch {
        return Ok(());
    }
    locals.push(block_number(alloc)?)
}

fn locals_of(
    alloc: Global,
    whole: &Whole<'_>,
    names: &NameMap,
    fun: &Fun,
    temporaries: &[RTy],
    has_dispatch: bool,
    keys: &[LocalName],
) -> Result<Items<Local>, Memory>
    requires { HasTypes (named whole.now) (view_names names.now).known }
    ensures { IfOk result (λ made. map local_view made
        ≡ flat_map (local_with (named whole.now) (view_function fun.now) (map ty_view temporaries.now)) (map view_local keys.now) ++ dispatch_local has_dispatch) }
{
    let mut locals = Items::new(alloc);
    put_locals(alloc, whole, names, fun, temporaries, keys, &mut locals)?;
    put_dispatch(alloc, has_dispatch, &mut locals)?;
    Ok(locals)
}

fn value_type(ty: Boxed<RTy>) -> Option<Boxed<RTy>>
    ensures { option_map ty_view result ≡ value_type (ty_view ty) }
{
    match ty.get() {
        RTy::Void => None,
        _ => Some(ty),
    }
}

// The result of a function of this type: a structure or union isn't given back.
fn result_of(
    alloc: Global,
    whole: &Whole<'_>,
    names: &NameMap,
    ty: &Ty,
) -> Result<Option<Boxed<RTy>>, Memory>
    requires { HasTypes (named whole.now) (view_names names.now).known }
    ensures { IfOk result (λ made. option_map ty_view made
        ≡ written_result (named whole.now) (gives_record (form_of_type (view_type ty.now))) (result_of_form (form_of_type (view_type ty.now)))) }
{
    let is_record = gives_record(ty);
    match &ty.form {
        TyForm::Function(fun) => given_type(alloc, whole, names, is_record, &fun.get().result_ty),
        _ => Ok(None),
    }
}

fn given_type(
    alloc: Global,
    whole: &Whole<'_>,
    names: &NameMap,
    is_record: bool,
    ty: &Ty,
) -> Result<Option<Boxed<RTy>>, Memory>
    requires { HasTypes (named whole.now) (view_names names.now).known }
    ensures { IfOk result (λ made. option_map ty_view made ≡ written_result (named whole.now) is_record (Some (view_type ty.now))) }
{
    if is_record {
        return Ok(None);
    }
    let given = type_of(alloc, whole, names, ty)?;
    Ok(value_type(given))
}

// `main` aside.
fn function_attribute(alloc: Global, fun: &Fun, name: &Name) -> Result<Attribute, Memory>
    ensures { IfOk result (λ made. made ≡ function_attribute (view_function fun.now) name.now) }
{
    if is_entry(fun) {
        return Ok(Attribute::Mangled);
    }
    attribute_of(alloc, fun.linkage, fun.name.bytes(), name.bytes())
}

/// A function whose parameters, locals and temporaries have these names, around its body.
pub fn function_item(
    alloc: Global,
    whole: &Whole<'_>,
    names: &NameMap,
    fun: &Fun,
    keys: &[LocalName],
    body: WrittenBody,
) -> Result<Item, Memory>
    requires types { HasTypes (named whole.now) (view_names names.now).known }
    requires keys { map view_local keys.now ≡ local_names (named whole.now).program (view_function fun.now) (length body.temporaries) }
    ensures { IfOk result (λ item. item_view item ≡ tree.FunctionItem (function_tree (named whole.now) (view_function fun.now) (view_body body))) }
{
    let name = whole.name_in(fun.unit, NameKey::Function(fun.function))?;
    let attribute = function_attribute(alloc, fun, &name)?;
    let params = params_of(alloc, whole, names, fun, keys)?;
    let result = result_of(alloc, whole, names, &fun.ty)?;
    let locals = locals_of(
        alloc,
        whole,
        names,
        fun,
        body.temporaries.as_slice(),
        body.has_dispatch,
        keys,
    )?;
    Ok(Item::Function(Function {
        attribute,
        name,
        params,
        result,
        locals,
        body: body.statements,
    }))
}
