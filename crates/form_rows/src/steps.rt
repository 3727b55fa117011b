//! The steps of a row.

use crate::operand::{Operand, Pile, push, taken, valued};
use crate::places::{address, bits, local, member, object, pointed, used};
use crate::types::{path_asked, type_asked};
use cr_base::{Boxed, Int, Memory};
use cx_core::{Op1, Op2};
use lift_forms_code::{
    RGiven, and_form, binary_form, choice_form, constant, converted, function_form, null_of,
    or_form, unary_form, zero_of,
};
use row_words::Asked;
use rs_tree::{RExpr, RTy};
use std::alloc::Global;

/// What a step does.
#[derive(Clone, Copy)]
enum Step {
    /// A local.
    Local,
    /// A static object.
    Static,
    /// A constant.
    Number,
    /// Zero, `false`, null or `None`.
    Zero,
    /// The null pointer.
    Null,
    /// A function.
    Function,
    /// An operator with one operand.
    Unary(Op1),
    /// An operator with two operands.
    Binary(Op2),
    /// `&&`.
    And,
    /// `||`.
    Or,
    /// `?:`.
    Choice,
    /// A conversion.
    As,
    /// An object with another type than it is kept with.
    Used,
    /// What an operand points to.
    Pointed,
    /// A member.
    Member,
    /// The address of a place.
    Address,
    /// A bit-field.
    Bits,
}

const STEPS: [(&str, Step); 35] = [
    ("local", Step::Local),
    ("static", Step::Static),
    ("number", Step::Number),
    ("zero", Step::Zero),
    ("null", Step::Null),
    ("function", Step::Function),
    ("plus", Step::Unary(Op1::Plus)),
    ("minus", Step::Unary(Op1::Minus)),
    ("complement", Step::Unary(Op1::Complement)),
    ("not", Step::Unary(Op1::Not)),
    ("multiply", Step::Binary(Op2::Multiply)),
    ("divide", Step::Binary(Op2::Divide)),
    ("remainder", Step::Binary(Op2::Remainder)),
    ("add", Step::Binary(Op2::Add)),
    ("subtract", Step::Binary(Op2::Subtract)),
    ("shift_left", Step::Binary(Op2::ShiftLeft)),
    ("shift_right", Step::Binary(Op2::ShiftRight)),
    ("less", Step::Binary(Op2::Less)),
    ("greater", Step::Binary(Op2::Greater)),
    ("less_or_equal", Step::Binary(Op2::LessOrEqual)),
    ("greater_or_equal", Step::Binary(Op2::GreaterOrEqual)),
    ("equal", Step::Binary(Op2::Equal)),
    ("not_equal", Step::Binary(Op2::NotEqual)),
    ("bit_and", Step::Binary(Op2::BitAnd)),
    ("bit_xor", Step::Binary(Op2::BitXor)),
    ("bit_or", Step::Binary(Op2::BitOr)),
    ("and", Step::And),
    ("or", Step::Or),
    ("choice", Step::Choice),
    ("as", Step::As),
    ("used", Step::Used),
    ("pointed", Step::Pointed),
    ("member", Step::Member),
    ("address", Step::Address),
    ("bits", Step::Bits),
];

/// Does the steps that are left.
pub(crate) fn do_steps(alloc: Global, pile: &mut Pile, asked: &mut Asked) {
    for step in asked.rest().split(" | ") {
        asked.begin(step);
        if let Some(step) = asked.named(&STEPS) {
            step.act(alloc, pile, asked);
        }
        asked.end();
    }
}

impl Step {
    fn act(self, alloc: Global, pile: &mut Pile, asked: &mut Asked) {
        match self {
            Step::Local => local(alloc, pile, asked),
            Step::Static => object(alloc, pile, asked),
            Step::Number => number(alloc, pile, asked),
            Step::Zero => zero(alloc, pile, asked),
            Step::Null => null(alloc, pile, asked),
            Step::Function => function(alloc, pile, asked),
            Step::Unary(op) => unary(alloc, pile, asked, op),
            Step::Binary(op) => binary(alloc, pile, asked, op),
            Step::And => both(alloc, pile, asked),
            Step::Or => either(alloc, pile, asked),
            Step::Choice => choice(alloc, pile, asked),
            Step::As => conversion(alloc, pile, asked),
            Step::Used => used(alloc, pile, asked),
            Step::Pointed => pointed(alloc, pile, asked),
            Step::Member => member(alloc, pile, asked),
            Step::Address => address(alloc, pile, asked),
            Step::Bits => bits(alloc, pile, asked),
        }
    }
}

// ---- constants and functions

// Puts a value of a type on the pile, where there was memory for it.
fn push_value(
    pile: &mut Pile,
    ty: Boxed<RTy>,
    made: Result<Boxed<RExpr>, Memory>,
    asked: &mut Asked,
) {
    let given = valued(asked.had(made));
    push(pile, Some(ty), given, asked);
}

fn number(alloc: Global, pile: &mut Pile, asked: &mut Asked) {
    let number: Int = asked.number();
    if let Some(ty) = type_asked(alloc, asked) {
        let made = constant(alloc, ty.get(), number);
        push_value(pile, ty, made, asked);
    }
}

fn zero(alloc: Global, pile: &mut Pile, asked: &mut Asked) {
    if let Some(ty) = type_asked(alloc, asked) {
        let made = zero_of(alloc, ty.get());
        push_value(pile, ty, made, asked);
    }
}

fn null(alloc: Global, pile: &mut Pile, asked: &mut Asked) {
    if let Some(ty) = type_asked(alloc, asked) {
        let made = null_of(alloc, ty.get());
        push_value(pile, ty, made, asked);
    }
}

fn function(alloc: Global, pile: &mut Pile, asked: &mut Asked) {
    let path = path_asked(alloc, asked);
    if let Some(ty) = type_asked(alloc, asked) {
        let made = function_form(alloc, path, ty.get(), ty.get());
        let given = asked.had(made);
        push(pile, Some(ty), given, asked);
    }
}

// ---- operators

fn unary(alloc: Global, pile: &mut Pile, asked: &mut Asked, op: Op1) {
    let ty = type_asked(alloc, asked);
    if let Some(Operand { ty: of, given }) = taken(pile, asked) {
        let made = unary_form(alloc, op, of.get(), given);
        let given = asked.had(made);
        push(pile, ty, given, asked);
    }
}

fn conversion(alloc: Global, pile: &mut Pile, asked: &mut Asked) {
    let Some(ty) = type_asked(alloc, asked) else {
        return;
    };
    if let Some(Operand { ty: of, given }) = taken(pile, asked) {
        let made = converted(alloc, ty.get(), of.get(), given);
        let given = asked.had(made);
        push(pile, Some(ty), given, asked);
    }
}

/// Two operands, of which the right one was on top, with their types.
#[derive(Drop)]
struct Two {
    left_ty: Boxed<RTy>,
    left: RGiven,
    right_ty: Boxed<RTy>,
    right: RGiven,
}

fn two_taken(pile: &mut Pile, asked: &mut Asked) -> Option<Two> {
    let right = taken(pile, asked)?;
    let left = taken(pile, asked)?;
    let Operand {
        ty: right_ty,
        given: right,
    } = right;
    let Operand {
        ty: left_ty,
        given: left,
    } = left;
    Some(Two {
        left_ty,
        left,
        right_ty,
        right,
    })
}

fn binary(alloc: Global, pile: &mut Pile, asked: &mut Asked, op: Op2) {
    let ty = type_asked(alloc, asked);
    if let Some(two) = two_taken(pile, asked) {
        let Two {
            left_ty,
            left,
            right_ty,
            right,
        } = two;
        let made = binary_form(alloc, op, left_ty.get(), left, right_ty.get(), right);
        let given = asked.had(made);
        push(pile, ty, given, asked);
    }
}

fn both(alloc: Global, pile: &mut Pile, asked: &mut Asked) {
    let ty = type_asked(alloc, asked);
    if let Some(two) = two_taken(pile, asked) {
        let Two {
            left_ty,
            left,
            right_ty,
            right,
        } = two;
        let made = and_form(alloc, left_ty.get(), left, right_ty.get(), right);
        let given = asked.had(made);
        push(pile, ty, given, asked);
    }
}

fn either(alloc: Global, pile: &mut Pile, asked: &mut Asked) {
    let ty = type_asked(alloc, asked);
    if let Some(two) = two_taken(pile, asked) {
        let Two {
            left_ty,
            left,
            right_ty,
            right,
        } = two;
        let made = or_form(alloc, left_ty.get(), left, right_ty.get(), right);
        let given = asked.had(made);
        push(pile, ty, given, asked);
    }
}

fn choice(alloc: Global, pile: &mut Pile, asked: &mut Asked) {
    let ty = type_asked(alloc, asked);
    let Some(two) = two_taken(pile, asked) else {
        return;
    };
    let Two {
        left_ty: _,
        left,
        right_ty: _,
        right,
    } = two;
    if let Some(Operand { ty: of, given }) = taken(pile, asked) {
        let made = choice_form(alloc, of.get(), given, left, right);
        let given = asked.had(made);
        push(pile, ty, given, asked);
    }
}
