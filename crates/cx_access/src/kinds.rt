//! What is loaded or stored in one access (ISO C99, 6.2.5 and 6.3.2.1).

ghost use Rattle.std.specs.Prelude.{◌≡◌, ◌/◌, IfOk, IfSome};
ghost use Rattle.cx_access.specs.Calls.{IsKind};
ghost use Rattle.cx_access.specs.Finds.{Finds};
ghost use Rattle.cx_access.specs.Views.{view_kind, view_setting};
ghost use Rattle.cx_core.specs.Views.{view_type};
ghost use Rattle.cx_mean.specs.Accesses.{kind_of, record_kind, scalar_kind};
ghost use Rattle.cx_mean.specs.Settings.{extent_in, scalar_in_type};
ghost use Rattle.cx_core.specs.Conversions.{width_of_basic};
ghost use Rattle.cx_core.specs.Layouts.{bytes};
ghost use Rattle.cx_work.specs.Views.{view_operand_ty};
ghost use Rattle.mem_bytes.specs.Coding.{IsScalar};

use crate::setting::Setting;
use crate::trouble::Trouble;
use cr_base::{Laid, Scalar};
use cx_core::{Basic, Ty, TyForm};
use cx_work::OperandTy;

/// What is loaded or stored in one access.
#[derive(Clone, Copy)]
pub enum Kind {
    Scalar(Scalar),
    /// A structure or union of this size and alignment.
    Record(Laid),
}

#[tactic(auto, using(crate::proofs::Scalars::scalars_fit))]
fn scalar_in(setting: &Setting<'_>, ty: &Ty) -> Option<Scalar>
    ensures scalar { result ≡ scalar_in_type (view_setting setting.now) (view_type ty.now) }
    ensures fits { IfSome result IsScalar }
{
    cx_core::scalar_of(ty, &setting.program.types)
}

/// The scalar type that memory sees in a type; none where it isn't scalar.
#[tactic(auto, using(crate::proofs::Scalars::unqualified_scalar, crate::proofs::Scalars::basics_fit))]
pub fn scalar_of(setting: &Setting<'_>, ty: OperandTy<'_>) -> Option<Scalar>
    ensures scalar { result ≡ scalar_in_type (view_setting setting.now) (view_operand_ty ty.entry) }
    ensures fits { IfSome result IsScalar }
{
    match ty {
        OperandTy::Of(ty) => scalar_in(setting, ty),
        OperandTy::Unqualified(ty) => scalar_in(setting, ty),
        OperandTy::Basic(which) => Some(which.scalar()),
    }
}

#[tactic(auto, using(crate::proofs::Scalars::laid_by_parts, crate::proofs::Scalars::none_by_part))]
fn extent_in(setting: &Setting<'_>, ty: &Ty) -> Option<Laid>
    ensures { result ≡ extent_in (view_setting setting.now) (view_type ty.now) }
{
    let Some(size) = setting.layouts.size(ty) else {
        return None;
    };
    let Some(align) = setting.layouts.align(ty) else {
        return None;
    };
    Some(Laid { size, align })
}

/// The size and the alignment of a type; none where it is incomplete.
#[tactic(auto, using(crate::proofs::Scalars::unqualified_extent, crate::proofs::Scalars::basic_extent))]
pub fn extent_of(setting: &Setting<'_>, ty: OperandTy<'_>) -> Option<Laid>
    ensures { result ≡ extent_in (view_setting setting.now) (view_operand_ty ty.entry) }
{
    match ty {
        OperandTy::Of(ty) => extent_in(setting, ty),
        OperandTy::Unqualified(ty) => extent_in(setting, ty),
        OperandTy::Basic(which) => Some(basic_laid(which)),
    }
}

fn basic_laid(which: Basic) -> Laid
    ensures { result ≡ bytes (width_of_basic which / 8) }
{
    let size = u64::from(which.width() / 8);
    Laid { size, align: size }
}

fn scalar_kind(kind: Option<Scalar>) -> Result<Kind, Trouble>
    requires { IfSome kind IsScalar }
    ensures kind { Finds view_kind result (scalar_kind kind) }
    ensures fits { IfOk result IsKind }
{
    match kind {
        Some(kind) => Ok(Kind::Scalar(kind)),
        None => Err(Trouble::Memory),
    }
}

fn record_kind(laid: Option<Laid>) -> Result<Kind, Trouble>
    ensures kind { Finds view_kind result (record_kind laid) }
    ensures fits { IfOk result IsKind }
{
    match laid {
        Some(laid) => Ok(Kind::Record(laid)),
        None => Err(Trouble::Memory),
    }
}

fn kind_in(setting: &Setting<'_>, ty: &Ty) -> Result<Kind, Trouble>
    ensures kind { Finds view_kind result (kind_of (view_setting setting.now) (view_type ty.now)) }
    ensures fits { IfOk result IsKind }
{
    match &ty.form {
        TyForm::Basic(_) => scalar_kind(scalar_in(setting, ty)),
        TyForm::Enum(_) => scalar_kind(scalar_in(setting, ty)),
        TyForm::Pointer(_) => scalar_kind(scalar_in(setting, ty)),
        TyForm::Record(_) => record_kind(extent_in(setting, ty)),
        TyForm::Void => Err(Trouble::Memory),
        TyForm::Array(_, _) => Err(Trouble::Memory),
        TyForm::Function(_) => Err(Trouble::Memory),
    }
}

/// What is loaded or stored in one access to an object of a type.
#[tactic(auto, using(crate::proofs::Scalars::unqualified_kind, crate::proofs::Scalars::basics_fit))]
pub fn kind_of(setting: &Setting<'_>, ty: OperandTy<'_>) -> Result<Kind, Trouble>
    ensures kind { Finds view_kind result (kind_of (view_setting setting.now) (view_operand_ty ty.entry)) }
    ensures fits { IfOk result IsKind }
{
    match ty {
        OperandTy::Of(ty) => kind_in(setting, ty),
        OperandTy::Unqualified(ty) => kind_in(setting, ty),
        OperandTy::Basic(which) => Ok(Kind::Scalar(which.scalar())),
    }
}
