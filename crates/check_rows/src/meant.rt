//! What a declarator declares.

use cr_base::Name;
use cx_core::{Linkage, Ty};
use cx_kinds::is_function;
use cx_lex::Keyword;
use cx_scope::Meant;
use cx_tree::{Declarator, Spec};

/// The name that is declared.
pub(crate) fn name_of(declarator: &Declarator) -> Option<&Name> {
    match declarator {
        Declarator::Missing => None,
        Declarator::Identifier { name, .. } => Some(name),
        Declarator::Group { inner, .. } => name_of(inner.get()),
        Declarator::Pointer { of, .. }
        | Declarator::Array { of, .. }
        | Declarator::Function { of, .. }
        | Declarator::Identifiers { of, .. } => name_of(of.get()),
    }
}

/// What an identifier of a type means outside of functions, behind these specifiers: the object with a number, or a function or a
/// typedef name.
pub(crate) fn meant_of(specs: &[Spec], number: u32, ty: Ty) -> Meant {
    if has_word(specs, Keyword::Typedef) {
        return Meant::TypeName(ty);
    }
    let linkage = linkage_of(specs);
    if is_function(&ty) {
        return Meant::Function {
            function: 0,
            ty,
            linkage,
        };
    }
    Meant::Object {
        object: number,
        ty,
        register: has_word(specs, Keyword::Register),
        linkage,
    }
}

fn linkage_of(specs: &[Spec]) -> Linkage {
    if has_word(specs, Keyword::Static) {
        Linkage::Internal
    } else {
        Linkage::External
    }
}

fn has_word(specs: &[Spec], wanted: Keyword) -> bool {
    for one in specs {
        if let Spec::Key { word, .. } = one {
            if *word == wanted {
                return true;
            }
        }
    }
    false
}
