use crate::declarator::Declarator;
use crate::initialiser::Initialiser;
use crate::specifier::Spec;
use cr_base::{Boxed, Items};

/// A declaration (ISO C99, 6.7); its own tokens are the commas between the declarators, and `;`.
#[derive(Drop)]
pub struct Decl {
    pub specs: Items<Spec>,
    pub list: Items<InitDeclarator>,
    pub lines: Items<u32>,
}

/// A declarator with the initialiser of what it declares (6.7); its own token is `=`, where an initialiser
/// stands.
#[derive(Drop)]
pub struct InitDeclarator {
    pub declarator: Boxed<Declarator>,
    pub init: Option<Boxed<Initialiser>>,
    pub lines: Items<u32>,
}
