use crate::declarator::Declarator;
use crate::expr::Expr;
use cr_base::{Boxed, Items, Name};
use cx_lex::Keyword;

/// A specifier or qualifier of a declaration (ISO C99, 6.7.1 to 6.7.4).
#[cycle(tree)]
#[derive(Drop)]
pub enum Spec {
    /// A storage class (6.7.1), a type specifier that is one keyword (6.7.2), a qualifier (6.7.3) or
    /// `inline` (6.7.4).
    Key {
        word: Keyword,
        lines: Items<u32>,
    },
    /// A typedef name (6.7.7).
    Typedef {
        name: Name,
        lines: Items<u32>,
    },
    /// A structure or union specifier (6.7.2.1): a tag, a list of members or both. Its own tokens are
    /// `struct` or `union`, the tag and the braces.
    Record {
        is_union: bool,
        tag: Option<Name>,
        members: Option<Items<MemberDecl>>,
        lines: Items<u32>,
    },
    /// An enumeration specifier (6.7.2.2): a tag, a list of enumerators or both. Its own tokens are
    /// `enum`, the tag, the braces and the commas; `last_comma` says whether one stands behind the last
    /// enumerator.
    Enum {
        tag: Option<Name>,
        list: Option<Items<Enumerator>>,
        last_comma: bool,
        lines: Items<u32>,
    },
}

/// A declaration of members (6.7.2.1); its own tokens are the commas between the declarators, and `;`.
#[cycle(tree)]
#[derive(Drop)]
pub struct MemberDecl {
    pub specs: Items<Spec>,
    pub list: Items<MemberDeclarator>,
    pub lines: Items<u32>,
}

/// A declarator of a member, or a bit-field, whose declarator may be missing (6.7.2.1); its own token is
/// `:`, where a width stands.
#[cycle(tree)]
#[derive(Drop)]
pub struct MemberDeclarator {
    pub declarator: Boxed<Declarator>,
    pub width: Option<Boxed<Expr>>,
    pub lines: Items<u32>,
}

/// An enumerator (6.7.2.2); its own tokens are its name, and `=` where a value stands.
#[cycle(tree)]
#[derive(Drop)]
pub struct Enumerator {
    pub name: Name,
    pub value: Option<Boxed<Expr>>,
    pub lines: Items<u32>,
}

/// A type name (6.7.6): specifiers and qualifiers, and an abstract declarator. It prints no token itself.
#[cycle(tree)]
#[derive(Drop)]
pub struct TypeName {
    pub specs: Items<Spec>,
    pub declarator: Boxed<Declarator>,
    pub lines: Items<u32>,
}
