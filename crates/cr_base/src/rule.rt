ghost use Rattle.std.specs.Prelude.{◌≡◌};
ghost use Rattle.cr_base.specs.Rules.{code_of, text_of};

/// The rules of the C profile. docs/PROFILE.md states each with an example.
///
/// X rules are those of tokens, S1 that of the grammar, O rules name what the profile leaves out, K
/// rules are the constraints on declarations and expressions, M rules are limits, L rules are those
/// of linkage, and N1 stands for what is not built yet.
#[derive(Clone, Copy, Debug, PartialEq, Eq)]
pub enum Rule {
    /// Byte not allowed.
    X1,
    /// Literal or comment not closed, or not one character.
    X2,
    /// Bad escape.
    X3,
    /// Malformed number.
    X4,
    /// Floating constant.
    X5,
    /// Constant fits no type.
    X6,
    /// Wide or universal character.
    X7,
    /// Line with #.
    X8,
    /// No derivation.
    S1,
    /// Floating word.
    O1,
    /// Volatile.
    O2,
    /// Array form.
    O3,
    /// Identifier list.
    O4,
    /// Variadic definition.
    O5,
    /// Wide bit-field.
    O6,
    /// Pointer and integer.
    O7,
    /// Object and function pointer.
    O8,
    /// Inline without static.
    O9,
    /// Flexible array member.
    O10,
    /// Array of a value.
    O11,
    /// GNU word.
    O12,
    /// Undeclared.
    K1,
    /// Redeclared.
    K2,
    /// Type words.
    K3,
    /// Storage class.
    K4,
    /// Incomplete type.
    K5,
    /// Array length.
    K6,
    /// Function type.
    K7,
    /// Member.
    K8,
    /// Call.
    K9,
    /// Operands.
    K10,
    /// Lvalue.
    K11,
    /// Assignment.
    K12,
    /// Cast.
    K13,
    /// Sizeof.
    K14,
    /// Address.
    K15,
    /// Conditional.
    K16,
    /// Constant needed.
    K17,
    /// Case, break or continue.
    K18,
    /// Label.
    K19,
    /// Return.
    K20,
    /// Initialiser.
    K21,
    /// Bit-field.
    K22,
    /// Enumerator.
    K23,
    /// Tag.
    K24,
    /// Unit too large.
    M1,
    /// Too many units.
    M2,
    /// Object too large.
    M3,
    /// Second definition.
    L1,
    /// Incompatible declarations.
    L2,
    /// Main.
    L3,
    /// External function outside the profile.
    L4,
    /// Undefined object.
    L5,
    /// Not built.
    N1,
}

impl Rule {
    #[tactic(auto, unfolding(crate::specs::Rules::code_of))]
    /// The rule's code, as a report of a refusal shows it.
    pub fn code(self) -> &'static str
        ensures { result.now ≡ code_of self }
    {
        match self {
            Rule::X1 => "X1",
            Rule::X2 => "X2",
            Rule::X3 => "X3",
            Rule::X4 => "X4",
            Rule::X5 => "X5",
            Rule::X6 => "X6",
            Rule::X7 => "X7",
            Rule::X8 => "X8",
            Rule::S1 => "S1",
            Rule::O1 => "O1",
            Rule::O2 => "O2",
            Rule::O3 => "O3",
            Rule::O4 => "O4",
            Rule::O5 => "O5",
            Rule::O6 => "O6",
            Rule::O7 => "O7",
            Rule::O8 => "O8",
            Rule::O9 => "O9",
            Rule::O10 => "O10",
            Rule::O11 => "O11",
            Rule::O12 => "O12",
            Rule::K1 => "K1",
            Rule::K2 => "K2",
            Rule::K3 => "K3",
            Rule::K4 => "K4",
            Rule::K5 => "K5",
            Rule::K6 => "K6",
            Rule::K7 => "K7",
            Rule::K8 => "K8",
            Rule::K9 => "K9",
            Rule::K10 => "K10",
            Rule::K11 => "K11",
            Rule::K12 => "K12",
            Rule::K13 => "K13",
            Rule::K14 => "K14",
            Rule::K15 => "K15",
            Rule::K16 => "K16",
            Rule::K17 => "K17",
            Rule::K18 => "K18",
            Rule::K19 => "K19",
            Rule::K20 => "K20",
            Rule::K21 => "K21",
            Rule::K22 => "K22",
            Rule::K23 => "K23",
            Rule::K24 => "K24",
            Rule::M1 => "M1",
            Rule::M2 => "M2",
            Rule::M3 => "M3",
            Rule::L1 => "L1",
            Rule::L2 => "L2",
            Rule::L3 => "L3",
            Rule::L4 => "L4",
            Rule::L5 => "L5",
            Rule::N1 => "N1",
        }
    }
}

#[tactic(auto, unfolding(crate::specs::Rules::text_of))]
/// What the rule says, in a few words, as a report of a refusal shows it.
pub fn rule_text(rule: Rule) -> &'static str
    ensures { result.now ≡ text_of rule }
{
    match rule {
        Rule::X1 => "byte not allowed",
        Rule::X2 => "literal or comment not closed, or not one character",
        Rule::X3 => "bad escape",
        Rule::X4 => "malformed number",
        Rule::X5 => "floating constant",
        Rule::X6 => "constant fits no type",
        Rule::X7 => "wide or universal character",
        Rule::X8 => "line with #",
        Rule::S1 => "no derivation",
        Rule::O1 => "floating word",
        Rule::O2 => "volatile",
        Rule::O3 => "array form",
        Rule::O4 => "identifier list",
        Rule::O5 => "variadic definition",
        Rule::O6 => "wide bit-field",
        Rule::O7 => "pointer and integer",
        Rule::O8 => "object and function pointer",
        Rule::O9 => "inline without static",
        Rule::O10 => "flexible array member",
        Rule::O11 => "array of a value",
        Rule::O12 => "GNU word",
        Rule::K1 => "undeclared",
        Rule::K2 => "redeclared",
        Rule::K3 => "type words",
        Rule::K4 => "storage class",
        Rule::K5 => "incomplete type",
        Rule::K6 => "array length",
        Rule::K7 => "function type",
        Rule::K8 => "member",
        Rule::K9 => "call",
        Rule::K10 => "operands",
        Rule::K11 => "lvalue",
        Rule::K12 => "assignment",
        Rule::K13 => "cast",
        Rule::K14 => "sizeof",
        Rule::K15 => "address",
        Rule::K16 => "conditional",
        Rule::K17 => "constant needed",
        Rule::K18 => "case, break or continue",
        Rule::K19 => "label",
        Rule::K20 => "return",
        Rule::K21 => "initialiser",
        Rule::K22 => "bit-field",
        Rule::K23 => "enumerator",
        Rule::K24 => "tag",
        Rule::M1 => "unit too large",
        Rule::M2 => "too many units",
        Rule::M3 => "object too large",
        Rule::L1 => "second definition",
        Rule::L2 => "incompatible declarations",
        Rule::L3 => "main",
        Rule::L4 => "external function outside the profile",
        Rule::L5 => "undefined object",
        Rule::N1 => "not built",
    }
}

/// The rules by which a step of a C program is undefined. docs/MEANINGS.md states each.
#[derive(Clone, Copy, Debug, PartialEq, Eq)]
pub enum URule {
    /// Unsequenced conflict: two accesses of operands that no sequence point separates overlap, and one is a write (ISO C99, 6.5p2).
    U1,
    /// Overflow: a signed result that is not representable (6.5p5).
    U2,
    /// Division: a division by 0, or one whose quotient is not representable (6.5.5p5).
    U3,
    /// Shift: a shift by a count, or of a value, that its type does not allow (6.5.7).
    U4,
    /// Dead object: a pointer to an object whose lifetime has ended is used (6.2.4p2).
    U5,
    /// Outside an object: an access that leaves its object, or through null (6.5.3.2p4).
    U6,
    /// Unset bits read: a scalar is read of which a bit was never set (6.2.4p5).
    U7,
    /// Bad truth value: a `_Bool` byte other than 0 and 1 is read (6.2.6.1p5).
    U8,
    /// Pointer bytes: bytes of a stored pointer are read as another kind, or a bit-field is stored over them.
    U9,
    /// Misaligned: an access at an offset or in an object that is not aligned for its type (6.3.2.3p7).
    U10,
    /// Pointer arithmetic: pointer arithmetic that leaves its object, on null, or over two objects (6.5.6p8, p9).
    U11,
    /// Pointer comparison: a comparison of pointers that are not into one object (6.5.8p5, 6.5.9p6).
    U12,
    /// Call: a call of null, by a type that is not compatible, or with another number of arguments (6.5.2.2).
    U13,
    /// Missing value: the value of a call that ended without one is used (6.9.1p12).
    U14,
    /// Free: a `free` of what is no start of an allocated block (7.20.3.2).
    U15,
    /// Overlap: an assignment or a copy between objects that overlap inexactly (6.5.16.1p3).
    U16,
}
