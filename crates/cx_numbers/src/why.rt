use cr_base::URule;

/// Why an operator gives no number.
#[derive(Clone, Copy, PartialEq, Eq)]
pub enum Why {
    /// C leaves it undefined, by this rule.
    Breaks(URule),
    /// No typed program has such a step: the operator computes in no integer type.
    Stuck,
}
