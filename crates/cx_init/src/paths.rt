//! Paths of parts, compared.

ghost use Rattle.std.specs.Prelude.{◌≡◌};
ghost use Rattle.cx_init.specs.Ascending.{stands_behind};
ghost use Rattle.cx_rules.specs.Initial.{comes_before};
ghost use Rattle.cx_rules.specs.Pieces.{is_within};

// Whether a path leads to a part or to something in it.
pub(crate) fn is_within(part: &[u64], path: &[u64]) -> bool
    ensures { result ≡ is_within part.now path.now }
{
    let Some((index, part)) = part.split_first() else {
        return true;
    };
    let Some((other, path)) = path.split_first() else {
        return false;
    };
    *index == *other && is_within(part, path)
}

// Whether a part stands before another, or holds it.
pub(crate) fn comes_before(first: &[u64], second: &[u64]) -> bool
    ensures { result ≡ comes_before first.now second.now }
{
    let Some((index, first)) = first.split_first() else {
        return true;
    };
    let Some((other, second)) = second.split_first() else {
        return false;
    };
    if *index == *other {
        comes_before(first, second)
    } else {
        *index < *other
    }
}

// Whether a later path stands behind an earlier one: the earlier one comes before it, and is another one.
pub(crate) fn stands_behind(earlier: &[u64], later: &[u64]) -> bool
    ensures { result ≡ stands_behind earlier.now later.now }
{
    !comes_before(later, earlier)
}
