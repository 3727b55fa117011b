//! The depth of a node above others, at most 2^64 - 1.

ghost use Rattle.std.specs.Prelude.{◌≡◌, suc, min, max, ◌-◌, ◌^◌};

pub fn above_two(one: u64, other: u64) -> u64
    ensures { result ≡ min (suc (max one other)) (2 ^ 64 - 1) }
{
    one.max(other).saturating_add(1)
}

pub fn above_three(one: u64, other: u64, third: u64) -> u64
    ensures { result ≡ min (suc (max one (max other third))) (2 ^ 64 - 1) }
{
    one.max(other.max(third)).saturating_add(1)
}
