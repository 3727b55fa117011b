//! Temporaries that find no memory.

use cr_base::{Items, Memory, Name};
use std::alloc::Global;
use straight_items::Temporaries;

// Temporaries beside the name `t`.
fn beside_t(alloc: Global) -> Result<Temporaries, Memory> {
    let mut taken = Items::new(alloc);
    taken.push(Name::of(Vec::from_slice(alloc, b"t")?))?;
    Ok(Temporaries::new(alloc, taken))
}

fn names(temporaries: &Temporaries) -> usize {
    temporaries.names().len()
}

// Whether the first temporary is made, or there is no memory for it and nothing changed.
fn is_made(alloc: Global) -> Result<bool, Memory> {
    let mut temporaries = beside_t(alloc)?;
    match temporaries.fresh() {
        Ok(number) => Ok(number == 0 && names(&temporaries) == 1),
        Err(Memory) => Ok(names(&temporaries) == 0),
    }
}

// `rt try --test --fail-alloc N` refuses memory to it.
#[test]
fn want_of_memory_changes_nothing(rt: HostRuntime) {
    assert!(rt; is_made(rt.alloc()) != Ok(false));
}
