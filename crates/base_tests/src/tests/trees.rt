//! A type that reaches itself through a list and a box.

use cr_base::{Boxed, Items, Memory};
use std::alloc::Global;

#[derive(Drop)]
enum Tree {
    Leaf(u8),
    Branch(Items<Tree>),
    Above(Boxed<Tree>),
}

// The leaves of a tree, as digits behind those of a number.
fn leaves(tree: &Tree, before: u64) -> u64 {
    match tree {
        Tree::Leaf(digit) => before.saturating_mul(10).saturating_add(u64::from(*digit)),
        Tree::Above(below) => leaves(below.get(), before),
        Tree::Branch(below) => {
            let mut digits = before;
            for child in below.as_slice() {
                digits = leaves(child, digits);
            }
            digits
        }
    }
}

fn leaf(alloc: Global, digit: u8) -> Result<Items<Tree>, Memory> {
    let mut list = Items::new(alloc);
    list.push(Tree::Leaf(digit))?;
    Ok(list)
}

// Three leaves, the second of which is in a box.
fn three_leaves(alloc: Global) -> Result<Items<Tree>, Memory> {
    let mut below = leaf(alloc, 7)?;
    below.push(Tree::Above(Boxed::new(alloc, Tree::Leaf(8))?))?;
    below.append(leaf(alloc, 9)?)?;
    Ok(below)
}

fn digits(alloc: Global) -> Result<u64, Memory> {
    let list = three_leaves(alloc)?;
    Ok(leaves(&Tree::Branch(list), 0))
}

#[test]
fn trees_of_lists_and_boxes(rt: HostRuntime) {
    assert_eq!(rt; digits(rt.alloc()), Ok(789));
}
