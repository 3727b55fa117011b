//! Tokens.

ghost use Rattle.std.specs.Prelude.{◌≤◌, length};

use cr_base::{Refusal, Rule, Stop};
use cx_lex::lex;
use std::alloc::{AllocError, Global};
use std::process::Abort;
use std::test::Fail;

// How many tokens the bytes of unit 3 spell, or why they spell none.
fn token_count(alloc: Global, bytes: &[u8]) -> Result<usize, Stop>
    requires { length bytes.now ≤ 1048576 }
{
    let tokens = lex(alloc, bytes, 3)?;
    Ok(tokens.len())
}

// A refusal names the unit.
#[test]
fn a_refusal_names_its_unit(rt: HostRuntime) {
    let refusal = Refusal {
        rule: Rule::X1,
        unit: 3,
        line: 2,
    };
    assert_eq!(rt;
        token_count(rt.alloc(), b"x\n@"),
        Err(Stop::Refused(refusal))
    );
}

// Where an allocation fails, as `rt try --test --fail-alloc N` makes it, no other answer comes than want of memory.
#[test]
fn want_of_memory(rt: HostRuntime) {
    let refusal = Refusal {
        rule: Rule::X3,
        unit: 3,
        line: 1,
    };
    let spelled = token_count(rt.alloc(), b"x = \"ab\" + y1;");
    let refused = token_count(rt.alloc(), b"x = \"a\\q\"");
    assert!(rt; spelled == Ok(6) || spelled == Err(Stop::Memory));
    assert!(rt; refused == Err(Stop::Refused(refusal)) || refused == Err(Stop::Memory));
}

// A megabyte of marks with a blank behind each.
fn megabyte(alloc: Global) -> Result<Vec<u8>, AllocError> {
    let mut bytes = Vec::new(alloc);
    for _mark in 0..524_288 {
        bytes.extend_from_slice(b"+ ")?;
    }
    Ok(bytes)
}

fn expect_count(rt: &(impl Abort + AllocGlobal), bytes: &[u8], count: usize) {
    assert!(rt; bytes.len() <= 1_048_576);
    assert_eq!(rt; token_count(rt.alloc(), bytes), Ok(count));
}

// Time grows with the length alone: a megabyte of tokens, and of one literal.
#[test]
fn a_whole_megabyte(rt: HostRuntime) -> Result<(), Fail> {
    let mut bytes = megabyte(rt.alloc())?;
    assert_eq!(rt; bytes.len(), 1_048_576);
    expect_count(&rt, bytes.as_slice(), 524_288);
    bytes[0] = b'"';
    bytes[1_048_575] = b'"';
    expect_count(&rt, bytes.as_slice(), 1);
    Ok(())
}
