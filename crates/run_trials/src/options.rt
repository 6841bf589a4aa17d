//! Words of a command line, and the options that they are.
use pgs_world::{Options, OptionsError, read_options};
use std::alloc::{AllocError, Global};
use std::test::Fail;

/// The words of a line, as texts of their own.
fn words(alloc: Global, line: &[&str]) -> Result<Vec<String>, AllocError> {
    let mut words = Vec::new(alloc);
    for word in line {
        words.push(String::from_str(alloc, word)?)?;
    }
    Ok(words)
}

#[test]
fn options_are_read(rt: HostRuntime) -> Result<(), Fail> {
    let alloc = rt.alloc();
    let given = words(alloc, &["--space", "131072", "--fail=5"])?;
    let want = Options {
        space: 131_072,
        sessions: 1,
        descriptors: 16,
        fail: 5,
        generate: 0,
        sweep: false,
    };
    assert!(rt; read_options(alloc, &given) == Ok(want));
    Ok(())
}

#[test]
fn no_words_are_the_defaults(rt: HostRuntime) -> Result<(), Fail> {
    let alloc = rt.alloc();
    let given = words(alloc, &[])?;
    let want = Options {
        space: 16_777_216,
        sessions: 1,
        descriptors: 16,
        fail: 0,
        generate: 0,
        sweep: false,
    };
    assert!(rt; read_options(alloc, &given) == Ok(want));
    Ok(())
}

#[test]
fn a_number_out_of_range_is_refused(rt: HostRuntime) -> Result<(), Fail> {
    let alloc = rt.alloc();
    let given = words(alloc, &["--space", "131071"])?;
    assert!(rt; read_options(alloc, &given) == Err(OptionsError::Refused));
    Ok(())
}
