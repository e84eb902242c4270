//! Errors as they are printed.

use cept_codes::NoMemory;
use cept_outside::{Failed, WriteFault};
use std::test::Fail;

#[test]
fn errors_are_named(rt: HostRuntime) -> Result<(), Fail> {
    let memory = NoMemory.to_string(rt.alloc())?;
    assert!(rt; memory.as_str() == "out of memory");
    let failed = Failed.to_string(rt.alloc())?;
    assert!(rt; failed.as_str() == "the outside failed");
    let fault = WriteFault.to_string(rt.alloc())?;
    assert!(rt; fault.as_str() == "the sink failed");
    Ok(())
}
