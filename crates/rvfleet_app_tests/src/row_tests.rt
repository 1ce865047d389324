//! Moving the text of a row out of its value.

use rvfleet_app::Text;
use std::alloc::{AllocError, Global};
use std::test::Fail;

// Whether a text is unchanged after its string was moved out.
fn is_unchanged(alloc: Global) -> Result<bool, AllocError> {
    let name = Text::new(String::from_str(alloc, "raw")?);
    Ok(name.into_string().as_str() == "raw")
}

// A text that is moved out of its value is unchanged.
#[test]
fn moved_texts_are_unchanged(rt: HostRuntime) -> Result<(), Fail> {
    assert!(rt; is_unchanged(rt.alloc())?);
    Ok(())
}
