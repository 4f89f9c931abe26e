//! Lists, by calls that no walk makes.
use datasets::Id;
use reads::lists::name_if;
use std::alloc::{AllocError, Global};

#[test]
fn name_alone(rt: HostRuntime) -> Result<(), AllocError> {
    let alloc = rt.alloc();
    let name = Id::Known(3);
    let one = name_if(alloc, true, &name)?;
    assert!(rt; one.as_slice() == [name].as_slice());
    let none = name_if(alloc, false, &name)?;
    assert!(rt; none.is_empty());
    Ok(())
}
