//! Files that only have names.
use crate::inputs::SHARED_EDGE;
use crate::runs::Run;
use sinks::Kept;
use std::test::Fail;

/// The files of these runs read no standard input, so there is none; a file that is named `-` is not it.
#[test]
fn no_standard_input(rt: HostRuntime) -> Result<(), Fail> {
    let run = Run::on_files(rt.alloc(), &["check", "-"], &[("-", SHARED_EDGE)])?;
    let (mut out, mut err) = (Kept::new(rt.alloc()), Kept::new(rt.alloc()));
    assert!(rt; run.over(&mut out, &mut err) == 3);
    let (printed, told) = (out.into_bytes(), err.into_bytes());
    assert!(rt; printed.is_empty() && told.as_slice() == b"topotool: cannot read -\n".as_slice());
    Ok(())
}
