//! The register on plain detections.
ghost use Rattle.std.specs.Prelude.{◌+◌, ◌<◌, ◌≤◌};
ghost use Rattle.number_register.specs.Numbering.{count_held};

use super::*;
use miti_text::read_line;
use sky_units::NoMemory;
use std::alloc::Global;

/// Takes in the detection of a line, if its id is not held; its number.
fn taken(register: &mut Register, alloc: Global, line: &str) -> Result<Option<u32>, NoMemory>
    requires { count_held register.old < 8 }
    ensures { count_held register.new ≤ count_held register.old + 1 }
{
    match read_line(alloc, line.as_bytes()) {
        Ok(detection) => {
            if register.find(detection.id.bytes()).is_some() {
                return Ok(None);
            }
            Ok(Some(register.take_in(alloc, detection)?))
        }
        Err(_) => Ok(None),
    }
}

#[test]
fn least_numbers_are_taken_again(rt: HostRuntime) -> Result<(), NoMemory> {
    let alloc = rt.alloc();
    let mut register = Register::new(alloc);
    let a = taken(&mut register, alloc, "a 59001.25 10 5 20 568 o")?;
    let b = taken(&mut register, alloc, "b 59001.25 10 5 20 568 o")?;
    let c = taken(&mut register, alloc, "c 59001.25 10 5 20 568 o")?;
    assert!(rt; a == Some(0) && b == Some(1) && c == Some(2));
    let again = taken(&mut register, alloc, "b 59001.25 10 5 20 568 o")?;
    assert!(rt; again.is_none());
    assert!(rt; register.count() == 3);
    if register.get(1).is_some() {
        register.let_go(1);
    }
    assert!(rt; register.find(b"b".as_slice()).is_none());
    assert!(rt; register.find(b"c".as_slice()) == Some(2));
    let d = taken(&mut register, alloc, "d 59001.25 10 5 20 568 o")?;
    assert!(rt; d == Some(1));
    Ok(())
}

#[test]
fn several_at_once(rt: HostRuntime) -> Result<(), NoMemory> {
    let alloc = rt.alloc();
    let mut register = Register::new(alloc);
    let none = take_all(&mut register, alloc, Vec::new(alloc))?;
    assert!(rt; none.is_empty());
    taken(&mut register, alloc, "a 59001.25 10 5 20 568 o")?;
    if register.get(0).is_some() {
        let_go_all(&mut register, [0].as_slice());
    }
    assert!(rt; register.count() == 0);
    Ok(())
}
