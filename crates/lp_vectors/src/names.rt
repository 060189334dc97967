//! Names as a caller holds them. `Foo` is the Rust crate's own test, the set follows the format's rules.

use crate::fault::Fault;
use crate::given::parsed;
use influxdb_line_protocol::EscapedStr;
use std::collections::HashSet;

#[test]
fn both_variants_of_a_text_are_one_member(rt: HostRuntime) -> Result<(), Fault> {
    let copy = EscapedStr::CopiedValue(String::from_str(rt.alloc(), "a b")?);
    let mut set = HashSet::new(rt.alloc());
    set.insert(EscapedStr::SingleSlice("a b"))?;
    set.insert(copy)?;
    assert_eq!(rt; set.len(), 1);
    Ok(())
}

#[test]
fn a_name_equals_its_text_alone(rt: HostRuntime) -> Result<(), Fault> {
    let line = parsed(rt.alloc(), "Foo\\aBar f=1i")?;
    let name = &line.series.measurement;
    assert!(rt; name.eq_text("Foo\\aBar"));
    for other in ["Foo\\aBa", "Foo\\aBaz", "Foo\\", "F", ""] {
        assert!(rt; !name.eq_text(other), "{other}");
    }
    Ok(())
}

#[test]
fn a_name_is_made_of_a_text(rt: HostRuntime) -> Result<(), Fault> {
    let name = EscapedStr::from("Foo");
    assert_eq!(rt; name.as_str(), "Foo");
    assert_eq!(rt; name.to_string(rt.alloc())?.as_str(), "Foo");
    Ok(())
}
