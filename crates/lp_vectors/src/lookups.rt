//! The values of the first tag and of the first field of a key. `foo` is the Rust crate's own test, `m` follows the format's rules.

use crate::fault::Fault;
use crate::given::parsed;
use influxdb_line_protocol::{EscapedStr, FieldValue};

// Returns true if a tag has this value.
fn is_tag(found: Option<&EscapedStr<'_>>, wanted: &str) -> bool {
    found.map_or(false, |value| value.eq_text(wanted))
}

// Returns true if a field has this value.
fn is_field(found: Option<&FieldValue<'_>>, wanted: &FieldValue<'_>) -> bool {
    found.map_or(false, |value| *value == *wanted)
}

#[test]
fn the_first_of_two_equal_keys_is_found(rt: HostRuntime) -> Result<(), Fault> {
    let line = parsed(rt.alloc(), "m,k=1,k=2 a=1i,a=2i")?;
    assert!(rt; is_tag(line.tag_value("k"), "1"));
    assert!(rt; is_field(line.field_value("a"), &FieldValue::I64(1)));
    Ok(())
}

#[test]
fn tags_and_fields_are_found_apart(rt: HostRuntime) -> Result<(), Fault> {
    let line = parsed(rt.alloc(), "foo,test=stuff asdf=true 1234")?;
    assert!(rt; is_tag(line.tag_value("test"), "stuff"));
    assert!(rt; line.tag_value("asdf").is_none());
    assert!(rt; is_field(line.field_value("asdf"), &FieldValue::Boolean(true)));
    assert!(rt; line.field_value("jkl").is_none());
    Ok(())
}
