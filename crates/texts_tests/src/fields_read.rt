// What of a line is left when a field was read, and when none was.
use fields::values::Fields;
use keys::RuleKey;

#[test]
fn rest_after_a_field(rt: HostRuntime) {
    let mut fields = Fields::of(b"r=12 when=7");
    assert_eq!(rt; fields.rest(), b"r=12 when=7".as_slice());
    assert_eq!(rt; fields.number(RuleKey::Expect), None);
    assert_eq!(rt; fields.rest(), b"r=12 when=7".as_slice());
    assert_eq!(rt; fields.number(RuleKey::Number), Some(12));
    assert_eq!(rt; fields.rest(), b" when=7".as_slice());
    assert_eq!(rt; fields.number(RuleKey::When), Some(7));
    assert_eq!(rt; fields.rest(), b"".as_slice());
}
