use crate::LoweringConfig;

#[test]
fn callbacks_take_no_references_by_default(rt: HostRuntime) {
    let config = LoweringConfig::default();
    assert!(rt; !config.unsafe_references_in_callbacks);
}
