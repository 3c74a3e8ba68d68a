//! The names of definitions.

use bridge_decl::IdentBuf;
use hir_ids::Ident;
use std::test::Fail;

#[test]
fn a_name_is_its_text(rt: HostRuntime) -> Result<(), Fail> {
    let alloc = rt.alloc();
    for text in ["Page", "_a1", "r#match"] {
        let name = Ident::new(IdentBuf::new(alloc, text)?);
        let copy = name.try_clone(alloc)?;
        assert!(rt; copy.as_str() == text);
        assert!(rt; name.to_string(alloc)?.as_str() == text);
    }
    Ok(())
}
