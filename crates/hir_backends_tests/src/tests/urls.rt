use bridge_decl::{NoMemory, Text};
use hir_docs::DocsUrlGenerator;
use std::alloc::Global;
use std::collections::BTreeMap;

// The base URL of that crate is this one; "" stands for none.
fn has_base(
    alloc: Global,
    urls: &DocsUrlGenerator,
    crate_name: &str,
    url: &str,
) -> Result<bool, NoMemory> {
    let crate_name = Text::new(alloc, crate_name)?;
    Ok(urls.base_url(&crate_name).unwrap_or("") == url)
}

#[test]
fn a_new_generator_has_no_urls(rt: HostRuntime) -> Result<(), NoMemory> {
    let urls = DocsUrlGenerator::new(rt.alloc());
    assert!(rt; urls.default_url().is_none());
    assert!(rt; has_base(rt.alloc(), &urls, "icu", "")?);
    Ok(())
}

fn add_base(
    alloc: Global,
    bases: &mut BTreeMap<Text, Text>,
    crate_name: &str,
    url: &str,
) -> Result<(), NoMemory> {
    let crate_name = Text::new(alloc, crate_name)?;
    bases.insert(crate_name, Text::new(alloc, url)?)?;
    Ok(())
}

// A generator with a URL for all crates and two of their own.
fn with_two(alloc: Global) -> Result<DocsUrlGenerator, NoMemory> {
    let mut bases = BTreeMap::new(alloc);
    add_base(alloc, &mut bases, "std", "https://doc.rust-lang.org")?;
    add_base(alloc, &mut bases, "icu", "https://icu.example")?;
    let default = Text::new(alloc, "https://docs.example")?;
    Ok(DocsUrlGenerator::with_base_urls(Some(default), bases))
}

#[test]
fn crates_have_their_own_urls(rt: HostRuntime) -> Result<(), NoMemory> {
    let urls = with_two(rt.alloc())?;
    assert!(rt; urls.default_url() == Some("https://docs.example"));
    let cases = [
        ("icu", "https://icu.example"),
        ("std", "https://doc.rust-lang.org"),
        ("ic", ""),
        ("", ""),
    ];
    for (crate_name, url) in cases {
        assert!(rt; has_base(rt.alloc(), &urls, crate_name, url)?);
    }
    Ok(())
}
