use super::links::link_to;
use bridge_decl::{
    Boxed, DiplomatBackendAttrCfg, DocBlock, DocType, Items, NoMemory, RustLink, Text,
};
use hir_backends::BasicAttributeValidator;
use hir_docs::Docs;
use hir_reports::{ErrorStore, LoweringReport, Rule};
use std::alloc::Global;

// `*`, `auto`, `!auto`, a pair written `name=value`, or the name of a backend.
fn condition(alloc: Global, text: &str) -> Result<DiplomatBackendAttrCfg, NoMemory> {
    if text == "*" {
        return Ok(DiplomatBackendAttrCfg::Star);
    }
    if text == "auto" {
        return Ok(DiplomatBackendAttrCfg::Auto);
    }
    if text == "!auto" {
        return Ok(DiplomatBackendAttrCfg::Not(Boxed::new(alloc, DiplomatBackendAttrCfg::Auto)?));
    }
    match text.split_once("=") {
        Some((name, value)) => Ok(DiplomatBackendAttrCfg::NameValue(
            Text::new(alloc, name)?,
            Text::new(alloc, value)?,
        )),
        None => Ok(DiplomatBackendAttrCfg::BackendName(Text::new(alloc, text)?)),
    }
}

fn declared(alloc: Global, blocks: &[(&str, &str)]) -> Result<bridge_decl::Docs, NoMemory> {
    let mut items = Items::new(alloc);
    for (cfg, lines) in blocks {
        items.push(DocBlock {
            cfg: condition(alloc, cfg)?,
            lines: Text::new(alloc, lines)?,
        })?;
    }
    Ok(bridge_decl::Docs {
        blocks: items,
        links: Items::new(alloc),
    })
}

// Blocks, the lines for `cpp`, and the faults of conditions: `a` for a misplaced `auto`, `p` for an unknown pair.
const ROWS: [(&[(&str, &str)], &str, &str); 8] = [
    (&[("*", "a"), ("js", "b"), ("*", "c")], "a\nc", ""),
    (&[], "", ""),
    (&[("*", ""), ("cpp", "a")], "a", ""),
    (&[("*", "a"), ("cpp", "")], "a\n", ""),
    (&[("*", "a\nb"), ("*", ""), ("*", "c")], "a\nb\n\nc", ""),
    (
        &[("auto", "a"), ("*", "b"), ("supports=nothing", "c")],
        "b",
        "ap",
    ),
    (
        &[("supports=x", "a"), ("!auto", "b"), ("auto", "c")],
        "",
        "paa",
    ),
    (&[("supports=traits", "a"), ("feature=x", "b")], "", ""),
];

fn letter(rule: Rule) -> u8 {
    match rule {
        Rule::AutoMisplaced => b'a',
        Rule::UnknownPair => b'p',
        _ => b'?',
    }
}

fn are_told(reports: &[LoweringReport], told: &str) -> bool {
    for (report, expected) in reports.iter().zip(told.as_bytes()) {
        if letter(report.rule()) != *expected {
            return false;
        }
    }
    reports.len() == told.len()
}

// The documentation of the blocks, with what is told of their conditions.
fn joined(
    alloc: Global,
    backend: &BasicAttributeValidator,
    blocks: &[(&str, &str)],
) -> Result<(Docs, Vec<LoweringReport>), NoMemory> {
    let mut errors = ErrorStore::new(alloc);
    let declared = declared(alloc, blocks)?;
    let docs = Docs::from_ast(alloc, &declared, backend, &mut errors)?;
    Ok((docs, errors.take_errors()))
}

fn are_joined(
    alloc: Global,
    backend: &BasicAttributeValidator,
    (blocks, lines, told): &(&[(&str, &str)], &str, &str),
) -> Result<bool, NoMemory> {
    let (docs, reports) = joined(alloc, backend, blocks)?;
    let has_lines = docs.lines() == *lines && docs.is_empty() == lines.is_empty();
    Ok(has_lines && are_told(reports.as_slice(), told))
}

#[test]
fn blocks_are_joined(rt: HostRuntime) -> Result<(), NoMemory> {
    let backend = BasicAttributeValidator::new(rt.alloc(), "cpp")?;
    for row in &ROWS {
        assert!(rt; are_joined(rt.alloc(), &backend, row)?);
    }
    Ok(())
}

// Documents of a line and a link to `url::Url`.
fn linked(alloc: Global) -> Result<Docs, NoMemory> {
    let mut links = Items::new(alloc);
    links.push(link_to(alloc, &["url", "Url"], DocType::Struct)?)?;
    Ok(Docs::new(Text::new(alloc, "a")?, links))
}

fn leads_to(link: &RustLink, name: &str) -> bool {
    match link.path.as_slice().get(1) {
        Some(last) => last.as_str() == name && link.path.len() == 2,
        None => false,
    }
}

fn are_linked(docs: &Docs) -> bool {
    match docs.rust_links().get(0) {
        Some(link) => docs.lines() == "a" && leads_to(link, "Url"),
        None => false,
    }
}

#[test]
fn documents_are_copied(rt: HostRuntime) -> Result<(), NoMemory> {
    let docs = linked(rt.alloc())?.try_clone(rt.alloc())?;
    assert!(rt; are_linked(&docs));
    drop(docs);
    Ok(())
}
