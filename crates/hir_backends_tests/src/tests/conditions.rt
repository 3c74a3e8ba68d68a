use bridge_decl::{Boxed, DiplomatBackendAttrCfg, Items, NoMemory, Text};
use hir_backends::{BasicAttributeValidator, CfgFault, satisfies_cfg};
use std::alloc::Global;

// A plain condition: `*`, `auto`, a pair written `name=value`, or else the name of a backend.
fn plain(alloc: Global, text: &str) -> Result<DiplomatBackendAttrCfg, NoMemory> {
    if text == "*" {
        return Ok(DiplomatBackendAttrCfg::Star);
    }
    if text == "auto" {
        return Ok(DiplomatBackendAttrCfg::Auto);
    }
    match text.split_once("=") {
        Some((name, value)) => Ok(DiplomatBackendAttrCfg::NameValue(
            Text::new(alloc, name)?,
            Text::new(alloc, value)?,
        )),
        None => Ok(DiplomatBackendAttrCfg::BackendName(Text::new(alloc, text)?)),
    }
}

fn list(alloc: Global, texts: &[&str]) -> Result<Items<DiplomatBackendAttrCfg>, NoMemory> {
    let mut parts = Items::new(alloc);
    for text in texts {
        parts.push(plain(alloc, text)?)?;
    }
    Ok(parts)
}

// A condition around others.
fn around(
    alloc: Global,
    form: &str,
    parts: Items<DiplomatBackendAttrCfg>,
) -> Result<DiplomatBackendAttrCfg, NoMemory> {
    let mut parts = parts;
    if form == "any" {
        return Ok(DiplomatBackendAttrCfg::Any(parts));
    }
    if form == "all" {
        return Ok(DiplomatBackendAttrCfg::All(parts));
    }
    match parts.pop() {
        Some(last) if form == "not" => Ok(DiplomatBackendAttrCfg::Not(Boxed::new(alloc, last)?)),
        Some(last) => Ok(last),
        None => Ok(DiplomatBackendAttrCfg::Star),
    }
}

// What the condition comes to, as a word, with a `+` where `auto` was found.
fn comes_to(
    backend: &BasicAttributeValidator,
    cfg: &DiplomatBackendAttrCfg,
    allows_auto: bool,
) -> &'static str {
    let mut found = false;
    let answer = if allows_auto {
        satisfies_cfg(backend, cfg, Some(&mut found))
    } else {
        satisfies_cfg(backend, cfg, None)
    };
    match answer {
        Ok(true) if found => "true+",
        Ok(true) => "true",
        Ok(false) if found => "false+",
        Ok(false) => "false",
        Err(CfgFault::AutoMisplaced) => "AutoMisplaced",
        Err(CfgFault::UnknownPair) => "UnknownPair",
    }
}

// A form, its parts, and what it comes to on `cpp` where `auto` is allowed, and where it isn't.
const ROWS: [(&str, &[&str], &str, &str); 24] = [
    ("", &["*"], "true", "true"),
    ("", &["auto"], "true+", "AutoMisplaced"),
    ("", &["cpp"], "true", "true"),
    ("", &["js"], "false", "false"),
    ("", &["supports=traits"], "false", "false"),
    ("", &["supports=nothing"], "UnknownPair", "UnknownPair"),
    ("", &["feature=nothing"], "false", "false"),
    ("not", &["js"], "true", "true"),
    ("not", &["cpp"], "false", "false"),
    ("not", &["auto"], "AutoMisplaced", "AutoMisplaced"),
    ("not", &["supports=nothing"], "UnknownPair", "UnknownPair"),
    ("any", &[], "false", "false"),
    ("any", &["auto", "cpp"], "true+", "AutoMisplaced"),
    ("any", &["cpp", "auto"], "true", "true"),
    ("any", &["js", "auto"], "true+", "AutoMisplaced"),
    ("any", &["js", "kotlin"], "false", "false"),
    (
        "any",
        &["js", "supports=nothing", "cpp"],
        "UnknownPair",
        "UnknownPair",
    ),
    ("any", &["cpp", "supports=nothing"], "true", "true"),
    ("all", &[], "true", "true"),
    ("all", &["auto"], "AutoMisplaced", "AutoMisplaced"),
    ("all", &["cpp", "*"], "true", "true"),
    ("all", &["cpp", "js", "auto"], "false", "false"),
    ("all", &["js", "supports=nothing"], "false", "false"),
    (
        "all",
        &["cpp", "supports=nothing"],
        "UnknownPair",
        "UnknownPair",
    ),
];

// Whether the row's condition comes to its answers.
fn holds(
    alloc: Global,
    backend: &BasicAttributeValidator,
    (form, parts, allowed, elsewhere): &(&str, &[&str], &str, &str),
) -> Result<bool, NoMemory> {
    let cfg = around(alloc, form, list(alloc, parts)?)?;
    Ok(comes_to(backend, &cfg, true) == *allowed && comes_to(backend, &cfg, false) == *elsewhere)
}

#[test]
fn each_form_comes_to_its_answer(rt: HostRuntime) -> Result<(), NoMemory> {
    let backend = BasicAttributeValidator::new(rt.alloc(), "cpp")?;
    for row in &ROWS {
        assert!(rt; holds(rt.alloc(), &backend, row)?);
    }
    Ok(())
}

// What stands in a form that nests: the condition, in `any` behind one that isn't met.
fn parts_of(
    alloc: Global,
    form: &str,
    cfg: DiplomatBackendAttrCfg,
) -> Result<Items<DiplomatBackendAttrCfg>, NoMemory> {
    let unmet = if form == "any" { 1usize } else { 0 };
    let mut parts = list(alloc, &["js"][..unmet])?;
    parts.push(cfg)?;
    Ok(parts)
}

// The forms around a plain condition, the innermost first.
fn nested(alloc: Global, forms: &[&str], inner: &str) -> Result<DiplomatBackendAttrCfg, NoMemory> {
    let mut cfg = plain(alloc, inner)?;
    for form in forms {
        cfg = around(alloc, form, parts_of(alloc, form, cfg)?)?;
    }
    Ok(cfg)
}

// What such a condition comes to where `auto` is allowed.
fn nested_answer(
    alloc: Global,
    backend: &BasicAttributeValidator,
    forms: &[&str],
    inner: &str,
) -> Result<&'static str, NoMemory> {
    let cfg = nested(alloc, forms, inner)?;
    Ok(comes_to(backend, &cfg, true))
}

// The last two are as deep as an input can nest them.
const NESTED: [(&[&str], &str, &str); 9] = [
    (&["all", "any"], "auto", "AutoMisplaced"),
    (&["any", "any"], "auto", "true+"),
    (&["any", "not"], "auto", "AutoMisplaced"),
    (&["not", "any"], "auto", "AutoMisplaced"),
    (&["not", "not"], "cpp", "true"),
    (&["not", "all", "any", "not"], "js", "false"),
    (&["not", "all", "any", "not"], "cpp", "true"),
    (&["any"; 126], "auto", "true+"),
    (&["not"; 125], "cpp", "false"),
];

#[test]
fn conditions_nest(rt: HostRuntime) -> Result<(), NoMemory> {
    let backend = BasicAttributeValidator::new(rt.alloc(), "cpp")?;
    for (forms, inner, answer) in &NESTED {
        assert!(rt; nested_answer(rt.alloc(), &backend, forms, inner)? == *answer);
    }
    Ok(())
}
