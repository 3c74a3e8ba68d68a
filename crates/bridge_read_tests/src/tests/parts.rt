//! What is read of an input, part by part.

use bridge_ast::{Item, LifetimeNode, Method, Module, Param, Text};
use bridge_read::{Input, read_input};
use std::alloc::Global;
use std::test::*;

fn read(alloc: Global, text: &str) -> Result<Input, Fail> {
    Ok(read_input(alloc, text.as_bytes()).ok().ok_or("an input")?)
}

const PICK: &str =
    r#"{"root":{"items":[{"kind":"opaque","name":"O","methods":[{"name":"pick","self_type":{"segments":["O"]},"self":{"reference":{"lifetime":"a"},"path":{"segments":["O"]}},"lifetimes":[{"name":"a","longer":[1]},{"name":"b","shorter":[0]}],"params":[{"name":"y","ty":{"ref":{"lifetime":"b","to":{"named":{"segments":["O"]}}}}}],"ret":{"ref":{"lifetime":"a","to":{"named":{"segments":["O"]}}}}}]}]}}"#;

/// Whether a lifetime has that name, these bounds that are longer, and these that are shorter.
fn is_lifetime(node: &LifetimeNode, name: &str, longer: &[usize], shorter: &[usize]) -> bool {
    node.name.as_str() == name
        && node.longer.as_slice() == longer
        && node.shorter.as_slice() == shorter
}

/// Whether these are `'a` and `'b: 'a`.
fn are_lifetimes(nodes: &[LifetimeNode]) -> bool {
    match nodes {
        [a, b] => is_lifetime(a, "a", &[1], &[]) && is_lifetime(b, "b", &[], &[0]),
        _ => false,
    }
}

/// Whether `y` is the one parameter.
fn are_params(params: &[Param]) -> bool {
    match params {
        [param] => param.name.as_str() == "y",
        _ => false,
    }
}

/// Whether `pick` is the one method.
fn are_methods(methods: &[Method]) -> bool {
    match methods {
        [method] => {
            method.name.as_str() == "pick"
                && method.abi_name.as_str() == "pick"
                && are_params(method.params.as_slice())
                && are_lifetimes(method.lifetime_env.nodes.as_slice())
        }
        _ => false,
    }
}

/// Whether the root with the opaque `O` is the one module.
fn are_modules(modules: &[Module]) -> bool {
    let [root] = modules else {
        return false;
    };
    let [Item::Opaque(opaque)] = root.items.as_slice() else {
        return false;
    };
    opaque.name.as_str() == "O" && are_methods(opaque.methods.as_slice())
}

#[test]
fn the_example_is_read(rt: HostRuntime) -> Result<(), Fail> {
    let input = read(rt.alloc(), PICK)?;
    let is_so = are_modules(input.env.modules());
    drop(input);
    assert!(rt; is_so);
    Ok(())
}

const SETTINGS: &str =
    r#"{"root":{},"backend":{"name":"js","other_names":["ecma"],"supports":["option","traits"],"pairs":[{"name":"abi","value":"wasm"}],"features":["f"],"unstable":["u"]},"config":{"unsafe_references_in_callbacks":true},"docs":{"default":"https://docs.example/","bases":{"std":"http://std.example/","none":null}}}"#;

/// Whether `abi` with the value `wasm` is the one pair.
fn are_pairs(pairs: &[(Text, Text)]) -> bool {
    match pairs {
        [(name, value)] => name.as_str() == "abi" && value.as_str() == "wasm",
        _ => false,
    }
}

/// Whether the backend has the name, flags, pair and other name of the settings.
fn is_backend(input: &Input) -> bool {
    let backend = &input.validator;
    backend.backend_name.as_str() == "js"
        && backend.support.option
        && backend.support.traits
        && !backend.support.callbacks
        && are_pairs(backend.name_values.as_slice())
        && backend.other_backend_names.as_slice().len() == 1
}

/// Whether that is the URL of the crate of that name.
fn is_base(alloc: Global, input: &Input, name: &str, url: Option<&str>) -> Result<bool, Fail> {
    let name = Text::new(alloc, name)?;
    Ok(input.urls.base_url(&name) == url)
}

/// Whether the URLs are those of the settings.
fn has_urls(alloc: Global, input: &Input) -> Result<bool, Fail> {
    let is_std = is_base(alloc, input, "std", Some("http://std.example/"))?;
    let is_none = is_base(alloc, input, "none", None)?;
    let is_default = input.urls.default_url() == Some("https://docs.example/");
    Ok(is_std && is_none && is_default)
}

#[test]
fn settings_are_read(rt: HostRuntime) -> Result<(), Fail> {
    let input = read(rt.alloc(), SETTINGS)?;
    let is_so = is_backend(&input) && input.config.unsafe_references_in_callbacks;
    drop(input);
    assert!(rt; is_so);
    Ok(())
}

#[test]
fn urls_are_read(rt: HostRuntime) -> Result<(), Fail> {
    let input = read(rt.alloc(), SETTINGS)?;
    let has_urls = has_urls(rt.alloc(), &input);
    drop(input);
    assert!(rt; has_urls?);
    Ok(())
}

/// Whether the backend has no name and no pairs and supports nothing, callbacks take no references, and there are no URLs.
fn allows_nothing(input: &Input) -> bool {
    input.validator.backend_name.as_str() == ""
        && !input.validator.support.option
        && input.validator.name_values.as_slice().is_empty()
        && !input.config.unsafe_references_in_callbacks
        && input.urls.default_url().is_none()
}

#[test]
fn absent_settings_allow_nothing(rt: HostRuntime) -> Result<(), Fail> {
    let input = read(rt.alloc(), r#"{"root":{},"backend":null}"#)?;
    let is_so = allows_nothing(&input);
    drop(input);
    assert!(rt; is_so);
    Ok(())
}

/// Modules that nest, each listed before those inside it.
const NESTED: &str =
    r#"{"root":{"modules":[{"name":"m","modules":[{"name":"n"},{"name":"o"}]},{"name":"p"}]}}"#;

/// Whether the module's path is of these names.
fn has_path(module: &Module, names: &[&str]) -> bool {
    let path = module.path.as_slice();
    for (segment, name) in path.iter().zip(names.iter()) {
        if segment.as_str() != *name {
            return false;
        }
    }
    path.len() == names.len()
}

/// Whether these are the modules of these paths, in order.
fn have_paths(modules: &[Module], paths: &[&[&str]]) -> bool {
    for (module, path) in modules.iter().zip(paths.iter()) {
        if !has_path(module, path) {
            return false;
        }
    }
    modules.len() == paths.len()
}

#[test]
fn modules_are_listed_before_those_inside_them(rt: HostRuntime) -> Result<(), Fail> {
    let input = read(rt.alloc(), NESTED)?;
    let paths: [&[&str]; 5] = [&[], &["m"], &["m", "n"], &["m", "o"], &["p"]];
    let is_so = have_paths(input.env.modules(), &paths);
    drop(input);
    assert!(rt; is_so);
    Ok(())
}
