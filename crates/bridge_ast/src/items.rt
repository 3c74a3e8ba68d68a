//! The items and aliases of a module, by their names and the lifetimes in them.

ghost use Rattle.std.specs.Prelude.{◌≡◌, List, [], ◌∷◌, ◌++◌, map, None, OnOk, IfOk};
ghost use Rattle.bridge_decl.specs.declared.modules.Item.{Item};
ghost use Rattle.bridge_ast.specs.declared.fault.EnvPart.TheVariants as part;
ghost use Rattle.bridge_ast.specs.Each.{each};
ghost use Rattle.bridge_ast.specs.EnvFaults.{Named, Tells, repeats_name, nodes_of, method_nodes_of, lifetime_faults};
ghost use Rattle.bridge_ast.specs.EnvFaults.{method_faults, item_faults, alias_faults, items_named, aliases_named};
ghost use Rattle.bridge_ast.specs.EnvFaults.{content_faults, named_in};
ghost use Rattle.bridge_text.specs.NameIndex.{HasMeanings};
ghost use Rattle.bridge_decl.specs.Names.{item_name};

use crate::fault::{EnvFault, EnvFaultKind, EnvPart, EnvPlace};
use crate::names::{PartIndex, claim};
use crate::nodes::{Owner, test_lifetimes};
use bridge_decl::{Alias, Item, LifetimeNode, Method, Module, Text, TraitMethod};
use std::alloc::Global;
use std::collections::BTreeMap;

/// The name of an item.
pub fn name_of(item: &Item) -> &Text
    ensures { result.now ≡ item_name item.now }
{
    match item {
        Item::Struct(item) => &item.name,
        Item::Opaque(item) => &item.name,
        Item::Enum(item) => &item.name,
        Item::Trait(item) => &item.name,
        Item::Function(item) => &item.name,
    }
}

/// The lifetimes that the item declares itself.
fn own_nodes(item: &Item) -> &[LifetimeNode]
    ensures { result.now ≡ nodes_of item.now }
{
    match item {
        Item::Struct(item) => item.lifetimes.nodes.as_slice(),
        Item::Opaque(item) => item.lifetimes.nodes.as_slice(),
        Item::Enum(_) => &[],
        Item::Trait(item) => item.lifetimes.nodes.as_slice(),
        Item::Function(item) => item.lifetimes.nodes.as_slice(),
    }
}

fn test_methods(
    alloc: Global,
    module: usize,
    item: usize,
    methods: &[Method],
) -> Result<(), EnvFault>
    ensures { Tells result (each (method_faults «module» item)
        (map (λ method. method.lifetime_env.nodes) methods.now)) }
{
    for (number, method) in methods.iter().enumerate() {
        let owner = Owner {
            module,
            item,
            method: Some(number),
        };
        test_lifetimes(alloc, owner, method.lifetime_env.nodes.as_slice())?;
    }
    Ok(())
}

fn test_trait_methods(
    alloc: Global,
    module: usize,
    item: usize,
    methods: &[TraitMethod],
) -> Result<(), EnvFault>
    ensures { Tells result (each (method_faults «module» item)
        (map (λ method. method.lifetimes.nodes) methods.now)) }
{
    for (number, method) in methods.iter().enumerate() {
        let owner = Owner {
            module,
            item,
            method: Some(number),
        };
        test_lifetimes(alloc, owner, method.lifetimes.nodes.as_slice())?;
    }
    Ok(())
}

fn test_item_methods(
    alloc: Global,
    module: usize,
    number: usize,
    item: &Item,
) -> Result<(), EnvFault>
    ensures { Tells result (each (method_faults «module» number) (method_nodes_of item.now)) }
{
    match item {
        Item::Struct(item) => test_methods(alloc, module, number, item.methods.as_slice()),
        Item::Opaque(item) => test_methods(alloc, module, number, item.methods.as_slice()),
        Item::Enum(item) => test_methods(alloc, module, number, item.methods.as_slice()),
        Item::Trait(item) => test_trait_methods(alloc, module, number, item.methods.as_slice()),
        Item::Function(_) => Ok(()),
    }
}

/// Tests the lifetimes of the item of a number: its own, then those of its methods.
fn test_item_lifetimes(
    alloc: Global,
    module: usize,
    number: usize,
    item: &Item,
) -> Result<(), EnvFault>
    ensures { Tells result (lifetime_faults «module» number None (nodes_of item.now)
        ++ each (method_faults «module» number) (method_nodes_of item.now)) }
{
    let owner = Owner {
        module,
        item: number,
        method: None,
    };
    test_lifetimes(alloc, owner, own_nodes(item))?;
    test_item_methods(alloc, module, number, item)
}

/// Tests the item of a number by its name and its lifetimes.
fn test_item(
    alloc: Global,
    names: &mut PartIndex,
    module: usize,
    number: usize,
    item: &Item,
) -> Result<(), EnvFault>
    ensures told { (before : List Named) → HasMeanings names.old before
        → Tells result (repeats_name EnvFaultKind.DuplicateItem «module» before
        (item_name item.now) (part.Item number)
        ++ (lifetime_faults «module» number None (nodes_of item.now)
        ++ each (method_faults «module» number) (method_nodes_of item.now))) }
    ensures kept { (before : List Named) → HasMeanings names.old before
        → OnOk result
        (HasMeanings names.new (before ++ (item_name item.now, part.Item number) ∷ [])) }
{
    let at = EnvPlace {
        module,
        part: EnvPart::Item(number),
    };
    claim(alloc, names, EnvFaultKind::DuplicateItem, name_of(item), at)?;
    test_item_lifetimes(alloc, module, number, item)
}

fn test_items(
    alloc: Global,
    names: &mut PartIndex,
    module: usize,
    items: &[Item],
) -> Result<(), EnvFault>
    ensures told { HasMeanings names.old []
        → Tells result (each (item_faults «module») items.now) }
    ensures kept { HasMeanings names.old []
        → OnOk result (HasMeanings names.new (items_named items.now)) }
{
    for (number, item) in items.iter().enumerate() {
        test_item(alloc, names, module, number, item)?;
    }
    Ok(())
}

fn test_aliases(
    alloc: Global,
    names: &mut PartIndex,
    module: usize,
    aliases: &[Alias],
) -> Result<(), EnvFault>
    ensures told { (items : List Item) → HasMeanings names.old (items_named items)
        → Tells result
        (each (alias_faults «module» items) aliases.now) }
    ensures kept { (items : List Item) → HasMeanings names.old (items_named items) → OnOk result
        (HasMeanings names.new (items_named items ++ aliases_named aliases.now)) }
{
    for (number, alias) in aliases.iter().enumerate() {
        let at = EnvPlace {
            module,
            part: EnvPart::Alias(number),
        };
        claim(alloc, names, EnvFaultKind::DuplicateItem, &alias.name, at)?;
    }
    Ok(())
}

/// Tests the items and then the aliases of the module of a number, and gives the index of their names.
pub fn test_contents(alloc: Global, number: usize, module: &Module) -> Result<PartIndex, EnvFault>
    ensures told { Tells result (content_faults number «module».now) }
    ensures indexed { IfOk result (λ names. HasMeanings names (named_in «module».now)) }
{
    let mut names = BTreeMap::new(alloc);
    test_items(alloc, &mut names, number, module.items.as_slice())?;
    test_aliases(alloc, &mut names, number, module.aliases.as_slice())?;
    Ok(names)
}
