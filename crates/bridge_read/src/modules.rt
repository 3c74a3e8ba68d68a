//! Modules, which nest, as one list.

ghost use Rattle.std.specs.Prelude.{◌≡◌, ◌+◌, [], ◌∷◌, ◌++◌, length, IfOk, List, OnOk};
ghost use Rattle.serde_json.specs.Data.{Data};
ghost use Rattle.serde_json.specs.View.{view};
ghost use Rattle.bridge_form.specs.declared.keys.Key.{Key as Name};
ghost use Rattle.bridge_form.specs.Form.{object_with, read_alone};
ghost use Rattle.bridge_form.specs.Given.{Gives};
ghost use Rattle.bridge_read_parts.specs.Taking.{Takes, held};
ghost use Rattle.bridge_read.specs.forms.Modules.{contents, module_of, module_parts, module_within, nested_in};
ghost use Rattle.bridge_form.specs.Left.{IsLeft};
ghost use Rattle.bridge_read.specs.inside.Names.{NamesModule};

use crate::InputForms;
use bridge_ast::{Alias, Attrs, Item, Items, Module, NoMemory, Text};
use bridge_form::{Fields, Key, Read, ReadFault, entries, in_entry, in_member};
use bridge_read_parts::{FromForm, held, listed, needed, no_attrs, read_object};
use serde_json::Value;
use std::alloc::{AllocError, Global};
use std::marker::Model;

#[tactic(auto, unfolding(crate::specs::forms::Modules::alias, bridge_form::specs::Left::are_apart, bridge_form::specs::Keys::key_text))]
impl FromForm<InputForms> for Alias {
    ghost use Rattle.bridge_read.specs.forms.Modules.{alias};

    ghost form = { alias.read };

    fn from_form(alloc: Global, value: Value) -> Read<Alias> {
        read_object!(alloc, value, left, {
            Name => name = needed(alloc, &mut left)?;
            Target => target = needed(alloc, &mut left)?;
        } Ok(Alias { name, target }))
    }
}

/// What stands in a module besides other modules.
#[derive(Drop)]
pub struct Contents {
    /// Its attributes.
    pub attrs: Attrs,
    /// Its items.
    pub items: Items<Item>,
    /// Its aliases.
    pub aliases: Items<Alias>,
}

/// What stands in a module besides other modules.
#[tactic(auto, unfolding(crate::specs::forms::Modules::contents))]
fn contents_in(alloc: Global, left: &mut Fields) -> Read<Contents>
    ensures { (keys : List Name) (d : Data)
        → IsLeft left.old (Key.Attrs ∷ Key.Items ∷ Key.Aliases ∷ keys) d
        → Takes result (read_alone contents d) left.new keys d }
{
    Ok(Contents {
        attrs: held(alloc, left, no_attrs(alloc))?,
        items: listed(alloc, left)?,
        aliases: listed(alloc, left)?,
    })
}

/// The name of a module, as it is written under the next key.
#[tactic(auto, using(crate::proofs::ModuleLemmas::named, crate::proofs::ModuleLemmas::not_named))]
fn module_name(alloc: Global, left: &mut Fields) -> Read<Text>
    ensures { (keys : List Name) (d : Data) → IsLeft left.old (Key.Name ∷ keys) d
        → NamesModule result left.new keys d }
{
    needed(alloc, left)
}

/// How many bytes the paths of all modules may take together: each keeps the names of all modules around it, so that a
/// short input could ask for more memory than any machine has.
const PATHS_MOST: usize = 1 << 31;

/// How many bytes a name takes in a path besides its own.
const NAME_PLACE: usize = 24;

/// Takes the room of a name in a path; want of memory where there is less.
fn take_room(room: &mut usize, name: &str) -> Result<(), NoMemory>
    ensures { OnOk result (room.new + (length name.now + NAME_PLACE) ≡ room.old) }
{
    let bytes = name.len().checked_add(NAME_PLACE).ok_or(AllocError)?;
    *room = room.checked_sub(bytes).ok_or(AllocError)?;
    Ok(())
}

/// The path of a module in the module of that path.
fn path_in(
    alloc: Global,
    room: &mut usize,
    parent: &[Text],
    name: Text,
) -> Result<Items<Text>, NoMemory>
    ensures { IfOk result (λ path. path ≡ parent.now ++ name ∷ []) }
{
    let mut path = Items::new(alloc);
    for segment in parent {
        take_room(room, segment.as_str())?;
        path.push(segment.try_clone(alloc)?)?;
    }
    take_room(room, name.as_str())?;
    path.push(name)?;
    Ok(path)
}

/// Modules, as contracts see them: a list.
#[derive(Drop)]
pub struct ModuleList {
    modules: Vec<Module>,
}

impl Model for ModuleList {
    ghost use Rattle.std.specs.Prelude.{List};
    ghost use Rattle.bridge_decl.specs.declared.modules.Module.{Module as Declarations};
    ghost use Rattle.std.specs.Coded.{codes};
    ghost use Rattle.bridge_decl.specs.contracts.attrs.DiplomatBackendAttrCfg as condition;
    ghost use Rattle.bridge_decl.specs.contracts.types.TypeName as written_type;

    ghost Value = { List Declarations };

    ghost coded = { Prim.hlevel (codes, condition.the_row.coded, written_type.the_row.coded) };

    ghost view = { λ it. it.modules.items };
}

impl ModuleList {
    /// No modules.
    fn new(alloc: Global) -> ModuleList
        ensures { result ≡ [] }
    {
        ModuleList {
            modules: Vec::new(alloc),
        }
    }

    /// Puts a module at the end.
    fn push(&mut self, last: Module) -> Result<(), NoMemory>
        ensures { OnOk result (self.new ≡ self.old ++ last ∷ []) }
    {
        Ok(self.modules.push(last)?)
    }

    /// Puts modules at the end, in order.
    fn append(&mut self, mut others: ModuleList) -> Result<(), NoMemory>
        ensures { OnOk result (self.new ≡ self.old ++ others) }
    {
        Ok(self.modules.append(&mut others.modules)?)
    }

    /// The modules as a `Vec`.
    pub fn into_vec(self) -> Vec<Module>
        ensures { result.items ≡ self }
    {
        self.modules
    }
}

/// A module with those that stand in it after it.
fn module_of(
    alloc: Global,
    path: Items<Text>,
    contents: Contents,
    inner: ModuleList,
) -> Result<ModuleList, NoMemory>
    ensures { IfOk result (λ modules. modules ≡ module_of path contents inner) }
{
    let mut modules = ModuleList::new(alloc);
    modules.push(Module {
        path,
        attrs: contents.attrs,
        items: contents.items,
        aliases: contents.aliases,
    })?;
    modules.append(inner)?;
    Ok(modules)
}

/// The modules of a list, each before those that stand in it.
#[cycle(modules)]
fn inner_modules(
    alloc: Global,
    room: &mut usize,
    value: Value,
    path: &[Text],
    levels: usize,
) -> Read<ModuleList>
    ensures { Gives result ((nested_in levels path.now).read (view value)) }
{
    let mut modules = ModuleList::new(alloc);
    let mut number: usize = 0;
    for entry in entries(alloc, value)? {
        let inner = in_entry(number, module_within(alloc, room, entry, path, levels))?;
        modules.append(inner)?;
        // No list is so long that its entries can't be counted.
        number = number.checked_add(1).ok_or(AllocError)?;
    }
    Ok(modules)
}

/// The modules that stand in the module of that path, if any do.
#[cycle(modules)]
fn nested_modules(
    alloc: Global,
    room: &mut usize,
    left: &mut Fields,
    path: &[Text],
    levels: usize,
) -> Read<ModuleList>
    ensures { (key : Name) (keys : List Name) (d : Data) → IsLeft left.old (key ∷ keys) d
        → Gives result (held [] (nested_in levels path.now).read key d) }
{
    match left.next() {
        Some((key, Some(value))) => {
            let modules = inner_modules(alloc, room, value, path, levels);
            in_member(alloc, key, modules)
        }
        _ => Ok(ModuleList::new(alloc)),
    }
}

/// A module in the module of that path, with those that stand in it after it.
#[cycle(modules)]
#[tactic(auto, unfolding(crate::specs::forms::Modules::contents, bridge_form::specs::Left::are_apart, bridge_form::specs::Keys::key_text))]
fn module_object(
    alloc: Global,
    room: &mut usize,
    value: Value,
    parent: &[Text],
    levels: usize,
) -> Read<ModuleList>
    ensures { Gives result
        ((object_with (module_parts (nested_in levels) parent.now)).read (view value)) }
{
    read_object!(alloc, value, left, {
        Name => name = module_name(alloc, &mut left)?;
        Attrs Items Aliases => contents = contents_in(alloc, &mut left)?;
        => path = path_in(alloc, room, parent, name)?;
        Modules => nested = nested_modules(alloc, room, &mut left, path.as_slice(), levels)?;
    } Ok(module_of(alloc, path, contents, nested)?))
}

/// The same, where modules may nest so deep.
#[cycle(modules)]
fn module_within(
    alloc: Global,
    room: &mut usize,
    value: Value,
    parent: &[Text],
    levels: usize,
) -> Read<ModuleList>
    ensures { Gives result ((module_within levels parent.now).read (view value)) }
{
    match levels.checked_sub(1) {
        Some(inner) => module_object(alloc, room, value, parent, inner),
        None => Err(ReadFault::wrong_form(alloc)),
    }
}

#[tactic(auto, unfolding(crate::specs::forms::Modules::root, crate::specs::forms::Modules::contents, bridge_form::specs::Left::are_apart, bridge_form::specs::Keys::key_text))]
impl FromForm<InputForms> for ModuleList {
    ghost use Rattle.bridge_read.specs.forms.Modules.{root};

    ghost form = { root.read };

    fn from_form(alloc: Global, value: Value) -> Read<ModuleList> {
        let mut room = PATHS_MOST;
        read_object!(alloc, value, left, {
            Attrs Items Aliases => contents = contents_in(alloc, &mut left)?;
            Modules => nested = nested_modules(alloc, &mut room, &mut left, &[], 64)?;
        } Ok(module_of(alloc, Items::new(alloc), contents, nested)?))
    }
}
