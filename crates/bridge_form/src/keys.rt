//! The keys of the JSON form.

ghost use Rattle.std.specs.Prelude.{◌≡◌};
ghost use Rattle.bridge_form.specs.Keys.{key_text};

/// A key of an object of the form.
#[derive(Clone, Copy)]
pub enum Key {
    Root,
    Backend,
    Config,
    Docs,
    Name,
    Attrs,
    Items,
    Aliases,
    Modules,
    Target,
    Kind,
    Lifetimes,
    Fields,
    Methods,
    Ty,
    Mutable,
    DtorAbiName,
    Variants,
    Discriminant,
    Itself,
    Reference,
    Path,
    Params,
    Ret,
    IsSend,
    IsSync,
    AbiName,
    SelfType,
    Longer,
    Shorter,
    Lifetime,
    Segments,
    Features,
    Marks,
    Condition,
    Mark,
    Value,
    List,
    AbiRename,
    Deprecated,
    Blocks,
    Links,
    Lines,
    Display,
    OtherNames,
    Supports,
    Pairs,
    Unstable,
    UnsafeReferences,
    Default,
    Bases,
    Pair,
    Not,
    Any,
    All,
    Bool,
    Char,
    Byte,
    Int,
    Float,
    Str,
    Named,
    ImplTrait,
    Ref,
    Boxed,
    StdOption,
    DiplomatOption,
    StdResult,
    DiplomatResult,
    Write,
    Strs,
    Slice,
    CustomSlice,
    Callback,
    To,
    OkType,
    ErrType,
    Encoding,
    Std,
    Of,
}

/// The text of a key, of keys that stand before their texts.
macro_rules! texts {
    ($key:ident { $($name:ident $text:literal),* $(,)? }) => {
        match $key {
            $(Key::$name => $text,)*
        }
    };
}

#[tactic(auto, unfolding(crate::specs::Keys::key_text))]
impl Key {
    /// The key as it is written.
    // In line it is a look-up in a table, which a call for each comparison of keys would cost more than.
    #[inline(always)]
    pub fn text(self) -> &'static str
        ensures { result.now ≡ key_text self }
    {
        texts!(self {
            Root "root", Backend "backend", Config "config", Docs "docs", Name "name",
            Attrs "attrs", Items "items", Aliases "aliases", Modules "modules", Target "target",
            Kind "kind", Lifetimes "lifetimes", Fields "fields", Methods "methods", Ty "ty",
            Mutable "mutable", DtorAbiName "dtor_abi_name", Variants "variants",
            Discriminant "discriminant", Itself "self", Reference "reference", Path "path",
            Params "params", Ret "ret", IsSend "is_send", IsSync "is_sync", AbiName "abi_name",
            SelfType "self_type", Longer "longer", Shorter "shorter", Lifetime "lifetime",
            Segments "segments", Features "features", Marks "marks", Condition "if", Mark "mark",
            Value "value", List "list", AbiRename "abi_rename", Deprecated "deprecated",
            Blocks "blocks", Links "links", Lines "lines", Display "display",
            OtherNames "other_names", Supports "supports", Pairs "pairs", Unstable "unstable",
            UnsafeReferences "unsafe_references_in_callbacks", Default "default", Bases "bases",
            Pair "pair", Not "not", Any "any", All "all", Bool "bool", Char "char", Byte "byte",
            Int "int", Float "float", Str "str", Named "named", ImplTrait "impl", Ref "ref",
            Boxed "box", StdOption "option", DiplomatOption "diplomat_option", StdResult "result",
            DiplomatResult "diplomat_result", Write "write", Strs "strs", Slice "slice",
            CustomSlice "custom_slice", Callback "fn", To "to", OkType "ok", ErrType "err",
            Encoding "encoding", Std "std", Of "of",
        })
    }
}
