//! The rules that declarations have to keep, and the texts that tell that one is broken.

ghost use Rattle.std.specs.Prelude.{◌≡◌, map};
ghost use Rattle.hir_reports.specs.Rules.{rule_name, pieces};

/// A rule. Declarations that break none are lowered; each that is broken is told in a report of its name.
#[derive(Clone, Copy, Debug, PartialEq, Eq)]
pub enum Rule {
    /// A name isn't an identifier of Rust.
    BadIdent,
    /// A path names nothing of its kind.
    UnresolvedPath,
    /// A named lifetime isn't declared.
    LifetimeUnknown,
    /// A path writes more lifetimes than its definition has.
    LifetimeArity,
    /// `Self`, or the type of a receiver, isn't the declaring type.
    SelfMismatch,
    /// A field's type leaves a lifetime unnamed.
    AnonymousInDefinition,
    /// A return elides a lifetime, and nothing lends one.
    ElisionNoSource,
    /// A return elides a lifetime, and several could be meant.
    ElisionAmbiguous,
    /// A signature or a definition has more than 4,095 lifetimes.
    TooManyLifetimes,
    /// `auto` stands under `not` or `all`, or where it isn't allowed at all.
    AutoMisplaced,
    /// A condition asks for a pair that no backend knows.
    UnknownPair,
    /// The backend doesn't support a mark.
    MarkUnsupported,
    /// A method is marked as a special one a second time.
    SecondSpecial,
    /// A mark has an argument that it doesn't take.
    MarkArgument,
    /// A mark that stands once is given again.
    MarkRepeated,
    /// A mark that can't stand under `auto` does.
    AutoIneligible,
    /// `custom_extra_code` doesn't say what to include, and where.
    BadInclude,
    /// `custom_extra_code` names a location that has its code already.
    IncludeRepeated,
    /// `default_value` isn't a value that a parameter can have.
    BadDefaultValue,
    /// No mark has that name.
    UnknownMark,
    /// A mark stands on a kind of declaration that doesn't take it.
    MarkMisplaced,
    /// There is code to include, and the backend takes none.
    IncludeUnsupported,
    /// A parameter without a default value follows one that has one.
    RequiredAfterDefault,
    /// A special method has no receiver where it needs one, or one where it can't have it.
    SpecialReceiver,
    /// A special method has another number of parameters than its kind.
    SpecialParams,
    /// A special method returns what its kind can't.
    SpecialReturn,
    /// A type has a second method of a kind that stands once.
    SpecialRepeated,
    /// A comparison's operand has another type than its receiver.
    SpecialOperand,
    /// A special method needs a flag that the backend doesn't have.
    SpecialSupport,
    /// The receiver of an assigning operator isn't a mutably borrowed opaque.
    AssignReceiver,
    /// An `Ordering` isn't a return.
    OrderingMisplaced,
    /// A struct without fields stands where a value is needed.
    ZeroSize,
    /// A struct without fields has methods.
    ZeroSizeMethods,
    /// An out-struct is an input.
    OutStructInput,
    /// An opaque isn't behind a reference or a box.
    OpaqueByValue,
    /// An opaque that isn't mutable is borrowed by `&mut`.
    MutOpaqueUnmarked,
    /// What can't be borrowed stands behind a reference.
    ReferenceTarget,
    /// A box stands where none may, or boxes what it can't.
    BoxMisplaced,
    /// An option has an inside that it can't have there.
    OptionShape,
    /// std's option stands where Diplomat's has to.
    StdOptionPlace,
    /// Diplomat's option holds an opaque.
    DiplomatOptionOpaque,
    /// A result isn't the whole return.
    ResultMisplaced,
    /// A writer isn't the last parameter.
    WriteMisplaced,
    /// `()` is neither a return nor a part of one.
    UnitMisplaced,
    /// A function type isn't a parameter.
    FunctionMisplaced,
    /// An `impl Trait` isn't an input.
    TraitMisplaced,
    /// A slice has elements that it can't have.
    SliceElement,
    /// A slice of opaques has a shape that isn't supported.
    OpaqueSliceShape,
    /// A slice is returned by value where it can't be.
    OwnedSliceMisplaced,
    /// A list of strings is an output.
    StrsOutput,
    /// A field has a type that can't cross the interface.
    FfiUnsafe,
    /// A callback returns a reference to a struct.
    CallbackReturnShape,
    /// A callback takes a reference, and these aren't allowed.
    CallbackReference,
    /// What is declared needs a flag that the backend doesn't have.
    SupportDenied,
    /// A struct reaches itself through its fields.
    StructContainsItself,
    /// Structs nest deeper than 256.
    NestingTooDeep,
    /// The inputs of a callable have more than 1,048,576 leaves.
    TooManyLeaves,
    /// A method of a type returns a lifetime that it doesn't name.
    ElidedReturn,
    /// A method leaves out a bound that its types imply.
    ImpliedBound,
    /// A method returns the lifetime of a reference to a struct.
    StructRefReturned,
    /// A method returns a lifetime of a slice of opaques.
    OpaqueSliceBorrowed,
    /// A slice has elements that aren't marked as laid out as in Rust.
    AbiUnmarked,
    /// A struct is marked as laid out as in Rust, and can't be.
    AbiLayout,
    /// A slice has out-structs as elements.
    OutStructSlice,
    /// A struct is borrowed by `&mut` without the mark for it.
    MutStructRef,
    /// A struct marked as a tuple is borrowed.
    TupleReference,
    /// A field is a reference to a struct.
    FieldBorrow,
    /// A callback's return can't tell an error, and has to.
    CallbackReturn,
}

impl Rule {
    /// The rule's name, as a report prints it.
    #[tactic(auto, unfolding(crate::specs::Rules::rule_name))]
    pub fn name(self) -> &'static str
        ensures { result.now ≡ rule_name self }
    {
        match self {
            Rule::BadIdent => "BadIdent",
            Rule::UnresolvedPath => "UnresolvedPath",
            Rule::LifetimeUnknown => "LifetimeUnknown",
            Rule::LifetimeArity => "LifetimeArity",
            Rule::SelfMismatch => "SelfMismatch",
            Rule::AnonymousInDefinition => "AnonymousInDefinition",
            Rule::ElisionNoSource => "ElisionNoSource",
            Rule::ElisionAmbiguous => "ElisionAmbiguous",
            Rule::TooManyLifetimes => "TooManyLifetimes",
            Rule::AutoMisplaced => "AutoMisplaced",
            Rule::UnknownPair => "UnknownPair",
            Rule::MarkUnsupported => "MarkUnsupported",
            Rule::SecondSpecial => "SecondSpecial",
            Rule::MarkArgument => "MarkArgument",
            Rule::MarkRepeated => "MarkRepeated",
            Rule::AutoIneligible => "AutoIneligible",
            Rule::BadInclude => "BadInclude",
            Rule::IncludeRepeated => "IncludeRepeated",
            Rule::BadDefaultValue => "BadDefaultValue",
            Rule::UnknownMark => "UnknownMark",
            Rule::MarkMisplaced => "MarkMisplaced",
            Rule::IncludeUnsupported => "IncludeUnsupported",
            Rule::RequiredAfterDefault => "RequiredAfterDefault",
            Rule::SpecialReceiver => "SpecialReceiver",
            Rule::SpecialParams => "SpecialParams",
            Rule::SpecialReturn => "SpecialReturn",
            Rule::SpecialRepeated => "SpecialRepeated",
            Rule::SpecialOperand => "SpecialOperand",
            Rule::SpecialSupport => "SpecialSupport",
            Rule::AssignReceiver => "AssignReceiver",
            Rule::OrderingMisplaced => "OrderingMisplaced",
            Rule::ZeroSize => "ZeroSize",
            Rule::ZeroSizeMethods => "ZeroSizeMethods",
            Rule::OutStructInput => "OutStructInput",
            Rule::OpaqueByValue => "OpaqueByValue",
            Rule::MutOpaqueUnmarked => "MutOpaqueUnmarked",
            Rule::ReferenceTarget => "ReferenceTarget",
            Rule::BoxMisplaced => "BoxMisplaced",
            Rule::OptionShape => "OptionShape",
            Rule::StdOptionPlace => "StdOptionPlace",
            Rule::DiplomatOptionOpaque => "DiplomatOptionOpaque",
            Rule::ResultMisplaced => "ResultMisplaced",
            Rule::WriteMisplaced => "WriteMisplaced",
            Rule::UnitMisplaced => "UnitMisplaced",
            Rule::FunctionMisplaced => "FunctionMisplaced",
            Rule::TraitMisplaced => "TraitMisplaced",
            Rule::SliceElement => "SliceElement",
            Rule::OpaqueSliceShape => "OpaqueSliceShape",
            Rule::OwnedSliceMisplaced => "OwnedSliceMisplaced",
            Rule::StrsOutput => "StrsOutput",
            Rule::FfiUnsafe => "FfiUnsafe",
            Rule::CallbackReturnShape => "CallbackReturnShape",
            Rule::CallbackReference => "CallbackReference",
            Rule::SupportDenied => "SupportDenied",
            Rule::StructContainsItself => "StructContainsItself",
            Rule::NestingTooDeep => "NestingTooDeep",
            Rule::TooManyLeaves => "TooManyLeaves",
            Rule::ElidedReturn => "ElidedReturn",
            Rule::ImpliedBound => "ImpliedBound",
            Rule::StructRefReturned => "StructRefReturned",
            Rule::OpaqueSliceBorrowed => "OpaqueSliceBorrowed",
            Rule::AbiUnmarked => "AbiUnmarked",
            Rule::AbiLayout => "AbiLayout",
            Rule::OutStructSlice => "OutStructSlice",
            Rule::MutStructRef => "MutStructRef",
            Rule::TupleReference => "TupleReference",
            Rule::FieldBorrow => "FieldBorrow",
            Rule::CallbackReturn => "CallbackReturn",
        }
    }

    /// The rule's text, cut where an argument stands: `{} names nothing` is the two pieces `""` and `" names nothing"`.
    #[tactic(auto, unfolding(crate::specs::Rules::pieces))]
    pub(crate) fn pieces(self) -> &'static [&'static str]
        ensures { map (λ piece. piece.now) result.now ≡ pieces self }
    {
        match self {
            Rule::BadIdent => &["", " is not a Rust identifier"],
            Rule::UnresolvedPath => &["", " names nothing"],
            Rule::LifetimeUnknown => &["lifetime '", " is not declared"],
            Rule::LifetimeArity => &["", " has too many lifetimes"],
            Rule::SelfMismatch => &["Self does not name the declaring type"],
            Rule::AnonymousInDefinition => &["a definition must name its lifetimes"],
            Rule::ElisionNoSource => &["nothing to borrow from"],
            Rule::ElisionAmbiguous => &["source of elision is ambiguous"],
            Rule::TooManyLifetimes => &["more than 4095 lifetimes"],
            Rule::AutoMisplaced => &["auto is only allowed at the top level and within any"],
            Rule::UnknownPair => &["unknown name and value in a condition"],
            Rule::MarkUnsupported => &["", " not supported in backend ", ""],
            Rule::SecondSpecial => &["multiple special method markers, found ", ""],
            Rule::MarkArgument => &["", " has a wrong argument"],
            Rule::MarkRepeated => &["Duplicate `", "` attribute"],
            Rule::AutoIneligible => &["", " does not work with auto"],
            Rule::BadInclude => &["bad custom_extra_code"],
            Rule::IncludeRepeated => &["Duplicates not allowed."],
            Rule::BadDefaultValue => &["unsupported default value"],
            Rule::UnknownMark => &["Unknown diplomat attribute ", ""],
            Rule::MarkMisplaced => &["", " is not allowed here"],
            Rule::IncludeUnsupported => &["Custom bindings not supported by this language."],
            Rule::RequiredAfterDefault => &["Found required arg ", " after default arguments."],
            Rule::SpecialReceiver => &["", " has a wrong receiver"],
            Rule::SpecialParams => &["", " has a wrong number of parameters"],
            Rule::SpecialReturn => &["", " has a wrong return type"],
            Rule::SpecialRepeated => &["", " stands twice on one type"],
            Rule::SpecialOperand => &["Comparator's parameter must be identical to self"],
            Rule::SpecialSupport => &["", " needs ", ""],
            Rule::AssignReceiver => &["", " must take an opaque self by mutable reference"],
            Rule::OrderingMisplaced => &["cmp::Ordering is only allowed in return types"],
            Rule::ZeroSize => &["zero-size types are not allowed here"],
            Rule::ZeroSizeMethods => &["Methods on ZST structs are not yet implemented"],
            Rule::OutStructInput => &["found out-struct in input"],
            Rule::OpaqueByValue => &["Opaque passed by value"],
            Rule::MutOpaqueUnmarked => &["opaque passed as &mut without opaque_mut"],
            Rule::ReferenceTarget => &["found &T where T is not allowed behind a reference"],
            Rule::BoxMisplaced => &["found Box<T> where it is not allowed"],
            Rule::OptionShape => &["found Option<T> with a T that is not allowed"],
            Rule::StdOptionPlace => &["please use DiplomatOption<T>"],
            Rule::DiplomatOptionOpaque => &[
                "found DiplomatOption<T>, where T is opaque. Please use Option<&T> (DiplomatOption is for primitives, structs, and enums)",
            ],
            Rule::ResultMisplaced => &[
                "Results can only appear as the top-level return type of methods",
            ],
            Rule::WriteMisplaced => &[
                "DiplomatWrite can only appear as the last parameter of a method",
            ],
            Rule::UnitMisplaced => &["Unit can only be a return or a part of a returned result"],
            Rule::FunctionMisplaced => &["Function types can only be parameters"],
            Rule::TraitMisplaced => &["Trait impls can only be an input type"],
            Rule::SliceElement => &["Cannot have this type in a slice"],
            Rule::OpaqueSliceShape => &["this slice of opaques is unsupported"],
            Rule::OwnedSliceMisplaced => &["Owned slices cannot be returned here"],
            Rule::StrsOutput => &["String slices can only be an input type"],
            Rule::FfiUnsafe => &["field ", " is FFI-unsafe"],
            Rule::CallbackReturnShape => &["Cannot return references to structs from callbacks"],
            Rule::CallbackReference => &["Callbacks cannot take references"],
            Rule::SupportDenied => &["backend must support ", ""],
            Rule::StructContainsItself => &["struct contains itself"],
            Rule::NestingTooDeep => &["structs nest deeper than 256"],
            Rule::TooManyLeaves => &["more than 1048576 borrowed leaves"],
            Rule::ElidedReturn => &[
                "Found elided lifetime in return type, please explicitly specify",
            ],
            Rule::ImpliedBound => &[
                "Method should explicitly include this lifetime bound from ",
                ": '",
                ": '",
                " (comes from source type's '",
                ": '",
                ")",
            ],
            Rule::StructRefReturned => &[
                "Found lifetimes used in struct references also used in the return type: '",
                "",
            ],
            Rule::OpaqueSliceBorrowed => &[
                "Opaque slices (param ",
                ") cannot be borrowed from: '",
                "",
            ],
            Rule::AbiUnmarked => &["Cannot construct a slice of ", ""],
            Rule::AbiLayout => &["", " is not ABI compatible"],
            Rule::OutStructSlice => &["slices of out-structs are not supported"],
            Rule::MutStructRef => &["Found a mutable struct ref &mut ", ""],
            Rule::TupleReference => &["Tuple structs cannot be passed by reference"],
            Rule::FieldBorrow => &["field ", " cannot be borrowed"],
            Rule::CallbackReturn => &["callback returns must be fallible with an ffi_error enum"],
        }
    }
}
