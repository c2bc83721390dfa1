/// Why a line of the input is refused. A program tests the causes of one line in the order
/// that its table of lines gives.
#[derive(Clone, Copy, Debug, PartialEq, Eq)]
pub enum InputKind {
    /// The line is no JSON text by RFC 8259, or nests deeper than 127.
    BadJson,
    /// Lists and objects nest deeper than the command reads.
    TooDeep,
    /// A number has a fraction or an exponent, or is beyond the whole numbers that are read.
    Fraction,
    /// The line is no object.
    NotObject,
    /// No command has a line of this name.
    UnknownLine,
    /// A member that has to be there is missing.
    MissingField,
    /// A member is of the wrong kind, or a word is none of those listed.
    WrongKind,
    /// An object has a member that is not listed.
    UnknownField,
    /// A text is no version, or a version is out of its range.
    BadVersion,
    /// A text is no space.
    BadSpace,
    /// A text is no type name.
    BadType,
    /// An id or a raw id is empty, or does not fit its document.
    BadId,
    /// A type is named twice.
    DuplicateType,
    /// A text is no kind of a type, or the kind does not allow what is said of the type.
    BadKind,
    /// The versions of a type's migrations do not rise.
    UnsortedVersions,
    /// An object is no operation.
    BadOp,
    /// A registry of this version was there before.
    DuplicateRegistry,
    /// A document with this raw id was there before.
    DuplicateDoc,
    /// What the line names was not stated before.
    NotStated,
    /// The line may not stand here.
    Unplaced,
    /// A whole number is out of its range.
    BadNumber,
    /// The form is part of the language, but this program does not read it yet.
    NotBuilt,
}

/// Which limit an input passes.
#[derive(Clone, Copy, Debug, PartialEq, Eq)]
pub enum Which {
    /// 4,194,304 bytes of one line.
    Line,
    /// 26,214,400 bytes of input.
    Input,
    /// 8 instances.
    Instances,
    /// 16 clients.
    Clients,
    /// 100,000 generated objects.
    Objects,
}

/// Why a program does none of its work.
#[derive(Clone, Copy, Debug, PartialEq, Eq)]
pub enum InputFault {
    /// The words name no command.
    Usage,
    /// The line of this number, counted from 1, is the first that is refused.
    BadInput { line: u64, kind: InputKind },
    /// A limit is passed before any line is refused.
    Limit(Which),
}
