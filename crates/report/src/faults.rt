ghost use Rattle.std.specs.Prelude.{◌≡◌, IfOk};
ghost use Rattle.report.specs.Faults.{kind_name, which_name, fault_js};
ghost use Rattle.report.specs.Lines.{line_of};

use crate::fields::{Field, object};
use crate::trees::Tree;
use plain_data::List;
use std::alloc::{AllocError, Global};
use wire_io::{InputFault, InputKind, Which};

/// The line of a fault of the words or the input. It errs for want of memory alone.
pub fn fault_line(alloc: Global, fault: InputFault) -> Result<List<u8>, AllocError>
    ensures { IfOk result (λ line. line ≡ line_of (fault_js fault)) }
{
    let tree = fault_tree(alloc, fault)?;
    tree.into_line(alloc)
}

fn fault_tree(alloc: Global, fault: InputFault) -> Result<Tree, AllocError>
    ensures { IfOk result (λ tree. tree ≡ fault_js fault) }
{
    match fault {
        InputFault::Usage => object(alloc, [Field::word(alloc, "fault", "Usage")?]),
        InputFault::BadInput { line, kind } => {
            let fields = [
                Field::number(alloc, "at", line)?,
                Field::word(alloc, "fault", "BadInput")?,
                Field::word(alloc, "kind", kind_text(kind))?,
            ];
            object(alloc, fields)
        }
        InputFault::Limit(which) => {
            let fields = [
                Field::word(alloc, "fault", "Limit")?,
                Field::word(alloc, "which", which_text(which))?,
            ];
            object(alloc, fields)
        }
    }
}

fn kind_text(kind: InputKind) -> &'static str
    ensures { result.now ≡ kind_name kind }
{
    match kind {
        InputKind::BadJson => "BadJson",
        InputKind::TooDeep => "TooDeep",
        InputKind::Fraction => "Fraction",
        InputKind::NotObject => "NotObject",
        InputKind::UnknownLine => "UnknownLine",
        InputKind::MissingField => "MissingField",
        InputKind::WrongKind => "WrongKind",
        InputKind::UnknownField => "UnknownField",
        InputKind::BadVersion => "BadVersion",
        InputKind::BadSpace => "BadSpace",
        InputKind::BadType => "BadType",
        InputKind::BadId => "BadId",
        InputKind::DuplicateType => "DuplicateType",
        InputKind::BadKind => "BadKind",
        InputKind::UnsortedVersions => "UnsortedVersions",
        InputKind::BadOp => "BadOp",
        InputKind::DuplicateRegistry => "DuplicateRegistry",
        InputKind::DuplicateDoc => "DuplicateDoc",
        InputKind::NotStated => "NotStated",
        InputKind::Unplaced => "Unplaced",
        InputKind::BadNumber => "BadNumber",
        InputKind::NotBuilt => "NotBuilt",
    }
}

fn which_text(which: Which) -> &'static str
    ensures { result.now ≡ which_name which }
{
    match which {
        Which::Line => "line",
        Which::Input => "input",
        Which::Instances => "instances",
        Which::Clients => "clients",
        Which::Objects => "objects",
    }
}
