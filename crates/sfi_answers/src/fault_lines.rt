//! The lines that name faults. `specs/FaultTexts` has the same texts, and docs/SOURCE.md and
//! docs/IMAGE.md list them. The faults' types of `sfi_rewrite`, `sfi_link` and `sfi_build` have
//! names and places in their `#[error]`, too.

ghost use Rattle.std.specs.Prelude.{◌≡◌, ◌≢◌, IfOk, string_bytes};
ghost use Rattle.sfi_answers.specs.FaultTexts.{build_text, cause_name, fault_text, input_text, layout_name, layout_text, link_name, rewrite_name, source_name, stop_text, table_name};
ghost use Rattle.sfi_answers.specs.declared.fault.Stop.TheVariants.{Memory};

use crate::fault::{InputFault, Stop, TOO_LARGE_LINE};
use sfi_build::{BuildFault, TableFault};
use sfi_check::ConvertFault;
use sfi_image::LayoutFault;
use sfi_io::HexFault;
use sfi_link::LinkFault;
use sfi_rewrite::RewriteFault;
use sfi_text::{TextCause, TextFault};
use std::alloc::{AllocError, Global};

/// The line `KIND fault NUMBER WHAT` of a fault, where `what` is its name and where it is.
fn fault_line(alloc: Global, kind: &str, number: u32, what: &str) -> Result<String, AllocError>
    ensures { IfOk result
        (λ line. string_bytes line ≡ fault_text kind.now number what.now) }
{
    format!(in alloc; "{kind} fault {number} {what}\n")
}

/// The name of a fault of the layout.
fn layout_name(fault: LayoutFault) -> &'static str
    ensures { result.now ≡ layout_name fault }
{
    match fault {
        LayoutFault::Magic => "Magic",
        LayoutFault::Count => "Count",
        LayoutFault::Short => "Short",
        LayoutFault::Code => "Code",
        LayoutFault::Data => "Data",
        LayoutFault::GuardRoom => "GuardRoom",
        LayoutFault::Start => "Start",
        LayoutFault::Gates => "Gates",
        LayoutFault::Init => "Init",
        LayoutFault::Overlap => "Overlap",
        LayoutFault::Trailing => "Trailing",
    }
}

/// The line that names a fault of the image.
pub(crate) fn layout_line(alloc: Global, fault: LayoutFault) -> Result<String, AllocError>
    ensures { IfOk result (λ line. string_bytes line ≡ layout_text fault) }
{
    fault_line(alloc, "layout", fault.number(), layout_name(fault))
}

/// The line that names a fault of the text.
fn input_line(alloc: Global, fault: InputFault) -> Result<String, AllocError>
    ensures { IfOk result (λ line. string_bytes line ≡ input_text fault) }
{
    match fault {
        InputFault::Hex(HexFault::Odd) => String::from_str(alloc, "input fault hex odd\n"),
        InputFault::Hex(HexFault::Digit(place)) => {
            format!(in alloc; "input fault hex digit {place}\n")
        }
        InputFault::Utf8 => String::from_str(alloc, "input fault utf8\n"),
        InputFault::TooLarge => String::from_str(alloc, TOO_LARGE_LINE),
        InputFault::NotOld => fault_line(alloc, "convert", ConvertFault::NotOld.number(), "NotOld"),
        InputFault::Words => fault_line(alloc, "convert", ConvertFault::Words.number(), "Words"),
        InputFault::NoSandbox => String::from_str(alloc, "move fault 2 NoSandbox\n"),
        InputFault::NoPlace => String::from_str(alloc, "move fault 3 NoPlace\n"),
        InputFault::NoFile => String::from_str(alloc, "exec fault 7 NoFile\n"),
    }
}

/// The name of the cause for which a line of a source can't be read.
fn cause_name(cause: TextCause) -> &'static str
    ensures { result.now ≡ cause_name cause }
{
    match cause {
        TextCause::Word => "Word",
        TextCause::Register => "Register",
        TextCause::Number => "Number",
        TextCause::Operands => "Operands",
        TextCause::LabelTwice => "LabelTwice",
        TextCause::Directive => "Directive",
        TextCause::Limit => "Limit",
        TextCause::Memory => "Memory",
    }
}

/// The name of a fault of a source's text, and its line.
fn source_name(alloc: Global, fault: TextFault) -> Result<String, AllocError>
    ensures { IfOk result (λ name. string_bytes name ≡ source_name fault) }
{
    let TextFault { line, cause } = fault;
    let name = cause_name(cause);
    format!(in alloc; "{name} line {line}")
}

/// The name of a fault of the rewriting, and where it is.
fn rewrite_name(alloc: Global, fault: RewriteFault) -> Result<String, AllocError>
    ensures { IfOk result (λ name. string_bytes name ≡ rewrite_name fault) }
{
    match fault {
        RewriteFault::ReservedRegister { line } => {
            format!(in alloc; "ReservedRegister line {line}")
        }
        RewriteFault::Ecall { line } => format!(in alloc; "Ecall line {line}"),
        RewriteFault::TooLarge { sandbox } => format!(in alloc; "TooLarge sandbox {sandbox}"),
        RewriteFault::StackWrite { line } => format!(in alloc; "StackWrite line {line}"),
        RewriteFault::Jump { line } => format!(in alloc; "Jump line {line}"),
        RewriteFault::Memory => String::from_str(alloc, "Memory"),
    }
}

/// The name of a fault of the linking, and where it is.
fn link_name(alloc: Global, fault: LinkFault) -> Result<String, AllocError>
    ensures { IfOk result (λ name. string_bytes name ≡ link_name fault) }
{
    match fault {
        LinkFault::UnknownName { line } => format!(in alloc; "UnknownName line {line}"),
        LinkFault::BranchReach { line } => format!(in alloc; "BranchReach line {line}"),
        LinkFault::TooLarge { sandbox } => format!(in alloc; "TooLarge sandbox {sandbox}"),
        LinkFault::TooManySandboxes => String::from_str(alloc, "TooManySandboxes"),
        LinkFault::Memory => String::from_str(alloc, "Memory"),
        LinkFault::Place { sandbox } => format!(in alloc; "Place sandbox {sandbox}"),
    }
}

/// The name of a fault of a table of names, and where it is.
fn table_name(alloc: Global, fault: TableFault) -> Result<String, AllocError>
    ensures { IfOk result (λ name. string_bytes name ≡ table_name fault) }
{
    match fault {
        TableFault::Unknown { line } => format!(in alloc; "Unknown line {line}"),
        TableFault::NoRoom { sandbox } => format!(in alloc; "NoRoom sandbox {sandbox}"),
    }
}

/// The line that names a fault of the source.
fn build_line(alloc: Global, fault: BuildFault) -> Result<String, AllocError>
    ensures { IfOk result (λ line. string_bytes line ≡ build_text fault) }
{
    match fault {
        BuildFault::Text(fault) => {
            let name = source_name(alloc, fault)?;
            fault_line(alloc, "source", fault.cause.number(), &name)
        }
        BuildFault::Rewrite(fault) => {
            let name = rewrite_name(alloc, fault)?;
            fault_line(alloc, "rewrite", fault.number(), &name)
        }
        BuildFault::Link(fault) => {
            let name = link_name(alloc, fault)?;
            fault_line(alloc, "link", fault.number(), &name)
        }
        BuildFault::Names(fault) => {
            let name = table_name(alloc, fault)?;
            fault_line(alloc, "names", fault.number(), &name)
        }
    }
}

/// The line that says why a command gives no verdict; want of memory has none, and is `Err`.
pub(crate) fn stop_line(alloc: Global, stop: Stop) -> Result<String, AllocError>
    ensures memory { IfOk result (λ line. stop ≢ Memory) }
    ensures text { IfOk result (λ line. string_bytes line ≡ stop_text stop) }
{
    match stop {
        Stop::Input(fault) => input_line(alloc, fault),
        Stop::Layout(fault) => layout_line(alloc, fault),
        Stop::Build(fault) => build_line(alloc, fault),
        Stop::Memory => Err(AllocError),
    }
}
