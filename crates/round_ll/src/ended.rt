//! How the program ends: its answers, their statuses and their lines.

ghost use Rattle.std.specs.Prelude.{◌≡◌};
ghost use Rattle.round_ll.specs.Ending.{head_of, name_of, other_head, refusal_head, refusal_name, status_of};

use from_consts::conversion_err::{ConversionErr, Unsupported};
use itoa::Buffer;
use kinds::types::OtherType;
use ll_text::read_err::ReadErr;
use thiserror::Error;
use to_llvm_ir::to_llvm_err::ToLLVMErr;
use transfer::transfer_err::TransferErr;
use transfer::transferred::Transferred;

/// Why the program refused.
#[derive(Debug, Drop, Error)]
pub enum Fault {
    /// The words are no command.
    #[error("usage: round_ll round")]
    Usage,
    /// A read of the source failed.
    #[error("read fault")]
    ReadFault,
    /// A write of the output failed.
    #[error("write fault")]
    WriteFault,
    /// The source gave more than 2^24 bytes.
    #[error("input longer than 16777216 bytes")]
    TooLong,
    /// The text was not read.
    #[error("{0}")]
    Text(ReadErr),
    /// The module was read, and not translated.
    #[error("{0}")]
    Transfer(TransferErr),
}

/// How the program ends.
#[derive(Drop)]
pub enum Ended {
    /// All was done; the dialect module and the module back are these.
    Done(Box<Transferred>),
    /// Refused, for this reason; only a write fault may leave a part of the output.
    Refused(Fault),
    /// Memory was wanting.
    NoMemory,
}

impl Ended {
    /// The status that the process ends with.
    pub fn status(&self) -> u8
        ensures { result ≡ status_of self.now }
    {
        match self {
            Ended::Done(_) => 0,
            Ended::Refused(Fault::Usage) => 2,
            Ended::Refused(Fault::ReadFault) => 3,
            Ended::Refused(Fault::WriteFault) => 4,
            Ended::Refused(Fault::TooLong) => 5,
            Ended::Refused(Fault::Text(_)) => 6,
            Ended::Refused(Fault::Transfer(_)) => 7,
            Ended::NoMemory => 8,
        }
    }

    /// The line for the standard error up to a name or a number that it may end in; empty where all was done, and
    /// no line is owed.
    pub fn head(&self) -> &'static str
        ensures { result.now ≡ head_of self.now }
    {
        match self {
            Ended::Done(_) => "",
            Ended::Refused(Fault::Usage) => "usage: round_ll round",
            Ended::Refused(Fault::ReadFault) => "read fault",
            Ended::Refused(Fault::WriteFault) => "write fault",
            Ended::Refused(Fault::TooLong) => "input longer than 16777216 bytes",
            Ended::Refused(Fault::Text(_)) => "NotYet",
            Ended::Refused(Fault::Transfer(e)) => refusal_head(e),
            Ended::NoMemory => "out of memory",
        }
    }

    /// The name that the line ends in, or the number, for which there have to be digits; empty where it has none.
    pub fn name<'a>(&'a self, digits: &'a mut Buffer) -> &'a str
        ensures { result.now ≡ name_of self.now }
    {
        match self {
            Ended::Refused(Fault::Transfer(e)) => refusal_name(e, digits),
            _ => "",
        }
    }
}

/// The line of an import that meets a type for which the dialect has none.
fn other_head(of: OtherType) -> &'static str
    ensures { result.now ≡ other_head of }
{
    match of {
        OtherType::X86Fp80 => "import X86Fp80",
        OtherType::Fp128 => "import Fp128",
        OtherType::PpcFp128 => "import PpcFp128",
        OtherType::X86Amx => "import X86Amx",
        OtherType::Token => "import Token",
    }
}

/// The line of a refusal up to the name or the number in it.
fn refusal_head(e: &TransferErr) -> &'static str
    ensures { result.now ≡ refusal_head e.now }
{
    match e {
        TransferErr::Import(ConversionErr::UndefinedValue(..)) => "import UndefinedValue: ",
        TransferErr::Import(ConversionErr::IntConstTooWide(_)) => "import IntConstTooWide: ",
        TransferErr::Import(ConversionErr::Unsupported(Unsupported::Ty(of))) => other_head(*of),
        TransferErr::Import(ConversionErr::Unsupported(Unsupported::ScalableSplat)) => {
            "import ScalableSplat"
        }
        TransferErr::Import(ConversionErr::Struct(_)) => "import Struct",
        TransferErr::Import(ConversionErr::NoMemory) => "import NoMemory",
        TransferErr::Export(ToLLVMErr::UndefinedValue(_)) => "export UndefinedValue: ",
        TransferErr::Export(ToLLVMErr::UndefinedBlock(_)) => "export UndefinedBlock: ",
        TransferErr::Export(ToLLVMErr::NumBlockArgsNumPhisMismatch) => {
            "export NumBlockArgsNumPhisMismatch"
        }
        TransferErr::Export(ToLLVMErr::EdgeArgsDiffer(..)) => "export EdgeArgsDiffer",
        TransferErr::Export(ToLLVMErr::NoMemory) => "export NoMemory",
        TransferErr::NoMemory => "NoMemory",
    }
}

/// The name in the line of a refusal, or the number, empty where it has none.
fn refusal_name<'a>(e: &'a TransferErr, digits: &'a mut Buffer) -> &'a str
    ensures { result.now ≡ refusal_name e.now }
{
    match e {
        TransferErr::Import(ConversionErr::UndefinedValue(name, _)) => name.as_str(),
        TransferErr::Import(ConversionErr::IntConstTooWide(width)) => digits.format(*width),
        TransferErr::Export(ToLLVMErr::UndefinedValue(name)) => name.as_str(),
        TransferErr::Export(ToLLVMErr::UndefinedBlock(label)) => label.as_str(),
        _ => "",
    }
}
