//! Reads and writes that fail, each in turn: the status, and what stands on the output.

ghost use Rattle.std.specs.Prelude.{◌<◌};

use crate::runs::{ANSWER, Calls, End, LONGEST, Out, Run, SURE, blanks_fault, fault, fault_over};
use round_ll::outside::MemorySink;
use std::alloc::Global;

/// All that is printed of the function.
const PRINTED: &[u8] = b"builtin.module @_ {
  llvm.func @f : llvm.func <builtin.integer i32 () variadic = false> {linkage = ExternalLinkage} {
  ^0:entry():
    %0 = llvm.constant() {value = builtin.integer <7: i32>} : builtin.integer i32
    llvm.return(%0)
  }
}
;; llvm
source_filename = \"_\"

define i32 @f() {
entry_block0:
  ret i32 7
}
;; report
blocks @f 0
";

// ---- reads and writes in mid-stream

/// How `round` ends where a read fails.
const FAILED_READ: End = End {
    status: 3,
    out: Out::Is(b""),
    line: "read fault\n",
};

/// How it ends where a write fails and this is on the output.
fn failed_write(out: &[u8]) -> End<'_> {
    End {
        status: 4,
        out: Out::Is(out),
        line: "write fault\n",
    }
}

/// How it ends well over the function.
const WELL: End = End {
    status: 0,
    out: Out::Is(PRINTED),
    line: "",
};

/// The run of `round` over the function with these reads.
fn round_by(reads: Calls<'_>) -> Run<'_>
    requires { 0 < reads.0 }
    ensures { 0 < result.reads.0 }
{
    Run {
        words: &["round"],
        text: ANSWER.as_bytes(),
        reads,
        complaints: &[],
    }
}

/// What is wrong where the second read fails, of pieces of 8 bytes, and then a write to this output.
fn mid_stream_fault_over(alloc: Global, out: &mut MemorySink) -> &'static str {
    let fault = fault_over(alloc, &round_by((8, &[1])), out, &FAILED_READ);
    if !fault.is_empty() {
        return fault;
    }
    let end = failed_write(b"builtin.module @_ {\n");
    fault_over(alloc, &round_by((8, &[])), out, &end)
}

/// The same of an output whose third write fails, of pieces of 10 bytes.
fn mid_stream_fault(alloc: Global) -> &'static str {
    match MemorySink::new(alloc, 1 << 12, 10, &[2]) {
        Ok(mut out) => mid_stream_fault_over(alloc, &mut out),
        Err(_) => "no memory",
    }
}

#[test]
fn a_read_or_a_write_fails_in_mid_stream(rt: HostRuntime) {
    let fault = mid_stream_fault(rt.alloc());
    assert!(rt; fault.is_empty(), "{fault}");
}

/// What is wrong with a run in which the read of this number fails, of pieces of a byte. One read more than there are
/// bytes meets the end, and behind it none is made.
fn read_fault(alloc: Global, read: u32) -> &'static str {
    let end = if read as usize <= ANSWER.len() {
        FAILED_READ
    } else {
        WELL
    };
    fault(alloc, &round_by((1, &[read])), SURE, &end)
}

#[test]
fn each_read_fails_in_turn(rt: HostRuntime) {
    for read in 0..ANSWER.len() as u32 + 2 {
        let fault = read_fault(rt.alloc(), read);
        assert!(rt; fault.is_empty(), "{fault} at {read}");
    }
}

/// What is wrong with a run in which the write of this number fails, of pieces of a byte.
fn write_fault(alloc: Global, write: u32) -> &'static str {
    let end = if (write as usize) < PRINTED.len() {
        failed_write(&PRINTED[..write as usize])
    } else {
        WELL
    };
    fault(alloc, &round_by(SURE), (1, &[write]), &end)
}

#[test]
fn each_write_fails_in_turn(rt: HostRuntime) {
    for write in 0..PRINTED.len() as u32 + 1 {
        let fault = write_fault(rt.alloc(), write);
        assert!(rt; fault.is_empty(), "{fault} at {write}");
    }
}

// ---- faults of the standard error

/// A run over which single reads and writes fail, and how it ends.
struct Case {
    words: &'static [&'static str],
    text: &'static str,
    reads: &'static [u32],
    writes: &'static [u32],
    end: End<'static>,
}

/// What is wrong with how a case ends where these calls of the standard error fail and this line is then on it.
fn case_fault(alloc: Global, case: &Case, complaints: &[u32], line: &str) -> &'static str {
    let given = Run {
        words: case.words,
        text: case.text.as_bytes(),
        reads: (1 << 20, case.reads),
        complaints,
    };
    let end = End { line, ..case.end };
    fault(alloc, &given, (1 << 20, case.writes), &end)
}

/// What is wrong with how a case ends, with its line, or with none where the first call of the standard error fails.
fn either_fault(alloc: Global, case: &Case) -> &'static str {
    let told = case_fault(alloc, case, &[], case.end.line);
    if told.is_empty() {
        case_fault(alloc, case, &[0], "")
    } else {
        told
    }
}

/// One text for each answer that a short one has.
const CASES: &[Case] = &[
    Case {
        words: &["round"],
        text: ANSWER,
        reads: &[],
        writes: &[],
        end: WELL,
    },
    Case {
        words: &[],
        text: ANSWER,
        reads: &[],
        writes: &[],
        end: End {
            status: 2,
            out: Out::Is(b""),
            line: "usage: round_ll round\n",
        },
    },
    Case {
        words: &["round"],
        text: ANSWER,
        reads: &[0],
        writes: &[],
        end: FAILED_READ,
    },
    Case {
        words: &["round"],
        text: ANSWER,
        reads: &[],
        writes: &[0],
        end: End {
            status: 4,
            out: Out::Is(b""),
            line: "write fault\n",
        },
    },
    Case {
        words: &["round"],
        text: "define",
        reads: &[],
        writes: &[],
        end: End {
            status: 6,
            out: Out::Is(b""),
            line: "NotYet\n",
        },
    },
];

/// How a run ends over a text that is too long where the line cannot be written.
const TOO_LONG: End = End {
    status: 5,
    out: Out::Is(b""),
    line: "",
};

#[test]
fn faults_of_the_standard_error_change_no_status(rt: HostRuntime) {
    for case in CASES {
        let fault = either_fault(rt.alloc(), case);
        assert!(rt; fault.is_empty(), "{fault} at {}", case.end.status);
    }
    let longer = blanks_fault(rt.alloc(), LONGEST + 1, &[0], &TOO_LONG);
    assert!(rt; longer.is_empty(), "{longer} at 5");
}
