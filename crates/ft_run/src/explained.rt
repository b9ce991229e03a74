// What went wrong, in a sentence on standard error before the line of a fault.
//
// No clause states what is said: the line of the fault comes after it, as the clauses have it.
use crate::faults::{fault_line, run_fault_line};
use ft_job_text::RunFault;
use ft_jobs::JobFault;
use ft_mistakes::mistake_in;
use ft_plan_files::WrittenPlan;
use ft_script::{PlayFault, write_out};
use std::alloc::AllocError;
use std::io;
use std::io::{Stderr, Write};

/// The line of replies that end without a tree, and what is wrong with them.
const NO_TREE: &[u8] = b"fault: NoTree\n";

const UNENDED: &str =
    "the input does not end with a whole reply to 'tree', which a script needs as its last line";

const LONG_LINE: &str =
    "a line of the script has more than 8,388,608 bytes: split a large write into several";

/// How the line of a fault that names a path begins, and which limit was passed there.
const OVER_LIMITS: [(&[u8], &str); 2] = [
    (
        b"fault: TooLarge ",
        "the file has more bytes than --largest-file allows, or than 2^47, or it grew meanwhile",
    ),
    (
        b"fault: Full ",
        "the script needs more calls than --most-calls allows, or than when 'load' began",
    ),
];

/// Prints a sentence on standard error, in a line of its own, unless there was no memory for it.
pub fn say(rt: &HostRuntime, sentence: Result<String, AllocError>) {
    if let Ok(sentence) = sentence
        && let Ok(line) = format!(in rt.alloc(); "ft: {sentence}\n")
    {
        let _ = write_out(&mut rt.stderr(), line.as_bytes());
    }
}

/// Prints a fixed sentence on standard error.
fn say_text(rt: &HostRuntime, sentence: &str) {
    say(rt, String::from_str(rt.alloc(), sentence));
}

/// The input of a command.
#[derive(Clone, Copy)]
enum Input<'a> {
    // the text in a file of this name, written out as these bytes, which should be a plan
    Plan {
        file: &'a str,
        text: &'a [u8],
        bytes: &'a [u8],
    },
    // a script, whose lines should not be too long
    Script,
    // a directory on disk, which should be within the limits
    Directory,
    // replies, which should end with a tree within the limits
    Replies,
}

/// Standard error of a command. Before the line of a fault of the input, it gets a sentence that
/// says what is wrong there.
#[derive(Drop)]
pub struct Explained<'a> {
    rt: &'a HostRuntime,
    errors: Stderr,
    input: Input<'a>,
}

impl<'a> Explained<'a> {
    /// Returns standard error for a command that runs a plan from a file of this name. The file has
    /// this text.
    pub fn of_plan(
        rt: &'a HostRuntime,
        file: &'a str,
        text: &'a [u8],
        plan: &'a WrittenPlan,
    ) -> Explained<'a> {
        let bytes = plan.bytes.as_slice();
        Explained::of(rt, Input::Plan { file, text, bytes })
    }

    /// Returns standard error for a run of a script.
    pub fn of_script(rt: &'a HostRuntime) -> Explained<'a> {
        Explained::of(rt, Input::Script)
    }

    /// Returns standard error for a load, which reads a directory.
    pub fn of_directory(rt: &'a HostRuntime) -> Explained<'a> {
        Explained::of(rt, Input::Directory)
    }

    /// Returns standard error for a save, which reads replies.
    pub fn of_replies(rt: &'a HostRuntime) -> Explained<'a> {
        Explained::of(rt, Input::Replies)
    }

    /// Returns standard error for a command with this input.
    fn of(rt: &'a HostRuntime, input: Input<'a>) -> Explained<'a> {
        Explained {
            rt,
            errors: rt.stderr(),
            input,
        }
    }

    /// Prints what is wrong with the input, if this line reports it.
    fn explain(&self, line: &[u8]) {
        match self.input {
            Input::Plan { file, text, bytes } => {
                if line == run_fault_line(RunFault::Jobs(JobFault::BadPlan)).as_bytes() {
                    explain_plan(self.rt, file, text, bytes);
                }
            }
            Input::Script => {
                if line == fault_line(PlayFault::TooLong).as_bytes() {
                    say_text(self.rt, LONG_LINE);
                }
            }
            Input::Directory => explain_limits(self.rt, line),
            Input::Replies => {
                if line == NO_TREE {
                    say_text(self.rt, UNENDED);
                }
                explain_limits(self.rt, line);
            }
        }
    }
}

/// Prints which limit was passed and where, if this line reports that.
fn explain_limits(rt: &HostRuntime, line: &[u8]) {
    for (fault, why) in OVER_LIMITS {
        if let Some(path) = line.strip_prefix(fault)
            && let Ok(path) = str::from_utf8(path)
        {
            let path = path.trim_end();
            say(rt, format!(in rt.alloc(); "{path}: {why}"));
        }
    }
}

/// Prints which line of a plan is wrong, and why.
fn explain_plan(rt: &HostRuntime, file: &str, text: &[u8], bytes: &[u8]) {
    let alloc = rt.alloc();
    let Some(mistake) = mistake_in(alloc, text, bytes) else {
        return;
    };
    let why = mistake.why;
    match mistake.line {
        Some(line) => say(rt, format!(in alloc; "{file}:{line}: {why}")),
        None => say(rt, format!(in alloc; "{file}: {why}")),
    }
}

impl Write for Explained<'_> {
    fn write(&mut self, bytes: &[u8]) -> io::Result<usize> {
        self.explain(bytes);
        self.errors.write(bytes)
    }

    fn flush(&mut self) -> io::Result<()> {
        self.errors.flush()
    }
}
