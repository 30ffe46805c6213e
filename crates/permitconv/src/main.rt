// permitconv: reads a house file from standard input and prints the verdict, and the mined list of a convertible one.
// What cannot be read or printed is said by a line on standard error. Asked --help or --version, it prints that and reads no file.
#![tactic(auto)]

ghost use Rattle.std.specs.Prelude.{◌≡◌, ◌≢◌, IfSome, OnOk, codes};
ghost use Rattle.std.specs.Io.KnownBytes.{Appends};
ghost use Rattle.report.specs.Report.{file_text, report_text};

use report::{READ_LIMIT, TEXT_ROOM};
use std::fmt;
use std::io::{Read, Write};
use std::rt::Env;

// Why there is no answer.
#[derive(Clone, Copy, Debug, PartialEq, Eq)]
enum Failure {
    NotRead,
    NotWritten,
}

impl fmt::Display for Failure {
    fn fmt<W: fmt::Write>(&self, f: &mut fmt::Formatter<W>) -> fmt::Result {
        match self {
            Failure::NotRead => write!(f, "standard input cannot be read"),
            Failure::NotWritten => write!(f, "standard output cannot be written"),
        }
    }
}

// Prints a text by one call. Where that fails, what was printed is no answer.
fn print<W: Write>(text: &[u8], out: &mut W) -> Result<(), Failure>
    ensures { OnOk result (Appends (W.contents out.old) (W.contents out.new) text.now) }
{
    out.write_all(text).map_err(|_| Failure::NotWritten)
}

// Prints the text of a file.
fn answer<W: Write>(file: &[u8], out: &mut W) -> Result<(), Failure>
    ensures { OnOk result (Appends (W.contents out.old) (W.contents out.new) (file_text file.now)) }
{
    let mut text = [0u8; TEXT_ROOM];
    let end = report::write_report(file, &mut text);
    print(&text[..end], out)
}

// Answers for the file on the input. A read that a signal interrupts counts as failed.
fn convert<R: Read, W: Write>(input: &mut R, out: &mut W) -> Result<(), Failure>
    ensures { OnOk result (IfSome (R.remaining input.old)
        (λ xs. Appends (W.contents out.old) (W.contents out.new) (report_text xs))) }
{
    let mut file = [0u8; READ_LIMIT];
    let n = reading::read_full(input, &mut file).map_err(|_| Failure::NotRead)?;
    answer(&file[..n], out)
}

// What the program does where this word is its first argument; one that is neither of the two counts as none.
fn run<R: Read, W: Write>(asked: &[u8], input: &mut R, out: &mut W) -> Result<(), Failure>
    ensures answer { OnOk result (asked.now ≢ codes "--help" → asked.now ≢ codes "--version"
        → IfSome (R.remaining input.old)
        (λ xs. Appends (W.contents out.old) (W.contents out.new) (report_text xs))) }
    ensures help { asked.now ≡ codes "--help" → R.remaining input.new ≡ R.remaining input.old }
    ensures version { asked.now ≡ codes "--version" → R.remaining input.new ≡ R.remaining input.old }
{
    if asked == b"--help".as_slice() {
        return print(
            b"usage: permitconv < FILE\n\
            Reads a house file from standard input and prints whether its permits can be said by\n\
            rules and, where they can, the rules, a line for each term.\n\
            \n\
            \x20 --help       print this text\n\
            \x20 --version    print the version\n",
            out,
        );
    }
    if asked == b"--version".as_slice() {
        return print(b"permitconv (Hempmallet) 0.17.0\n", out);
    }
    convert(input, out)
}

// Says on standard error why there is no answer. Where that fails too, nothing is left to say it to.
fn main(rt: HostRuntime) {
    let mut asked = [0u8; 16];
    // No argument, or one that there is no room for, counts as an empty one.
    let n = rt.arg(1, &mut asked).unwrap_or(0);
    if let Err(failure) = run(&asked[..n], &mut rt.stdin(), &mut rt.stdout()) {
        let _ = eprintln!(rt; "permitconv: {failure}");
    }
}
