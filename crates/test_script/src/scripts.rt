//! Scripts that are accepted or refused, and texts of answers.

use petal_base::{NoMemory, SharedBlock};
use petal_script::{
    Answer, Cause, Line, Pattern, Request, Script, ScriptError, read_script, write_answer,
    write_refusal,
};
use std::alloc::{AllocError, Global};
use std::process::Abort;
use std::test::*;

fn is_refused(alloc: Global, line: u32, cause: Cause, want: &str) -> Result<bool, Fail> {
    let cause = cause.text();
    let told = format!(in alloc; "{line}: {cause}")?;
    Ok(told.as_str() == want)
}

/// Whether this becomes of a script: `accepted`, or the number and cause of its refused line.
fn is_told(alloc: Global, text: &[u8], want: &str) -> Result<bool, Fail> {
    match read_script(alloc, text).err() {
        None => Ok(want == "accepted"),
        Some(ScriptError::Refused { line, cause }) => is_refused(alloc, line, cause, want),
        Some(ScriptError::NoMemory) => Err("out of memory".into()),
    }
}

/// Whole scripts: lines, ends of lines, words, and the first line that counts.
/// Each case is a script, with `/` for LF and `~` for CR, and what becomes of it.
const SCRIPTS: &str = "\
\x20| 1: no servers line\n\
//# x/ | 1: no servers line\n\
# a comment with \u{e9}/ | 1: not ascii\n\
/# \u{80}/ | 2: not ascii\n\
servers 2 slots 4 | accepted\n\
servers 2 slots 4/ | accepted\n\
servers 2 slots 4~/ | accepted\n\
servers 2 slots 4~/~/# c~/wait~/ | accepted\n\
servers 2 slots 4~ | 1: bad number\n\
servers 2 slots 4~~/ | 1: bad number\n\
\tservers \t2 slots   4\t/ | accepted\n\
# c//servers 8 slots 1024/ | accepted\n\
\x20 / | 1: no servers line\n\
\x20# c/servers 2 slots 4/ | 1: no servers line\n\
wait/ | 1: no servers line\n\
Servers 2 slots 4/ | 1: no servers line\n\
a read v 0/servers 2 slots 4/ | 1: no servers line\n\
servers/ | 1: bad line\n\
servers 2 slot 4/ | 1: bad line\n\
servers 2 slots 4 4/ | 1: bad line\n\
servers x slots/ | 1: bad line\n\
servers 1 slots 4/ | 1: bad number\n\
servers 9 slots 4/ | 1: bad number\n\
servers 2 slots 0/ | 1: bad number\n\
servers 2 slots 1025/ | 1: bad number\n\
servers +2 slots 4/ | 1: bad number\n\
servers 00000000000000000002 slots 4/ | accepted\n\
servers 000000000000000000002 slots 4/ | 1: bad number\n\
servers 2 slots 18446744073709551616/ | 1: bad number\n\
servers 2 slots 4/wirte vol 1/ | 2: bad line\n\
servers 2 slots 4/servers 2 slots 4/ | 2: bad line\n\
servers 2 slots 4/ \t/ | accepted\n\
\x20\t/servers 2 slots 4/\t~/ | accepted\n\
servers 2 slots 4/op stop 1/ | 2: no majority\n\
servers 3 slots 4/op stop 1/op start 1/op stop 2/ | accepted\n\
servers 3 slots 4/op stop 1/op stop 1/ | accepted\n\
servers 5 slots 4/op stop 1/op fault 2 data sync 1/op stop 3 at 9/ | 4: no majority\n\
servers 2 slots 4/a read V 0/b read v x/ | 2: bad name";

/// Lines after the servers line of two servers.
const SECOND_LINES: &str = "\
net lose 2 | accepted\n\
net twice 1000000 | accepted\n\
net lose 1 | 2: bad number\n\
net twice 1000001 | 2: bad number\n\
net drop 2 | 2: bad line\n\
net lose | 2: bad line\n\
wait | accepted\n\
wait 1 | 2: bad line\n\
a | 2: bad line\n\
i read v 0 | 2: bad line\n\
aa read v 0 | 2: bad line\n\
a disk v on 0 1 | accepted\n\
h disk v on 1 0 | accepted\n\
a disk v on 0 1 2 | 2: bad tuple\n\
a disk v on 0 0 | 2: bad tuple\n\
a disk v on 0 | 2: bad tuple\n\
a disk v on | 2: bad line\n\
a disk v | 2: bad line\n\
a disk v at 0 1 | 2: bad line\n\
a disk v on 0 1 0 1 0 1 0 1 0 | 2: bad tuple\n\
a disk v on 0 1 2 3 4 5 6 7 8 | 2: bad tuple\n\
a disk v on 0 x | 2: bad number\n\
a disk v on 0 2 x | 2: bad number\n\
a disk V on 0 x | 2: bad name\n\
a disk v on 0 18446744073709551616 | 2: bad tuple\n\
a disk v on 0 99999999999999999999 | 2: bad tuple\n\
a disk v on 0 000000000000000000001 | 2: bad number\n\
a disk v on 0 00000000000000000001 | accepted\n\
a move v on 1 0 | accepted\n\
a move v on 1 1 | 2: bad tuple\n\
a write v 281474976710655 fill 255 | accepted\n\
a write v 281474976710656 fill 9 | 2: bad number\n\
a write v 0 fill 256 | 2: bad number\n\
a write v 0 fill | 2: bad line\n\
a write v 0 fill 1 2 | 2: bad line\n\
a write v 0 halves 1 | 2: bad line\n\
a write v 0 halves 1 2 | accepted\n\
a write v 0 halves 1 256 | 2: bad number\n\
a write v 0 ramp 0 | accepted\n\
a write V x fill 1 | 2: bad name\n\
a write v x fil 1 | 2: bad line\n\
a write v -1 fill 1 | 2: bad number\n\
a read v 0 | accepted\n\
a read v 18446744073709551616 | 2: bad number\n\
a read v@t 0 | accepted\n\
a read v@ 0 | 2: bad name\n\
a read @t 0 | 2: bad name\n\
a read v@t@u 0 | 2: bad name\n\
a read v@t x | 2: bad number\n\
a snap v abcdefghijklmn-_ | accepted\n\
a snap v abcdefghijklmno-1 | 2: bad name\n\
a snap v 1a | 2: bad name\n\
a snap v _a | 2: bad name\n\
op | 2: bad line\n\
op stop 2 | 2: bad number\n\
op stop 1 at 0 | 2: bad number\n\
op stop 1 at | 2: bad line\n\
op stop 1 at 1000001 | 2: bad number\n\
op fault 0 data write 1 | 2: no majority\n\
op fault 1 disk read 1 | 2: bad line\n\
op fault 1 data any 1 | 2: bad line\n\
op fault 2 state sync 1 | 2: bad number\n\
op start 2 | 2: bad number\n\
op blank 1 | accepted\n\
op settle | accepted\n\
op settle 1 | 2: bad line";

/// Lines after accepted ones, the seventh of their script, which has three servers.
const LAST_LINES: &str = "\
# \u{80} | 7: not ascii\n\
net lose 2 | 7: bad line\n\
servers 3 slots 4 | 7: bad line\n\
a raed v 0 | 7: bad line\n\
a read V 0 | 7: bad name\n\
a read v x | 7: bad number\n\
a disk w on 0 0 | 7: bad tuple\n\
op stop 2 | 7: no majority\n\
op stop 2 at 1 | 7: no majority\n\
op fault 2 state read 1000000 | 7: no majority\n\
op stop 1 | accepted\n\
op blank 1/op stop 2 | accepted";

const BEFORE: &str =
    "servers 3 slots 4/net lose 2/net twice 3/a disk v on 0 1 2/op stop 1 at 1/wait/";

/// The byte for which a case's byte stands.
fn byte_of(byte: u8) -> u8 {
    match byte {
        b'/' => b'\n',
        b'~' => b'\r',
        other => other,
    }
}

fn spell(bytes: &mut Vec<u8>, text: &str) -> Result<(), AllocError> {
    for byte in text.as_bytes() {
        bytes.push(byte_of(*byte))?;
    }
    Ok(())
}

fn spelled(alloc: Global, before: &str, text: &str) -> Result<Vec<u8>, AllocError> {
    let mut bytes = Vec::new(alloc);
    spell(&mut bytes, before)?;
    spell(&mut bytes, text)?;
    Ok(bytes)
}

fn case_holds(alloc: Global, before: &str, text: &str, want: &str) -> Result<bool, Fail> {
    let bytes = spelled(alloc, before, text)?;
    is_told(alloc, &bytes, want)
}

fn check_case(rt: &impl Abort, alloc: Global, before: &str, case: &str) -> Result<(), Fail> {
    let (text, want) = case.split_once(" | ").ok_or("a case")?;
    assert!(rt; case_holds(alloc, before, text, want)?, "at {text}");
    Ok(())
}

fn check_cases(rt: &impl Abort, alloc: Global, before: &str, cases: &str) -> Result<(), Fail> {
    for case in cases.split('\n') {
        check_case(rt, alloc, before, case)?;
    }
    Ok(())
}

#[test]
fn scripts_are_accepted_or_refused(rt: HostRuntime) -> Result<(), Fail> {
    check_cases(&rt, rt.alloc(), "", SCRIPTS)?;
    check_cases(&rt, rt.alloc(), "servers 2 slots 4/", SECOND_LINES)?;
    check_cases(&rt, rt.alloc(), BEFORE, LAST_LINES)
}

/// Whether this becomes of a servers line and then so many lines.
fn repeated(alloc: Global, line: &str, count: u32, want: &str) -> Result<bool, Fail> {
    let mut text = String::from_str(alloc, "servers 2 slots 4\n")?;
    for _ in 0..count {
        text.push_str(line)?;
    }
    is_told(alloc, text.as_str().as_bytes(), want)
}

/// Whether so many of the line are accepted, and this is told of one more.
fn ends_at(alloc: Global, line: &str, most: u16, want: &str) -> Result<bool, Fail> {
    let most = u32::from(most);
    let accepted = repeated(alloc, line, most, "accepted")?;
    Ok(repeated(alloc, line, most + 1, want)? && accepted)
}

/// Each kind of line as often as a script may have it, and what is told of one more.
#[test]
fn as_many_as_may_be(rt: HostRuntime) -> Result<(), Fail> {
    let cases: [(&str, u16, &str); 6] = [
        ("a read v 0\n", 1024, "1026: too many"),
        ("a disk v on 0 1\n", 16, "18: too many"),
        ("a snap v t\n", 64, "66: too many"),
        ("a move v on 0 1\n", 8, "10: too many"),
        ("op start 0\n", 64, "66: too many"),
        ("op blank 1\nop start 1\n", 32, "66: too many"),
    ];
    for (line, most, want) in cases {
        assert!(rt; ends_at(rt.alloc(), line, most, want)?, "at {line}");
    }
    Ok(())
}

/// A servers line, and a line of 256 bytes without its end.
fn long_line(alloc: Global) -> Result<Vec<u8>, AllocError> {
    let mut text = Vec::new(alloc);
    text.extend_from_slice(b"servers 2 slots 4\n")?;
    for _ in 0..256 {
        text.push(b'#')?;
    }
    Ok(text)
}

fn end_is_not_counted(alloc: Global, text: &mut Vec<u8>) -> Result<bool, Fail> {
    text.extend_from_slice(b"\r\nx\n")?;
    is_told(alloc, text, "3: bad line")
}

/// Whether this becomes of the text with one more byte.
fn byte_is_told(alloc: Global, text: &mut Vec<u8>, byte: u8, want: &str) -> Result<bool, Fail> {
    text.push(byte)?;
    is_told(alloc, text, want)
}

fn line_is_refused_past_its_length(alloc: Global, text: &mut Vec<u8>) -> Result<bool, Fail> {
    let as_long = is_told(alloc, text, "accepted")?;
    let with_end = end_is_not_counted(alloc, text)?;
    text.truncate(274);
    let longer = byte_is_told(alloc, text, b'#', "2: too long")?;
    let not_ascii = byte_is_told(alloc, text, 0x80, "2: not ascii")?;
    Ok(as_long && with_end && longer && not_ascii)
}

/// 256 bytes make a line; one more is refused.
#[test]
fn a_line_as_long_as_may_be(rt: HostRuntime) -> Result<(), Fail> {
    let mut text = long_line(rt.alloc())?;
    assert!(rt; line_is_refused_past_its_length(rt.alloc(), &mut text)?);
    Ok(())
}

/// A script of 1,048,576 bytes.
fn long_script(alloc: Global) -> Result<Vec<u8>, AllocError> {
    let mut text = Vec::new(alloc);
    text.extend_from_slice(b"servers 2 slots 4\n#############\n")?;
    for _ in 0..32_767 {
        text.extend_from_slice(b"# 345678901234567890123456789 1\n")?;
    }
    Ok(text)
}

fn script_is_refused_past_its_length(alloc: Global, text: &mut Vec<u8>) -> Result<bool, Fail> {
    let as_long = text.len() == 1_048_576 && is_told(alloc, text, "accepted")?;
    text.push(b'\n')?;
    let longer = is_told(alloc, text, "32770: too long")?;
    text.truncate(1_048_575);
    text.extend_from_slice(b"x\n")?;
    let last_line = is_told(alloc, text, "32769: too long")?;
    Ok(as_long && longer && last_line)
}

/// 1,048,576 bytes make a script; one more is refused in the line that has it.
#[test]
fn a_script_as_long_as_may_be(rt: HostRuntime) -> Result<(), Fail> {
    let mut text = long_script(rt.alloc())?;
    assert!(rt; script_is_refused_past_its_length(rt.alloc(), &mut text)?);
    Ok(())
}

/// Whether the line stands there: its number, phase and client.
fn stands(line: Option<&Line>, want: (u32, u32, u8)) -> bool {
    match line {
        Some(line) => (line.number, line.phase, line.client) == want,
        None => false,
    }
}

fn makes_vol(line: Option<&Line>) -> bool {
    match line {
        Some(line) => match &line.request {
            Request::Disk { name, tuple } => {
                name.bytes() == b"vol".as_slice() && tuple.ids() == [0, 4, 2].as_slice()
            }
            _ => false,
        },
        None => false,
    }
}

fn writes_halves(line: Option<&Line>) -> bool {
    match line {
        Some(line) => match &line.request {
            Request::Write { pattern, .. } => *pattern == Pattern::Halves(1, 2),
            _ => false,
        },
        None => false,
    }
}

fn is_as_read(script: &Script) -> bool {
    let lines = script.lines.as_slice();
    (script.servers, script.slots, script.phases) == (5, 16, 2)
        && lines.len() == 3
        && stands(lines.get(0), (3, 0, 1))
        && stands(lines.get(1), (5, 1, 7))
        && stands(lines.get(2), (7, 1, 8))
        && makes_vol(lines.get(0))
        && writes_halves(lines.get(1))
}

#[test]
fn what_is_read(rt: HostRuntime) -> Result<(), Fail> {
    let text =
        b"servers 5 slots 16\r\n# c\r\nb disk vol on 0 4 2\r\nwait\r\nh write vol 5 halves 1 2\r\n\r\nop start 3";
    let script = read_script(rt.alloc(), text).ok().ok_or("a script")?;
    assert!(rt; is_as_read(&script));
    Ok(())
}

fn print(alloc: Global, out: &mut Vec<u8>, answer: Answer) -> Result<(), NoMemory> {
    write_answer(alloc, out, 4, &answer)
}

/// Prints the answer of a read that found such a block.
fn print_block(alloc: Global, out: &mut Vec<u8>, pattern: Pattern) -> Result<(), NoMemory> {
    let block = SharedBlock::new(alloc, pattern.block(alloc)?)?;
    print(alloc, out, Answer::Data(block))
}

/// The digest is that of the 65,536 bytes 7, 8, .., 255, 0, .., as another program computes it.
#[test]
fn contents_are_printed(rt: HostRuntime) -> Result<(), Fail> {
    let mut out = Vec::new(rt.alloc());
    print_block(rt.alloc(), &mut out, Pattern::Fill(0))?;
    print_block(rt.alloc(), &mut out, Pattern::Halves(1, 200))?;
    print_block(rt.alloc(), &mut out, Pattern::Ramp(7))?;
    let want = b"4: data 65536x0
4: data 32768x1 32768x200
4: data sha256 05373b6763f8979c496c184b7a0eac637558f4ee4b7b17a0449afa72410a93b5
";
    assert!(rt; out.as_slice() == want.as_slice());
    Ok(())
}

fn print_words(alloc: Global, out: &mut Vec<u8>) -> Result<(), NoMemory> {
    print(alloc, out, Answer::Ok)?;
    print(alloc, out, Answer::NoSpace)?;
    print(alloc, out, Answer::Unavailable)?;
    print(alloc, out, Answer::NoDisk)?;
    print(alloc, out, Answer::NoSnap)?;
    print(alloc, out, Answer::Exists)?;
    print(alloc, out, Answer::Moving)?;
    print(alloc, out, Answer::Failed)?;
    write_refusal(alloc, out, 20, Cause::NoMajority.text())
}

#[test]
fn words_are_printed(rt: HostRuntime) -> Result<(), Fail> {
    let mut out = Vec::new(rt.alloc());
    print_words(rt.alloc(), &mut out)?;
    let want = b"4: ok
4: nospace
4: unavailable
4: nodisk
4: nosnap
4: exists
4: moving
4: failed
refused line 20: no majority
";
    assert!(rt; out.as_slice() == want.as_slice());
    Ok(())
}
