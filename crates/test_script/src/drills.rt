//! Drills, against texts that were made apart from the code.

use petal_base::SharedBlock;
use petal_drill::{Counts, drill_script, summary_text};
use petal_script::{Answer, Pattern, read_script};
use std::process::Abort;
use std::test::Fail;

/// Eighteen requests drawn from 1. A server stops before the ninth and starts before the seventeenth.
const EIGHTEEN: &str = "\
servers 5 slots 256
a disk vol on 0 1 2 3 4
wait
g write vol 54 fill 169
d read vol 27
e write vol 52 fill 200
e write vol 36 fill 96
b read vol 57
g read vol 22
h write vol 55 fill 202
c write vol 2 fill 180
wait
op stop 4
g write vol 30 fill 198
f write vol 13 fill 67
e write vol 44 fill 64
g write vol 46 fill 144
c write vol 10 fill 156
d read vol 19
h write vol 15 fill 161
h write vol 63 fill 70
wait
op start 4
op settle
wait
d write vol 3 fill 108
c write vol 50 fill 221
wait
";

#[test]
fn drills_are_as_written(rt: HostRuntime) -> Result<(), Fail> {
    let alloc = rt.alloc();
    let drill = drill_script(alloc, 1, 18)?;
    let written = read_script(alloc, EIGHTEEN.as_bytes())?;
    assert!(rt; drill == written);
    Ok(())
}

/// The longest drills are scripts, with the lines and phases that 800 requests, 50 stops and 49 starts have.
#[test]
fn long_drills_are_scripts(rt: HostRuntime) -> Result<(), Fail> {
    for seed in [0, 1, 2_147_483_647] {
        let drill = drill_script(rt.alloc(), seed, 800)?;
        assert!(rt; drill.lines.len() == 949 && drill.phases == 151);
    }
    Ok(())
}

#[test]
fn answers_are_counted(rt: HostRuntime) -> Result<(), Fail> {
    let alloc = rt.alloc();
    let text = b"servers 3 slots 4\na write vol 5 fill 7\na read vol 5\nop stop 1\n";
    let lines = read_script(alloc, text.as_slice())?.lines.into_vec();
    let write = lines.first().expect(&rt, "a write");
    let read = lines.get(1).expect(&rt, "a read");
    let block = SharedBlock::new(alloc, Pattern::Fill(7).block(alloc)?)?;
    let mut counts = Counts::new();
    counts.add(&write.request, &Answer::Ok);
    counts.add(&read.request, &Answer::Data(block));
    counts.add(&read.request, &Answer::Unavailable);
    let line = summary_text(alloc, 7, 3, &lines, &counts)?;
    assert!(rt; line.as_str() == "drill 7 3: writes 1 reads 1 stops 1 sum 7\n");
    Ok(())
}
