//! The command `gdb` over readers and writers that fail, and the packets that it is sent.

use super::fakes::{Bytewise, Taking};
use super::run::{CONFIG, JOURNAL, image};
use super::{UNWRITTEN, is_fault};
use brd_command::{Quiet, gdb};
use brd_inputs::{CommandFault, Inputs};
use std::alloc::Global;
use std::test::Fail;
use test_help::none_wrong;

/// Serves GDB the firmware of `run`'s tests.
fn served(
    alloc: Global,
    image: &[u8],
    packets: &mut Bytewise<'_>,
    writer: &mut Taking,
) -> Result<(), CommandFault> {
    let mut inputs = Inputs {
        image,
        config: CONFIG,
        last: JOURNAL,
    };
    gdb(alloc, &mut inputs, packets, writer, &mut Quiet)
}

/// What GDB sends, and what it is answered, up to the packet by which it leaves.
const PACKETS: &[(&[u8], &[u8])] = &[
    (b"$D#44", b"+$OK#9a"),
    (b"$k#6b", b"+"),
    (b"$vKill;1#6e", b"+$OK#9a"),
    (b"$D#44$qC#b4", b"+$OK#9a"),
    (b"$QStartNoAckMode#b0$D#44", b"+$OK#9a$OK#9a"),
    (b"+-\x03x$vMustReplyEmpty#3a$D#44", b"+$#00+$OK#9a"),
    (b"$D#45$D#44", b"-+$OK#9a"),
    (b"$D#4g$D#44", b"-+$OK#9a"),
    (b"$QStartNoAckMode#b0$D#45$D#44", b"+$OK#9a$OK#9a"),
    (b"$qC$D#44", b"+$OK#9a"),
    (b"$}d#e1", b"+$OK#9a"),
    (b"$M80000000,1:00#cc$D#44", b"+$E01#a6+$OK#9a"),
    (b"$G00#a7$D#44", b"+$E01#a6+$OK#9a"),
    (b"$P0=00000000#3d$D#44", b"+$E01#a6+$OK#9a"),
    (b"$X80000000,0:#76$D#44", b"+$E01#a6+$OK#9a"),
    (b"$?#3f$D#44", b"+$T05thread:01;#07+$OK#9a"),
    (b"$qC#b4$D#44", b"+$QC01#f5+$OK#9a"),
    (b"$qfThreadInfo#bb$D#44", b"+$m01#ce+$OK#9a"),
    (b"$qsThreadInfo#c8$D#44", b"+$l#6c+$OK#9a"),
    (b"$T1#85$D#44", b"+$OK#9a+$OK#9a"),
    (b"$T2#86$D#44", b"+$E01#a6+$OK#9a"),
    (b"$Hg1#e0$D#44", b"+$OK#9a+$OK#9a"),
    (b"$Hc0#db$D#44", b"+$OK#9a+$OK#9a"),
    (b"$Hg2#e1$D#44", b"+$E01#a6+$OK#9a"),
    (b"$qAttached:1#fa$D#44", b"+$0#30+$OK#9a"),
    (b"$vCont?#49$D#44", b"+$vCont;c;C;s;S;r#0f+$OK#9a"),
    (b"$p25#d7$D#44", b"+$80000000#88+$OK#9a"),
    (b"$p20#d2$D#44", b"+$xxxxxxxx#c0+$OK#9a"),
    (b"$m80000000,2#53$D#44", b"+$2402#c8+$OK#9a"),
    (b"$m70000000,2#52$D#44", b"+$E01#a6+$OK#9a"),
    (b"$Z0,80000004,4#a2$D#44", b"+$OK#9a+$OK#9a"),
    (b"$Z1,80000004,4#a3$D#44", b"+$OK#9a+$OK#9a"),
    (b"$Z2,80000004,4#a4$D#44", b"+$OK#9a+$OK#9a"),
    (b"$Z3,80000004,4#a5$D#44", b"+$OK#9a+$OK#9a"),
    (b"$Z4,80000004,8#aa$D#44", b"+$OK#9a+$OK#9a"),
    (b"$Z3,80000004,200#03$D#44", b"+$OK#9a+$OK#9a"),
    (b"$Z3,80000004,201#04$D#44", b"+$E01#a6+$OK#9a"),
    (b"$Z4,80000004,0#a2$D#44", b"+$E01#a6+$OK#9a"),
    (b"$Z5,80000004,4#a7$D#44", b"+$#00+$OK#9a"),
    (b"$z3,80000004,4#c5$D#44", b"+$OK#9a+$OK#9a"),
    (b"$z9,0,0#6b$D#44", b"+$#00+$OK#9a"),
    (b"$vCont;s:1;c#c1$D#44", b"+$T05thread:01;#07+$OK#9a"),
    (b"$vCont;s:1#23$D#44", b"+$T05thread:01;#07+$OK#9a"),
    (b"$vCont;s:2#24$D#44", b"+$E01#a6+$OK#9a"),
    (b"$vCont;s:2;c#c2$D#44", b"+$E01#a6+$OK#9a"),
    (b"$vCont;r80000000,80000004:9;c#08$D#44", b"+$E01#a6+$OK#9a"),
    (b"$s#73$D#44", b"+$T05thread:01;#07+$OK#9a"),
    (b"$vCont;S05:1;c#06$D#44", b"+$T05thread:01;#07+$OK#9a"),
    (
        b"$vCont;r80000000,80000004:1;c#00$D#44",
        b"+$T05thread:01;#07+$OK#9a",
    ),
    (
        b"$vCont;rffffffff80000000,ffffffff80000004:1;c#60$D#44",
        b"+$T05thread:01;#07+$OK#9a",
    ),
    (b"$bs#d5$D#44", b"+$T05thread:01;replaylog:begin;#50+$OK#9a"),
    (b"$bc#c5$D#44", b"+$T05thread:01;replaylog:begin;#50+$OK#9a"),
    (
        b"$qRcmd,74726163652039#00$D#44",
        b"+$O20202020206576656e74206370752077686f20202020202020207768657265202020202020202020202020202020776861740a20202020202020202030202020202020202020202020202020202020202020202020202020202020202020202020626567696e733a2063707520312072756e73207461736b20310a#34$OK#9a+$OK#9a",
    ),
    (
        b"$qRcmd,676f746f2033#fb$qRcmd,74726163652030#f7$D#44",
        b"+$O617420330a#7a$OK#9a+$OK#9a+$OK#9a",
    ),
    (
        b"$qRcmd,676f746f2033#fb$qRcmd,74726163652031#f8$D#44",
        b"+$O617420330a#7a$OK#9a+$O2020202020202020203220312020207461736b203120202020205f73746172742b307838202020202020202020207075745f6368722827482729203d20455f4f4b0a#32$OK#9a+$OK#9a",
    ),
    (
        b"$qRcmd,676f746f2033#fb$qRcmd,74726163652032#f9$D#44",
        b"+$O617420330a#7a$OK#9a+$O20202020202020202030202020202020202020202020202020202020202020202020202020202020202020202020626567696e733a2063707520312072756e73207461736b20310a2020202020202020203220312020207461736b203120202020205f73746172742b307838202020202020202020207075745f6368722827482729203d20455f4f4b0a#44$OK#9a+$OK#9a",
    ),
    (
        b"$qRcmd,676f746f2033#fb$qRcmd,73756d6d617279#6d$D#44",
        b"+$O617420330a#7a$OK#9a+$O6166746572206576656e7420332c207469636b20303a206f6e0a63707520312072756e73207461736b20312c206c6173742073746570206174206576656e7420320a7461736b20312072656164792073696e6365207468652073746172742c206174205f73746172742b307863202838303030303030632c20706173742077686174206973206c6f616465642c20776869636820656e64732077697468205f73746172742b307838290a#42$OK#9a+$OK#9a",
    ),
];

/// Whether packets are answered so.
fn are_answered(alloc: Global, image: &[u8], packets: &[u8], answers: &[u8]) -> bool {
    let mut packets = Bytewise::new(packets);
    let mut writer = Taking::new(alloc);
    let ended = served(alloc, image, &mut packets, &mut writer);
    ended.is_ok() && writer.taken.as_slice() == answers
}

/// The first of `PACKETS` that are answered otherwise.
fn first_wrong_answer(alloc: Global, image: &[u8]) -> Option<usize> {
    PACKETS.iter().position(|(packets, answers)| !are_answered(alloc, image, *packets, *answers))
}

/// Packets by which GDB leaves, that are wrong, and that aren't known.
#[test]
fn packets_of_gdb(rt: HostRuntime) -> Result<(), Fail> {
    let image = image(rt.alloc())?;
    none_wrong(first_wrong_answer(rt.alloc(), image.as_slice()))
}

/// Two packets, and their answers.
const TWO: &[u8] = b"$G00#a7$D#44";

const TWO_ANSWERS: &[u8] = b"+$E01#a6+$OK#9a";

/// Whether input that ends after n bytes, or fails there, has this fault, and what came whole before is answered.
fn ends_early(alloc: Global, image: &[u8], number: usize) -> bool {
    let mut failing = Bytewise::new(TWO);
    failing.fails_at = number.saturating_add(1);
    let mut first = Taking::new(alloc);
    let failed = served(alloc, image, &mut failing, &mut first);
    let mut ending = Bytewise::new(TWO.get(..number).unwrap_or(TWO));
    let mut second = Taking::new(alloc);
    let ended = served(alloc, image, &mut ending, &mut second);
    let answers: &[u8] = if number < 7 { b"" } else { b"+$E01#a6" };
    let unread = "can't read standard input: the reader's own words";
    let cut = "can't read standard input: unexpected end of file";
    is_fault(alloc, &failed, unread, 4)
        && is_fault(alloc, &ended, cut, 4)
        && first.taken.as_slice() == answers
        && second.taken.as_slice() == answers
}

/// The first number of bytes at which input ends in another way.
fn first_wrong_end(alloc: Global, image: &[u8]) -> Option<usize> {
    (0..TWO.len()).find(|number| !ends_early(alloc, image, *number))
}

/// Where input ends or fails before GDB leaves, the packets before have been answered.
#[test]
fn each_end_of_packets(rt: HostRuntime) -> Result<(), Fail> {
    let image = image(rt.alloc())?;
    none_wrong(first_wrong_end(rt.alloc(), image.as_slice()))
}

/// Whether the write of this number fails, and a front of the answers has been written.
fn ends_by_a_write(alloc: Global, image: &[u8], number: usize) -> bool {
    let mut packets = Bytewise::new(TWO);
    let mut writer = Taking::new(alloc);
    writer.fails_at = number;
    let ended = served(alloc, image, &mut packets, &mut writer);
    is_fault(alloc, &ended, UNWRITTEN, 4) && TWO_ANSWERS.starts_with(writer.taken.as_slice())
}

/// The first write that fails in another way: of the answers, and a flush for each byte that came.
fn first_wrong_write(alloc: Global, image: &[u8]) -> Option<usize> {
    (1..=TWO_ANSWERS.len().saturating_add(TWO.len())).find(|number| !ends_by_a_write(
        alloc, image, *number,
    ))
}

/// Each answer is written and flushed. Where a write fails, a front of the answers has been written.
#[test]
fn each_write_of_answers_fails(rt: HostRuntime) -> Result<(), Fail> {
    let image = image(rt.alloc())?;
    none_wrong(first_wrong_write(rt.alloc(), image.as_slice()))
}

/// Whether a packet of so many bytes is answered so, and GDB leaves after it.
fn is_measured(alloc: Global, image: &[u8], length: usize, answers: &[u8]) -> bool {
    let mut packets = Vec::new(alloc);
    if packets.push(b'$').is_err() {
        return false;
    }
    for _ in 0..length {
        if packets.push(b'@').is_err() {
            return false;
        }
    }
    packets.extend_from_slice(b"#00$D#44").is_ok()
        && are_answered(alloc, image, packets.as_slice(), answers)
}

/// A packet of 16,384 bytes isn't known, one of more is too long. (The sum of `@` four times is 0 modulo 256.)
#[test]
fn long_packets(rt: HostRuntime) -> Result<(), Fail> {
    let image = image(rt.alloc())?;
    assert!(rt; is_measured(rt.alloc(), image.as_slice(), 16_384, b"+$#00+$OK#9a"));
    assert!(rt; is_measured(rt.alloc(), image.as_slice(), 16_388, b"+$E07#ac+$OK#9a"));
    Ok(())
}
