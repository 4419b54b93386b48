//! The target description: which registers GDB reads (GDB manual, "MIPS Features").

ghost use Rattle.std.specs.Prelude.{◌≡◌, ◌++◌, OnOk};
ghost use Rattle.brd_gdb.specs.Slices as slices;

use brd_base::NoMemory;

/// How many bytes a part has at most: with its letter it fits a packet.
const MOST_PART: usize = 16_383;

/// No operating system: so GDB asks for single steps, and doesn't set breaks of its own for them, which no processor
/// comes to from a delay slot. The registers by number: 32 general ones, the status, lo, hi, the bad address, the
/// cause, the program counter, those of floating point, without which GDB takes no description of this processor, and
/// the address of the last exception.
const FEATURES: &[u8] = b"\
    <?xml version='1.0'?>\n\
    <!DOCTYPE target SYSTEM 'gdb-target.dtd'>\n\
    <target>\n\
    <architecture>mips</architecture>\n\
    <osabi>none</osabi>\n\
    <feature name='org.gnu.gdb.mips.cpu'>\n\
    <reg name='r0' bitsize='32' regnum='0'/>\n\
    <reg name='r1' bitsize='32'/>\n\
    <reg name='r2' bitsize='32'/>\n\
    <reg name='r3' bitsize='32'/>\n\
    <reg name='r4' bitsize='32'/>\n\
    <reg name='r5' bitsize='32'/>\n\
    <reg name='r6' bitsize='32'/>\n\
    <reg name='r7' bitsize='32'/>\n\
    <reg name='r8' bitsize='32'/>\n\
    <reg name='r9' bitsize='32'/>\n\
    <reg name='r10' bitsize='32'/>\n\
    <reg name='r11' bitsize='32'/>\n\
    <reg name='r12' bitsize='32'/>\n\
    <reg name='r13' bitsize='32'/>\n\
    <reg name='r14' bitsize='32'/>\n\
    <reg name='r15' bitsize='32'/>\n\
    <reg name='r16' bitsize='32'/>\n\
    <reg name='r17' bitsize='32'/>\n\
    <reg name='r18' bitsize='32'/>\n\
    <reg name='r19' bitsize='32'/>\n\
    <reg name='r20' bitsize='32'/>\n\
    <reg name='r21' bitsize='32'/>\n\
    <reg name='r22' bitsize='32'/>\n\
    <reg name='r23' bitsize='32'/>\n\
    <reg name='r24' bitsize='32'/>\n\
    <reg name='r25' bitsize='32'/>\n\
    <reg name='r26' bitsize='32'/>\n\
    <reg name='r27' bitsize='32'/>\n\
    <reg name='r28' bitsize='32'/>\n\
    <reg name='r29' bitsize='32'/>\n\
    <reg name='r30' bitsize='32'/>\n\
    <reg name='r31' bitsize='32'/>\n\
    <reg name='lo' bitsize='32' regnum='33'/>\n\
    <reg name='hi' bitsize='32' regnum='34'/>\n\
    <reg name='pc' bitsize='32' regnum='37'/>\n\
    </feature>\n\
    <feature name='org.gnu.gdb.mips.cp0'>\n\
    <reg name='status' bitsize='32' regnum='32'/>\n\
    <reg name='badvaddr' bitsize='32' regnum='35'/>\n\
    <reg name='cause' bitsize='32' regnum='36'/>\n\
    </feature>\n\
    <feature name='org.gnu.gdb.mips.fpu'>\n\
    <reg name='f0' bitsize='32' type='ieee_single' regnum='38'/>\n\
    <reg name='f1' bitsize='32' type='ieee_single'/>\n\
    <reg name='f2' bitsize='32' type='ieee_single'/>\n\
    <reg name='f3' bitsize='32' type='ieee_single'/>\n\
    <reg name='f4' bitsize='32' type='ieee_single'/>\n\
    <reg name='f5' bitsize='32' type='ieee_single'/>\n\
    <reg name='f6' bitsize='32' type='ieee_single'/>\n\
    <reg name='f7' bitsize='32' type='ieee_single'/>\n\
    <reg name='f8' bitsize='32' type='ieee_single'/>\n\
    <reg name='f9' bitsize='32' type='ieee_single'/>\n\
    <reg name='f10' bitsize='32' type='ieee_single'/>\n\
    <reg name='f11' bitsize='32' type='ieee_single'/>\n\
    <reg name='f12' bitsize='32' type='ieee_single'/>\n\
    <reg name='f13' bitsize='32' type='ieee_single'/>\n\
    <reg name='f14' bitsize='32' type='ieee_single'/>\n\
    <reg name='f15' bitsize='32' type='ieee_single'/>\n\
    <reg name='f16' bitsize='32' type='ieee_single'/>\n\
    <reg name='f17' bitsize='32' type='ieee_single'/>\n\
    <reg name='f18' bitsize='32' type='ieee_single'/>\n\
    <reg name='f19' bitsize='32' type='ieee_single'/>\n\
    <reg name='f20' bitsize='32' type='ieee_single'/>\n\
    <reg name='f21' bitsize='32' type='ieee_single'/>\n\
    <reg name='f22' bitsize='32' type='ieee_single'/>\n\
    <reg name='f23' bitsize='32' type='ieee_single'/>\n\
    <reg name='f24' bitsize='32' type='ieee_single'/>\n\
    <reg name='f25' bitsize='32' type='ieee_single'/>\n\
    <reg name='f26' bitsize='32' type='ieee_single'/>\n\
    <reg name='f27' bitsize='32' type='ieee_single'/>\n\
    <reg name='f28' bitsize='32' type='ieee_single'/>\n\
    <reg name='f29' bitsize='32' type='ieee_single'/>\n\
    <reg name='f30' bitsize='32' type='ieee_single'/>\n\
    <reg name='f31' bitsize='32' type='ieee_single'/>\n\
    <reg name='fcsr' bitsize='32' regnum='70' group='float'/>\n\
    <reg name='fir' bitsize='32' regnum='71' group='float'/>\n\
    </feature>\n\
    <feature name='board.exception'>\n\
    <reg name='epc' bitsize='32' type='code_ptr' regnum='72'/>\n\
    </feature>\n\
    </target>\n\
";

/// The target description.
pub fn features() -> &'static [u8]
    ensures { result.now ≡ FEATURES.now }
{
    FEATURES
}

/// Puts the answer of a part of a text at the end: `m` or `l`, and the part.
pub fn put_slice(out: &mut Vec<u8>, text: &[u8], offset: u32, length: u32) -> Result<(), NoMemory>
    ensures { OnOk result (out.new.items ≡ out.old.items ++ slices.slice_of text.now offset length) }
{
    let length = (length as usize).min(MOST_PART);
    let rest = text.get(offset as usize..).unwrap_or(&[]);
    let more = length < rest.len();
    let part = rest.get(..length).unwrap_or(rest);
    out.push(if more { b'm' } else { b'l' })?;
    out.extend_from_slice(part)?;
    Ok(())
}
