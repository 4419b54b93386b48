//! The instructions, each as a word whose chosen fields are 0 (MD00086, appendix A).

ghost use Rattle.std.specs.Prelude.{◌<◌};

/// Which fields are chosen.
#[derive(Clone, Copy, PartialEq, Eq)]
pub enum Form {
    /// rd, rt and sa.
    Shift,
    /// rd, rs and rt.
    Registers,
    /// rd, which is rt too, and rs.
    Count,
    /// rs and rt.
    Pair,
    /// rd.
    From,
    /// rs.
    To,
    /// rt, rs and the immediate.
    Immediate,
    /// rt and the immediate.
    Upper,
    /// None.
    Nothing,
    /// rt, and the offset from the data, whose two low bits are among these.
    Access(u32),
    /// The index.
    Jump,
    /// rs, one that holds a place of the code.
    JumpRegister,
    /// rd, and such an rs.
    CallRegister,
    /// rs, rt and the offset.
    Branch,
    /// rs and the offset.
    BranchOne,
    /// rs and rt. Taken seldom, since it mostly ends its task.
    Trap,
    /// rs and the immediate. Taken seldom.
    TrapImmediate,
    /// None. Taken seldom.
    Call,
}

/// An instruction: its name, its word, and which fields are chosen.
pub type Row = (&'static str, u32, Form);

/// How many instructions there are.
pub const COUNT: u32 = 91;

/// The instructions.
pub const ROWS: &[Row] = &[
    ("sll", 0x0000_0000, Form::Shift),
    ("srl", 0x0000_0002, Form::Shift),
    ("sra", 0x0000_0003, Form::Shift),
    ("sllv", 0x0000_0004, Form::Registers),
    ("srlv", 0x0000_0006, Form::Registers),
    ("srav", 0x0000_0007, Form::Registers),
    ("movz", 0x0000_000a, Form::Registers),
    ("movn", 0x0000_000b, Form::Registers),
    ("add", 0x0000_0020, Form::Registers),
    ("addu", 0x0000_0021, Form::Registers),
    ("sub", 0x0000_0022, Form::Registers),
    ("subu", 0x0000_0023, Form::Registers),
    ("and", 0x0000_0024, Form::Registers),
    ("or", 0x0000_0025, Form::Registers),
    ("xor", 0x0000_0026, Form::Registers),
    ("nor", 0x0000_0027, Form::Registers),
    ("slt", 0x0000_002a, Form::Registers),
    ("sltu", 0x0000_002b, Form::Registers),
    ("mul", 0x7000_0002, Form::Registers),
    ("clz", 0x7000_0020, Form::Count),
    ("clo", 0x7000_0021, Form::Count),
    ("mult", 0x0000_0018, Form::Pair),
    ("multu", 0x0000_0019, Form::Pair),
    ("div", 0x0000_001a, Form::Pair),
    ("divu", 0x0000_001b, Form::Pair),
    ("madd", 0x7000_0000, Form::Pair),
    ("maddu", 0x7000_0001, Form::Pair),
    ("msub", 0x7000_0004, Form::Pair),
    ("msubu", 0x7000_0005, Form::Pair),
    ("mfhi", 0x0000_0010, Form::From),
    ("mflo", 0x0000_0012, Form::From),
    ("mthi", 0x0000_0011, Form::To),
    ("mtlo", 0x0000_0013, Form::To),
    ("addi", 0x2000_0000, Form::Immediate),
    ("addiu", 0x2400_0000, Form::Immediate),
    ("slti", 0x2800_0000, Form::Immediate),
    ("sltiu", 0x2c00_0000, Form::Immediate),
    ("andi", 0x3000_0000, Form::Immediate),
    ("ori", 0x3400_0000, Form::Immediate),
    ("xori", 0x3800_0000, Form::Immediate),
    ("lui", 0x3c00_0000, Form::Upper),
    ("sync", 0x0000_000f, Form::Nothing),
    ("pref", 0xcc00_0000, Form::Access(3)),
    ("lb", 0x8000_0000, Form::Access(3)),
    ("lh", 0x8400_0000, Form::Access(2)),
    ("lwl", 0x8800_0000, Form::Access(3)),
    ("lw", 0x8c00_0000, Form::Access(0)),
    ("lbu", 0x9000_0000, Form::Access(3)),
    ("lhu", 0x9400_0000, Form::Access(2)),
    ("lwr", 0x9800_0000, Form::Access(3)),
    ("sb", 0xa000_0000, Form::Access(3)),
    ("sh", 0xa400_0000, Form::Access(2)),
    ("swl", 0xa800_0000, Form::Access(3)),
    ("sw", 0xac00_0000, Form::Access(0)),
    ("swr", 0xb800_0000, Form::Access(3)),
    ("ll", 0xc000_0000, Form::Access(0)),
    ("sc", 0xe000_0000, Form::Access(0)),
    ("j", 0x0800_0000, Form::Jump),
    ("jal", 0x0c00_0000, Form::Jump),
    ("jr", 0x0000_0008, Form::JumpRegister),
    ("jalr", 0x0000_0009, Form::CallRegister),
    ("beq", 0x1000_0000, Form::Branch),
    ("bne", 0x1400_0000, Form::Branch),
    ("beql", 0x5000_0000, Form::Branch),
    ("bnel", 0x5400_0000, Form::Branch),
    ("blez", 0x1800_0000, Form::BranchOne),
    ("bgtz", 0x1c00_0000, Form::BranchOne),
    ("blezl", 0x5800_0000, Form::BranchOne),
    ("bgtzl", 0x5c00_0000, Form::BranchOne),
    ("bltz", 0x0400_0000, Form::BranchOne),
    ("bgez", 0x0401_0000, Form::BranchOne),
    ("bltzl", 0x0402_0000, Form::BranchOne),
    ("bgezl", 0x0403_0000, Form::BranchOne),
    ("bltzal", 0x0410_0000, Form::BranchOne),
    ("bgezal", 0x0411_0000, Form::BranchOne),
    ("bltzall", 0x0412_0000, Form::BranchOne),
    ("bgezall", 0x0413_0000, Form::BranchOne),
    ("tge", 0x0000_0030, Form::Trap),
    ("tgeu", 0x0000_0031, Form::Trap),
    ("tlt", 0x0000_0032, Form::Trap),
    ("tltu", 0x0000_0033, Form::Trap),
    ("teq", 0x0000_0034, Form::Trap),
    ("tne", 0x0000_0036, Form::Trap),
    ("tgei", 0x0408_0000, Form::TrapImmediate),
    ("tgeiu", 0x0409_0000, Form::TrapImmediate),
    ("tlti", 0x040a_0000, Form::TrapImmediate),
    ("tltiu", 0x040b_0000, Form::TrapImmediate),
    ("teqi", 0x040c_0000, Form::TrapImmediate),
    ("tnei", 0x040e_0000, Form::TrapImmediate),
    ("syscall", 0x0000_000c, Form::Call),
    ("break", 0x0000_000d, Form::Call),
];

impl Form {
    /// Whether it is a branch or a jump, which has a delay slot.
    pub fn has_slot(self) -> bool {
        matches!(
            self,
            Form::Jump | Form::JumpRegister | Form::CallRegister | Form::Branch | Form::BranchOne
        )
    }

    /// Whether it mostly ends its task.
    pub fn is_rare(self) -> bool {
        matches!(self, Form::Trap | Form::TrapImmediate | Form::Call)
    }
}

/// How many keys there are.
pub const KEYS: usize = 224;

/// The key of a word: the field that names its instruction, apart for each opcode that has such a field.
pub fn key_of(word: u32) -> usize
    ensures { result < 224 }
{
    let key = match word >> 26 {
        0x00 => word % 64,
        0x01 => 64 + (word >> 16) % 32,
        0x1c => 96 + word % 64,
        opcode => 160 + opcode % 64,
    };
    key as usize
}
