//! A source of every mnemonic, one-word form and directive, with its words and names. The words were worked out from
//! MD00086's tables of codes; tests/asm_binutils.sh compares the same source, which it takes from here, with what GNU
//! as makes of it.

pub const SOURCE: &str = "\
# Every mnemonic, shorthand and directive.\n\
.set noreorder\n\
.set noat\n\
.Set nomacro\n\
.globl _start\n\
.equ small, 5\n\
.EQU minus, -6\n\
first: sll $t0, $t1, 3\n\
srl $2, $3, 31\n\
sra $v0, $v1, small\n\
sllv $a0, $a1, $a2\n\
srlv $a3, $t0, $t1\n\
srav $t2, $t3, $t4\n\
jr $ra\n\
jalr $t5, $t6\n\
jalr $t7\n\
movz $s0, $s1, $s2\n\
movn $s3, $s4, $s5\n\
syscall\n\
syscall 0x12345\n\
break\n\
break 5\n\
sync\n\
mfhi $s6\n\
mflo $s7\n\
mthi $t8\n\
mtlo $t9\n\
mult $k0, $k1\n\
multu $gp, $sp\n\
div $fp, $ra\n\
divu $s8, $at\n\
add $1, $2, $3\n\
addu $4, $5, $6\n\
sub $7, $8, $9\n\
subu $10, $11, $12\n\
and $13, $14, $15\n\
or $16, $17, $18\n\
xor $19, $20, $21\n\
nor $22, $23, $24\n\
slt $25, $26, $27\n\
sltu $28, $29, $30\n\
tge $t0, $t1\n\
tgeu $t0, $t1, 1023\n\
tlt $t0, $t1, small\n\
tltu $t0, $t1, 0\n\
teq $t0, $t1, 0x3ff\n\
tne $t0, $zero, 1\n\
bltz $t0, first\n\
bgez $t0, ahead\n\
bltzl $t0, first\n\
bgezl $t0, ahead\n\
bltzal $t0, first\n\
bgezal $t0, ahead\n\
bltzall $t0, first\n\
bgezall $t0, ahead\n\
tgei $t0, -32768\n\
tgeiu $t0, 32767\n\
tlti $t0, minus\n\
tltiu $t0, -1\n\
teqi $t0, 0\n\
tnei $t0, small\n\
madd $t0, $t1\n\
maddu $t0, $t1\n\
msub $t0, $t1\n\
msubu $t0, $t1\n\
mul $t0, $t1, $t2\n\
clz $t0, $t1\n\
clo $t0, $t1\n\
j ahead\n\
jal first\n\
beq $t0, $t1, ahead\n\
bne $t0, $t1, first\n\
beql $t0, $t1, ahead\n\
bnel $t0, $t1, first\n\
blez $t0, ahead\n\
bgtz $t0, first\n\
blezl $t0, ahead\n\
bgtzl $t0, first\n\
ahead: addi $t0, $t1, -32768\n\
addiu $t0, $t1, 32766\n\
slti $t0, $t1, minus\n\
sltiu $t0, $t1, -1\n\
andi $t0, $t1, 65535\n\
ori $t0, $t1, 0x8000\n\
xori $t0, $t1, 0\n\
lui $t0, %hi(data)\n\
addiu $t0, $t0, %lo(data)\n\
lui $t1, %hi(data+0x9000)\n\
ori $t1, $t1, %lo(data+4)\n\
lb $t0, -1($t1)\n\
lh $t0, ($t1)\n\
lwl $t0, 32767($t1)\n\
lw $t0, %lo(data)($t1)\n\
lbu $t0, -32768($t1)\n\
lhu $t0, 2($t1)\n\
lwr $t0, 3($t1)\n\
sb $t0, 4($t1)\n\
sh $t0, 6($t1)\n\
swl $t0, 8($t1)\n\
sw $t0, %lo(data+4)($t1)\n\
swr $t0, 11($t1)\n\
ll $t0, 12($t1)\n\
sc $t0, 12($t1)\n\
pref 31, -4($t1)\n\
nop\n\
move $t0, $t1\n\
b ahead\n\
beqz $t0, ahead\n\
bnez $t0, first\n\
bal ahead\n\
nop\n\
here: b here\n\
bnez $t1, here+4\n\
syscall 0xfffff\n\
addiu $s8, $k1, -1\n\
ori $zero, $at, 0xFFFF\n\
lui $gp, %hi(here + 0x8000)\n\
addiu $gp, $gp, %lo(here+0x8000)\n\
lui $2, 7\n\
addiu $gp, $gp, %lo(-1)\n\
ori $v0, $v1, %lo(-1)\n\
J here\n\
j 0x8000001c\n\
bgtz $1, 0x80000124\n\
ADDU $a0, $s7, $t9\n\
lw $sp, -0x10($fp) // a comment\n\
data: .word 7, -1, data, data+4, 0xffffffff\n\
.WORD 4294967295, here\n\
.word later-1\n\
.half 1, -2, 65535, small, 0xffff, -32768\n\
.byte 1, -1, 255, minus, -128, 0\n\
.ascii \"ab\\n\\t\\\\\\\"\" # text\n\
.asciiz \"end\"\n\
.asciiz \"\\\"\\\\\\t\\0\"\n\
.align 3\n\
.space 5\n\
.byte 9\n\
.align 2\n\
later: .equ value, 5\n\
value2:another: .space 4 // zeros\n\
.org 0x80000800\n\
.globl here\n\
_start:\n\
.word value, _start\n";

/// Where in `WORDS` the halfwords begin, and the bytes after them; before them there are words.
pub const HALVES_AT: usize = 127;

pub const BYTES_AT: usize = 130;

/// What stands from 0x80000000 on.
pub const WORDS: [u32; 139] = [
    0x000940c0, 0x000317c2, 0x00031143, 0x00c52004, 0x01283806, 0x018b5007, 0x03e00008, 0x01c06809,
    0x01e0f809, 0x0232800a, 0x0295980b, 0x0000000c, 0x0048d14c, 0x0000000d, 0x0000014d, 0x0000000f,
    0x0000b010, 0x0000b812, 0x03000011, 0x03200013, 0x035b0018, 0x039d0019, 0x03df001a, 0x03c1001b,
    0x00430820, 0x00a62021, 0x01093822, 0x016c5023, 0x01cf6824, 0x02328025, 0x02959826, 0x02f8b027,
    0x035bc82a, 0x03bee02b, 0x01090030, 0x0109fff1, 0x01090172, 0x01090033, 0x0109fff4, 0x01000076,
    0x0500ffd7, 0x0501001d, 0x0502ffd5, 0x0503001b, 0x0510ffd3, 0x05110019, 0x0512ffd1, 0x05130017,
    0x05088000, 0x05097fff, 0x050afffa, 0x050bffff, 0x050c0000, 0x050e0005, 0x71090000, 0x71090001,
    0x71090004, 0x71090005, 0x712a4002, 0x71284020, 0x71284021, 0x08000047, 0x0c000000, 0x11090007,
    0x1509ffbf, 0x51090005, 0x5509ffbd, 0x19000003, 0x1d00ffbb, 0x59000001, 0x5d00ffb9, 0x21288000,
    0x25287ffe, 0x2928fffa, 0x2d28ffff, 0x3128ffff, 0x35288000, 0x39280000, 0x3c088000, 0x250801dc,
    0x3c098001, 0x352901e0, 0x8128ffff, 0x85280000, 0x89287fff, 0x8d2801dc, 0x91288000, 0x95280002,
    0x99280003, 0xa1280004, 0xa5280006, 0xa9280008, 0xad2801e0, 0xb928000b, 0xc128000c, 0xe128000c,
    0xcd3ffffc, 0x00000000, 0x01204021, 0x1000ffe3, 0x1100ffe2, 0x1500ff9a, 0x0411ffe0, 0x00000000,
    0x1000ffff, 0x1520ffff, 0x03ffffcc, 0x277effff, 0x3420ffff, 0x3c1c8001, 0x279c81a0, 0x3c020007,
    0x279cffff, 0x3462ffff, 0x08000068, 0x08000007, 0x1c20ffd4, 0x02f92021, 0x8fddfff0, 0x00000007,
    0xffffffff, 0x800001dc, 0x800001e0, 0xffffffff, 0xffffffff, 0x800001a0, 0x80000227, 0x0001fffe,
    0xffff0005, 0xffff8000, 0x01fffffa, 0x80006162, 0x0a095c22, 0x656e6400, 0x225c0900, 0x00000000,
    0x00000000, 0x00090000, 0x00000000,
];

/// What stands from 0x80000800 on.
pub const FAR: [u32; 2] = [0x0000_0005, 0x8000_0800];

/// The names in order of definition, as the tests show them.
pub const SYMBOLS: &str =
    " small=00000005 minus=fffffffa first=80000000 ahead=8000011c here=800001a0 data=800001dc later=80000228 value=00000005 value2=80000228 another=80000228 _start=80000800";
