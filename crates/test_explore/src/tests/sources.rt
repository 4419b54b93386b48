//! Programs whose schedules are searched.

/// Two tasks on two processors run `main`, with the arguments 0 and 1.
pub const TWO: &str = "BOARD(2, 0x10000);
    CRE_SEM(1, {TA_TFIFO, 1, 1}); CRE_SEM(2, {TA_TFIFO, 1, 1});
    CRE_TSK(1, {TA_ACT, 0, main, 1, 256, NULL});
    CLASS(TCL_2) { CRE_TSK(2, {TA_ACT, 1, main, 1, 256, NULL}); }";

/// Two tasks on two processors run `main` and `second`.
pub const APART: &str = "BOARD(2, 0x10000);
    CRE_SEM(1, {TA_TFIFO, 1, 1}); CRE_SEM(2, {TA_TFIFO, 1, 1});
    CRE_TSK(1, {TA_ACT, 0, main, 1, 256, NULL});
    CLASS(TCL_2) { CRE_TSK(2, {TA_ACT, 1, second, 1, 256, NULL}); }";

/// The same, and lines 3 and 31 have a handler.
pub const HANDLED: &str = "BOARD(2, 0x10000);
    CRE_SEM(1, {TA_TFIFO, 1, 1}); CRE_SEM(2, {TA_TFIFO, 1, 1});
    DEF_INH(3, {TA_HLNG, main}); DEF_INH(31, {TA_HLNG, main});
    CRE_TSK(1, {TA_ACT, 0, main, 1, 256, NULL});
    CLASS(TCL_2) { CRE_TSK(2, {TA_ACT, 1, main, 1, 256, NULL}); }";

/// A task, and a cyclic handler that is due at the first tick.
pub const STARTED: &str = "PROFILE(STANDARD); BOARD(1, 0x10000);
    CRE_TSK(1, {TA_ACT, 0, main, 1, 256, NULL});
    CRE_CYC(1, {TA_HLNG | TA_STA, 0, sample, 1, 0});";

/// The same, and the handler is stopped.
pub const STOPPED: &str = "PROFILE(STANDARD); BOARD(1, 0x10000);
    CRE_TSK(1, {TA_ACT, 0, main, 1, 256, NULL});
    CRE_CYC(1, {TA_HLNG, 0, sample, 1, 0});";

/// A task, and a handler of line 3.
pub const LINED: &str = "BOARD(1, 0x10000);
    CRE_TSK(1, {TA_ACT, 0, main, 1, 256, NULL});
    DEF_INH(3, {TA_ASM, handle});";

/// Both the task and the handler add 1 to the word at 0x80000000.
pub const INTERRUPTED: &str = "count: .word 0, 0, 0, 0
main:   lui   $s0, %hi(count)
        lw    $t0, %lo(count)($s0)
        addiu $t0, $t0, 1
        sw    $t0, %lo(count)($s0)
        addiu $v0, $0, 3
        syscall
handle: lui   $s0, %hi(count)
        lw    $t0, %lo(count)($s0)
        addiu $t0, $t0, 1
        sw    $t0, %lo(count)($s0)
        addiu $v0, $0, 58
        syscall
";

/// The task sleeps, and the handler stores 2 into the word at 0x8000000c.
pub const SAMPLED: &str = "words: .word 0, 0, 0, 0
main:   addiu $v0, $0, 16
        syscall
sample: lui   $s0, %hi(words)
        addiu $t0, $0, 2
        sw    $t0, 12($s0)
        addiu $v0, $0, 58
        syscall
";

/// It goes on for ever.
pub const LOOP: &str = "main: b main
        nop
";

/// Each adds 1 to the word at 0x80000000, and ends.
pub const LOST_UPDATE: &str = "count: .word 0, 0, 0, 0
main:   lui   $s0, %hi(count)
        addiu $s1, $0, 1
again:  lw    $t0, %lo(count)($s0)
        addiu $t0, $t0, 1
        sw    $t0, %lo(count)($s0)
        addiu $s1, $s1, -1
        bnez  $s1, again
        nop
        addiu $v0, $0, 3
        syscall
";

/// The same by LL and SC.
pub const REPAIRED: &str = "count: .word 0, 0, 0, 0
main:   lui   $s0, %hi(count)
        addiu $s1, $0, 1
again:  ll    $t0, %lo(count)($s0)
        addiu $t0, $t0, 1
        sc    $t0, %lo(count)($s0)
        beqz  $t0, again
        nop
        addiu $s1, $s1, -1
        bnez  $s1, again
        nop
        addiu $v0, $0, 3
        syscall
";

/// Ten times each adds numbers to sixteen words of its own, and then takes a lock and adds 1 to the word at 0x80000000:
/// some 1,100 instructions in all.
pub const LONG: &str = "count: .word 0, 0, 0, 0
lock:   .word 0, 0, 0, 0
words:  .space 512
main:   lui   $s0, %hi(count)
        sll   $s1, $a0, 8
        addu  $s1, $s1, $s0
        addiu $s1, $s1, %lo(words)
        addiu $s3, $0, 10
round:  addiu $t3, $0, 16
        move  $t4, $s1
fill:   lw    $t5, 0($t4)
        addu  $t5, $t5, $t3
        sw    $t5, 0($t4)
        addiu $t3, $t3, -1
        bnez  $t3, fill
        addiu $t4, $t4, 4
take:   ll    $t1, %lo(lock)($s0)
        bnez  $t1, take
        addiu $t0, $0, 1
        sc    $t0, %lo(lock)($s0)
        beqz  $t0, take
        nop
        lw    $t0, %lo(count)($s0)
        addiu $t0, $t0, 1
        sw    $t0, %lo(count)($s0)
        sw    $0, %lo(lock)($s0)
        addiu $s3, $s3, -1
        bnez  $s3, round
        nop
        addiu $v0, $0, 3
        syscall
";

/// They take two semaphores in two orders.
pub const DEADLOCK: &str = "main: addiu $a0, $0, 1
        addiu $v0, $0, 25
        syscall
        addiu $a0, $0, 2
        addiu $v0, $0, 25
        syscall
        b     end
        nop
second: addiu $a0, $0, 2
        addiu $v0, $0, 25
        syscall
        addiu $a0, $0, 1
        addiu $v0, $0, 25
        syscall
end:    addiu $v0, $0, 24
        addiu $a0, $0, 1
        syscall
        addiu $a0, $0, 2
        addiu $v0, $0, 24
        syscall
        addiu $v0, $0, 3
        syscall
";

/// Peterson's lock, in which the turn is given before the flag is set. The word at 0x8000000c counts who is inside.
pub const PETERSON_SWAPPED: &str = "flags: .word 0, 0, 0, 0
main:   lui   $s0, %hi(flags)
        sll   $s1, $a0, 2
        addu  $s1, $s0, $s1
        xori  $t2, $a0, 1
        sll   $s2, $t2, 2
        addu  $s2, $s0, $s2
        addiu $t0, $0, 1
        sw    $t2, 8($s0)
        sw    $t0, 0($s1)
wait:   lw    $t1, 0($s2)
        beqz  $t1, inside
        nop
        lw    $t1, 8($s0)
        beq   $t1, $t2, wait
        nop
inside: lw    $t0, 12($s0)
        addiu $t0, $t0, 1
        sw    $t0, 12($s0)
        addiu $t0, $t0, -1
        sw    $t0, 12($s0)
        sw    $0, 0($s1)
        addiu $v0, $0, 3
        syscall
";

/// The same in the right order.
pub const PETERSON: &str = "flags: .word 0, 0, 0, 0
main:   lui   $s0, %hi(flags)
        sll   $s1, $a0, 2
        addu  $s1, $s0, $s1
        xori  $t2, $a0, 1
        sll   $s2, $t2, 2
        addu  $s2, $s0, $s2
        addiu $t0, $0, 1
        sw    $t0, 0($s1)
        sw    $t2, 8($s0)
wait:   lw    $t1, 0($s2)
        beqz  $t1, inside
        nop
        lw    $t1, 8($s0)
        beq   $t1, $t2, wait
        nop
inside: lw    $t0, 12($s0)
        addiu $t0, $t0, 1
        sw    $t0, 12($s0)
        addiu $t0, $t0, -1
        sw    $t0, 12($s0)
        sw    $0, 0($s1)
        addiu $v0, $0, 3
        syscall
";
