//! Configurations.

mod changed;
mod many;
mod profile;
mod values;

/// A text with a statement of every kind, comments of both forms, and numbers of both.
const EVERY: &str = "/* every kind of statement */
BOARD(2, 0x40000);  // processors, RAM
CRE_TSK(1, {TA_HLNG | TA_ACT, 0, main_task, 2, 256, NULL});
CRE_SEM(1, {TA_TPRI, 1, 0x10});
CLASS(TCL_2) {
    CRE_TSK(2, {TA_ASM, exinf_2, 0x80000100, 16, 0x200, 0x80030000});
    CRE_TSK(255, {0, .start, _loop$1, 1, 1, stack_area});
    DEF_INH(31, {TA_HLNG, on_timer});
}
CRE_FLG(3, {TA_WMUL | TA_CLR | 1, 0xFFFFFFFF});
CRE_DTQ(4, {TA_TFIFO, 256, NULL});
CRE_DTQ(5, {1, 0, 0x80020000});
CRE_SPN(255, {TA_NULL});
CRE_SPN(6, {0});
DEF_INH(0, {TA_ASM, 0x80000200});
";
