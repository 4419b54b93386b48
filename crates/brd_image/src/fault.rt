//! Why there is no board.

ghost use Rattle.std.specs.Prelude.{◌≡◌};
ghost use Rattle.brd_image.specs.Faults.{of_asm, of_elf, of_config, of_boot};
ghost use Rattle.brd_image.specs.declared.fault.BuildFault.TheVariants.{NoMemory as no_memory};

use brd_asm::AsmFault;
use brd_base::NoMemory;
use brd_board::BootFault;
use brd_config::ConfigFault;
use brd_elf::ElfFault;
use thiserror::Error;

/// Why there is no board: memory ran out, or a fault of the text in which it stands. That memory ran out stands in no
/// other fault.
#[derive(Clone, Copy, Debug, PartialEq, Eq, Error)]
pub enum BuildFault {
    /// A growth was refused.
    #[error("out of memory")]
    NoMemory,
    /// The assembler source has a fault.
    #[error("the source: {0}")]
    Asm(AsmFault),
    /// The object file has a fault.
    #[error("the object file: {0}")]
    Elf(ElfFault),
    /// The configuration has a fault.
    #[error("the configuration: {0}")]
    Config(ConfigFault),
    /// The board doesn't start: the configuration asks for what the image or RAM doesn't have.
    #[error("the boot: {0}")]
    Boot(BootFault),
}

impl From<NoMemory> for BuildFault {
    ghost from_gives = { λ _ fault. fault ≡ no_memory };

    fn from(_refused: NoMemory) -> Self {
        BuildFault::NoMemory
    }
}

impl From<AsmFault> for BuildFault {
    ghost from_gives = { λ of fault. fault ≡ of_asm of };

    fn from(fault: AsmFault) -> Self {
        if matches!(fault, AsmFault::NoMemory) {
            return BuildFault::NoMemory;
        }
        BuildFault::Asm(fault)
    }
}

impl From<ElfFault> for BuildFault {
    ghost from_gives = { λ of fault. fault ≡ of_elf of };

    fn from(fault: ElfFault) -> Self {
        if matches!(fault, ElfFault::NoMemory) {
            return BuildFault::NoMemory;
        }
        BuildFault::Elf(fault)
    }
}

impl From<ConfigFault> for BuildFault {
    ghost from_gives = { λ of fault. fault ≡ of_config of };

    fn from(fault: ConfigFault) -> Self {
        if matches!(fault, ConfigFault::NoMemory) {
            return BuildFault::NoMemory;
        }
        BuildFault::Config(fault)
    }
}

impl From<BootFault> for BuildFault {
    ghost from_gives = { λ of fault. fault ≡ of_boot of };

    fn from(fault: BootFault) -> Self {
        if matches!(fault, BootFault::NoMemory) {
            return BuildFault::NoMemory;
        }
        BuildFault::Boot(fault)
    }
}
