//! Pages of a RAM.

ghost use Rattle.std.specs.Prelude.{◌≡◌, IfOk};

use brd_base::{List, NoMemory};
use std::alloc::Global;
use std::marker::Model;
use std::sync::Arc;

/// How many bytes a page has (own choice).
pub const PAGE_SIZE: usize = 4_096;

/// A page of a RAM: 4,096 bytes, from a multiple of 4,096 on.
#[derive(Clone, Copy)]
pub struct Page {
    /// Which page it is, counted from 0 at the first byte of RAM.
    pub number: u16,
    /// Its bytes.
    pub bytes: [u8; PAGE_SIZE],
}

/// A page that several lists may have, and that lies in memory once. It can't be changed.
#[derive(Drop)]
pub struct SharedPage {
    page: Arc<Page, Global>,
}

impl Model for SharedPage {
    ghost use Rattle.std.specs.Arc.{arc_value};
    ghost use Rattle.brd_mem.specs.declared.pages.Page.{Page};

    ghost Value = { Page };

    ghost view = { λ shared. arc_value shared.page };
}

impl SharedPage {
    /// A page that nobody else has yet.
    pub fn new(alloc: Global, page: Page) -> Result<SharedPage, NoMemory>
        ensures { IfOk result (λ shared. shared ≡ page) }
    {
        match Arc::new(alloc, page) {
            Ok(page) => Ok(SharedPage { page }),
            Err(_) => Err(NoMemory),
        }
    }

    /// The same page once more. It takes no memory; a page can't be shared more often than there are numbers.
    pub fn share(&self) -> Result<SharedPage, NoMemory>
        ensures { IfOk result (λ shared. shared ≡ self.now) }
    {
        match Arc::try_clone(&self.page) {
            Ok(page) => Ok(SharedPage { page }),
            Err(_) => Err(NoMemory),
        }
    }

    /// The page.
    pub fn page(&self) -> &Page
        ensures { result.now ≡ self.now }
    {
        self.page.as_ref()
    }
}

/// A list of pages.
pub type Pages = List<SharedPage>;
