//! What is kept of a RAM over another one, and had again from that.

ghost use Rattle.std.specs.Prelude.{◌≡◌, ◌+◌, ◌*◌, ◌^◌, ◌<◌, ◌≤◌, ◌++◌, Decides, OnOk, IfOk};
ghost use Rattle.brd_mem.specs.Memory.{size_of, with_bytes};
ghost use Rattle.brd_mem.specs.Pages.{page_size, page_of, with_pages, differing_at, differing, LieWithin};

use super::Ram;
use crate::pages::{PAGE_SIZE, Page, Pages, SharedPage};
use brd_base::NoMemory;

impl Ram {
    /// The pages in which it differs from a RAM of its size and order, as `pages` gives them. One that stands among
    /// earlier pages too, which are by ascending number, is shared with them, and takes no memory.
    pub fn pages_after(&self, base: &Ram, earlier: &Pages) -> Result<Pages, NoMemory>
        requires sizes { size_of self.now ≡ size_of base.now }
        requires orders { self.now.order ≡ base.now.order }
        ensures is { IfOk result (λ pages. pages ≡ differing base.now self.now) }
        ensures within { IfOk result (LieWithin (size_of base.now)) }
        ensures back { IfOk result (λ pages. with_pages base.now pages ≡ self.now) }
    {
        let mut pages = Pages::new(*self.bytes.allocator());
        let mut rest = earlier.as_slice();
        for number in 0..self.bytes.len() / PAGE_SIZE {
            rest = from_number(rest, number);
            self.note_page(number, base, rest, &mut pages)?;
        }
        Ok(pages)
    }

    /// Puts a page at the end of these, unless the base has the same bytes there. It is shared with the first of the
    /// earlier ones, where that is equal.
    fn note_page(
        &self,
        number: usize,
        base: &Ram,
        earlier: &[SharedPage],
        pages: &mut Pages,
    ) -> Result<(), NoMemory>
        requires sizes { size_of self.now ≡ size_of base.now }
        requires within { number * page_size + page_size ≤ size_of self.now }
        requires few { number < 2 ^ 12 }
        ensures { OnOk result (pages.new ≡ pages.old ++ differing_at number base.now self.now) }
    {
        if !self.has_alike(number, base) {
            pages.push(self.shared_page(number, earlier)?)?;
        }
        Ok(())
    }

    /// A page, shared with the first of these, where that is equal.
    fn shared_page(&self, number: usize, earlier: &[SharedPage]) -> Result<SharedPage, NoMemory>
        requires within { number * page_size + page_size ≤ size_of self.now }
        requires few { number < 2 ^ 12 }
        ensures { IfOk result (λ shared. shared ≡ page_of self.now number) }
    {
        if let Some(first) = earlier.first() {
            if self.has_page(first.page(), number) {
                return first.share();
            }
        }
        SharedPage::new(
            *self.bytes.allocator(),
            Page {
                number: number as u16,
                bytes: self.bytes_at(number * PAGE_SIZE),
            },
        )
    }

    /// Whether this is its page of a number.
    fn has_page(&self, page: &Page, number: usize) -> bool
        requires { number * page_size + page_size ≤ size_of self.now }
        ensures { Decides result (page.now ≡ page_of self.now number) }
    {
        page.number as usize == number && page.bytes.as_slice() == self.page(number)
    }

    /// Becomes equal to a RAM of its size and order. Only pages of which one of both has a mark are written.
    pub fn copy_from(&mut self, other: &Ram)
        requires sizes { size_of self.old ≡ size_of other.now }
        requires orders { self.old.order ≡ other.now.order }
        ensures { self.new ≡ other.now }
    {
        for number in 0..self.bytes.len() / PAGE_SIZE {
            self.copy_page(number, other);
        }
    }

    /// Takes a page over from a RAM of its size. Where neither has a mark, both have zeros.
    fn copy_page(&mut self, number: usize, other: &Ram)
        requires sizes { size_of self.old ≡ size_of other.now }
        requires within { number * page_size + page_size ≤ size_of self.old }
        ensures is { self.new ≡ with_bytes self.old (number * page_size) (page_of other.now number).bytes }
        ensures same_size { size_of self.new ≡ size_of self.old }
    {
        if self.marks[number] || other.marks[number] {
            self.put_in_page(number * PAGE_SIZE, other.page(number));
        }
    }
}

/// What is left of pages without the first one, if that has a lower number.
fn from_number(pages: &[SharedPage], number: usize) -> &[SharedPage] {
    match pages.first() {
        Some(first) if (first.page().number as usize) < number => &pages[1..],
        _ => pages,
    }
}
