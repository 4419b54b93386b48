//! Which line the code at an address stands for.

ghost use Rattle.std.specs.Prelude.{◌≡◌, ◌↔◌, ◌++◌, IsTrue, [], option_map, nat_le, IfOk, OnOk};
ghost use Rattle.std.specs.List.{prefix_len};
ghost use Rattle.brd_lines.specs.Lines.{
  AreApart,
  chosen,
  end_of,
  ends_by,
  file_at,
  name_of,
  place_at,
  seen,
  stretch_at,
};

use brd_base::NoMemory;
use brd_listing::write_name;
use std::alloc::Global;
use std::marker::Model;

/// Addresses whose code stands for one line.
#[derive(Clone, Copy, PartialEq, Eq, PartialOrd, Ord)]
pub struct Stretch {
    /// The first address.
    pub from: u32,
    /// The address after the last one.
    pub to: u32,
    /// The place of the file among the files.
    pub file: u32,
    /// The line, from 1 on.
    pub line: u32,
}

/// A line of a file.
#[derive(Clone, Copy)]
pub struct Place<'a> {
    /// The file's path, as the compiler was given it.
    pub file: &'a [u8],
    /// The line, from 1 on.
    pub line: u32,
}

/// The lines of an object file. Contracts see the paths of the files, and the stretches of addresses by ascending
/// address.
pub struct Lines {
    /// The paths of the files.
    files: Vec<Vec<u8>>,
    /// The stretches, none over another.
    stretches: Vec<Stretch>,
}

impl Model for Lines {
    ghost use Rattle.std.specs.Prelude.{map};
    ghost use Rattle.brd_lines.specs.Lines.{AreApart as Apart, LinesOf};

    ghost Value = { LinesOf };

    ghost view = { λ lines. record {
      files = map (λ file. file.items) lines.files.items;
      stretches = lines.stretches.items;
    } };

    ghost invariant = { λ lines. Apart 0 lines.stretches.items };
}

/// Written out, so that a function that lets one go is proved with a call, and not with the end of each part.
impl Drop for Lines {
    fn drop(self) {
        let Lines {
            files: _,
            stretches: _,
        } = self;
    }
}

impl<'a> Place<'a> {
    /// Puts at the end the name of the file, without the folders of its path, as `write_name` shows it.
    pub fn put_name(&self, alloc: Global, out: &mut Vec<u8>) -> Result<(), NoMemory>
        ensures { OnOk result (out.new.items ≡ out.old.items ++ name_of self.now.file.now) }
    {
        let mut name = Vec::new(alloc);
        for byte in self.file {
            if *byte == b'/' {
                name.clear();
            } else {
                name.push(*byte)?;
            }
        }
        write_name(&name, out)
    }
}

impl Lines {
    /// None.
    pub fn new(alloc: Global) -> Lines
        ensures { result ≡ record { files = []; stretches = [] } }
    {
        Lines {
            files: Vec::new(alloc),
            stretches: Vec::new(alloc),
        }
    }

    /// The lines of stretches of these files. Where some lie over another, the one that begins first keeps what it has.
    pub(crate) fn of(
        alloc: Global,
        files: Vec<Vec<u8>>,
        gathered: Vec<Stretch>,
    ) -> Result<Lines, NoMemory> {
        let mut gathered = gathered;
        gathered.sort()?;
        let stretches = apart(alloc, &gathered)?;
        Ok(Lines { files, stretches })
    }

    /// Whether there are none.
    pub fn is_empty(&self) -> bool
        ensures { IsTrue result ↔ (self.now.stretches ≡ []) }
    {
        self.stretches.is_empty()
    }

    /// The stretches, by ascending address, none over another.
    pub fn stretches(&self) -> &[Stretch]
        ensures is { result.now ≡ self.now.stretches }
        ensures apart { AreApart 0 result.now }
    {
        self.stretches.as_slice()
    }

    /// The paths of the files.
    pub fn files(&self) -> &[Vec<u8>] {
        self.files.as_slice()
    }

    /// The stretch in which an address lies. It is a search by halves.
    pub fn stretch_at(&self, address: u32) -> Option<Stretch>
        ensures { result ≡ stretch_at self.now.stretches address }
    {
        let stretches = self.stretches.as_slice();
        let place = place_in(stretches, address);
        if place >= stretches.len() {
            return None;
        }
        chosen(stretches[place], address)
    }

    /// The line of the code at an address.
    pub fn line_at(&self, address: u32) -> Option<Place<'_>>
        ensures { option_map seen result ≡ place_at self.now address }
    {
        let stretch = self.stretch_at(address)?;
        Some(Place {
            file: self.file(stretch.file),
            line: stretch.line,
        })
    }

    /// The path of the file at a place; nothing where there is none.
    pub fn file(&self, place: u32) -> &[u8]
        ensures { result.now ≡ file_at self.now.files place }
    {
        match self.files.get(place as usize) {
            Some(file) => file.as_slice(),
            None => &[],
        }
    }
}

/// How many stretches end at an address or below it.
fn place_in(stretches: &[Stretch], address: u32) -> usize
    requires { AreApart 0 stretches.now }
    ensures { result ≡ prefix_len (ends_by address) stretches.now }
{
    stretches.partition_point(
        |stretch: &Stretch| -> bool
            ensures { result ≡ nat_le stretch.now.to address }
        { stretch.to <= address },
    )
}

/// The stretch that was found, if it begins at an address or below it.
fn chosen(found: Stretch, address: u32) -> Option<Stretch>
    ensures { result ≡ chosen address found }
{
    if found.from <= address {
        return Some(found);
    }
    None
}

/// Stretches, sorted by where they begin, but for what lies over an earlier one; those of one line that touch are one.
fn apart(alloc: Global, sorted: &[Stretch]) -> Result<Vec<Stretch>, NoMemory>
    ensures { IfOk result (λ stretches. AreApart 0 stretches.items) }
{
    let mut stretches = Vec::new(alloc);
    let mut end = 0;
    for stretch in sorted {
        end = add(&mut stretches, end, *stretch)?;
    }
    Ok(stretches)
}

/// Adds what of a stretch lies behind those that are there, which end at `end`. Answers where they end then.
fn add(stretches: &mut Vec<Stretch>, end: u32, stretch: Stretch) -> Result<u32, NoMemory>
    requires apart { AreApart 0 stretches.old.items }
    requires ends { end_of 0 stretches.old.items ≡ end }
    ensures apart { OnOk result (AreApart 0 stretches.new.items) }
    ensures ends { IfOk result (λ end. end_of 0 stretches.new.items ≡ end) }
{
    let from = stretch.from.max(end);
    if stretch.to <= from {
        return Ok(end);
    }
    stretches.push(Stretch {
        from,
        to: stretch.to,
        file: stretch.file,
        line: stretch.line,
    })?;
    Ok(stretch.to)
}
