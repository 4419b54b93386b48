//! The writer.

ghost use Rattle.std.specs.Prelude.{◌≡◌, ℕ, ◌+◌, ◌*◌, ◌^◌, ◌<◌, ◌≤◌, ◌++◌, length, IfOk, Ok};
ghost use Rattle.std.specs.List.{AllByRecursion};
ghost use Rattle.brd_mem.specs.Image.{IsPlain};
ghost use Rattle.brd_elf.specs.File.{program_headers_from, data_of, body_of, symbols_at, strings_at, names_at};
ghost use Rattle.brd_elf.specs.File.{sections_at, symbol_table, strings, file, Fits, HasWords};
ghost use Rattle.brd_elf.specs.Meaning.{meaning};

use crate::parts::{
    HEADER_LEN, lay_out_segments, lay_out_symbols, put_header, put_section_headers,
    put_section_names,
};
use brd_base::NoMemory;
use brd_mem::{Image, Segment};
use brd_word::Order;
use std::alloc::Global;

/// What lies between the header and the section headers of a file, and where its parts lie in the file.
#[derive(Drop)]
struct Body {
    bytes: Vec<u8>,
    symbols_at: usize,
    symbols_size: usize,
    strings_at: usize,
    strings_size: usize,
    names_at: usize,
}

/// The file of a plain image. If the image fits (`fits`), the file means the image again.
pub fn write(alloc: Global, image: &Image) -> Result<Vec<u8>, NoMemory>
    requires { IsPlain image.now }
    ensures is { IfOk result (λ bytes. bytes.items ≡ file image.now) }
    ensures again { IfOk result (λ bytes. Fits image.now → meaning bytes.items ≡ Ok image.now) }
{
    file_of(alloc, image)
}

/// The file, of an image whose numbers are words.
#[tactic(auto, unfolding(crate::specs::File::file))]
fn file_of(alloc: Global, image: &Image) -> Result<Vec<u8>, NoMemory>
    requires { IsPlain image.now }
    ensures is { IfOk result (λ bytes. bytes.items ≡ file image.now) }
    ensures words { IfOk result (λ _. HasWords image.now) }
{
    let segments = image.segments.as_slice();
    let body = body_of(alloc, image)?;
    let programs_at = if segments.is_empty() { 0 } else { HEADER_LEN };
    let sections_at = HEADER_LEN + body.bytes.len();
    let mut out = Vec::new(alloc);
    put_header(
        &mut out,
        image.order,
        image.entry,
        programs_at,
        sections_at,
        segments.len(),
    )?;
    out.extend_from_slice(&body.bytes)?;
    put_section_headers(
        &mut out,
        image.order,
        body.symbols_at,
        body.symbols_size,
        body.strings_at,
        body.strings_size,
        body.names_at,
    )?;
    Ok(out)
}

/// The program headers of segments, and after them the bytes of the segments.
fn with_data(alloc: Global, order: Order, segments: &[Segment]) -> Result<Vec<u8>, NoMemory>
    requires { length segments.now ≤ 2 ^ 24 }
    ensures { IfOk result (λ bytes. bytes.items
        ≡ program_headers_from order (52 + 32 * length segments.now) segments.now ++ data_of segments.now) }
{
    let (mut bytes, data) = lay_out_segments(alloc, order, segments)?;
    bytes.extend_from_slice(&data)?;
    Ok(bytes)
}

/// What lies between the header and the section headers.
fn body_of(alloc: Global, image: &Image) -> Result<Body, NoMemory>
    requires { IsPlain image.now }
    ensures bytes { IfOk result (λ body. body.bytes.items ≡ body_of image.now) }
    ensures symbols_at { IfOk result (λ body. body.symbols_at ≡ symbols_at image.now) }
    ensures symbols_size { IfOk result
        (λ body. body.symbols_size ≡ length (symbol_table image.now.order image.now.symbols)) }
    ensures strings_at { IfOk result (λ body. body.strings_at ≡ strings_at image.now) }
    ensures strings_size { IfOk result (λ body. body.strings_size ≡ length (strings image.now.symbols)) }
    ensures names_at { IfOk result (λ body. body.names_at ≡ names_at image.now) }
    ensures sections_at { IfOk result (λ body. 52 + length body.bytes.items ≡ sections_at image.now) }
    ensures words { IfOk result (λ _. AllByRecursion (λ symbol. symbol.value < 2 ^ 32) image.now.symbols) }
{
    let mut bytes = with_data(alloc, image.order, image.segments.as_slice())?;
    let (table, strings) = lay_out_symbols(alloc, image.order, image.symbols.as_slice())?;
    let symbols_at = HEADER_LEN + bytes.len();
    bytes.extend_from_slice(&table)?;
    let strings_at = HEADER_LEN + bytes.len();
    bytes.extend_from_slice(&strings)?;
    let names_at = HEADER_LEN + bytes.len();
    put_section_names(&mut bytes, &strings)?;
    Ok(Body {
        bytes,
        symbols_at,
        symbols_size: table.len(),
        strings_at,
        strings_size: strings.len(),
        names_at,
    })
}
