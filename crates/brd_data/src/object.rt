//! The object file into which data goes.

ghost use Rattle.std.specs.Prelude.{◌≡◌, IfOk};
ghost use Rattle.brd_data.specs.Object.{IsNamed, IsObjectOf, IsObjectRead};

use crate::fault::DataFault;
use brd_command::Request;
use brd_inputs::{CommandFault, Files, InputName, is_object_file, read_whole};
use brd_running::{object_file, with_others};
use std::alloc::Global;

/// The file of a request that is an object file, or a source to be tried.
#[derive(Clone, Copy)]
pub(crate) struct Named<'a> {
    /// Its name.
    pub(crate) name: &'a str,
    /// Whether it may be a source.
    pub(crate) is_tried: bool,
}

/// The file of a request into which data goes; None where it has none.
pub(crate) fn file_of(request: Request<'_>) -> Option<Named<'_>>
    ensures { IsNamed request.entry result }
{
    match request {
        Request::Run { image, .. }
        | Request::Race { image, .. }
        | Request::Debug { image, .. }
        | Request::Gdb { image, .. }
        | Request::Trace { image, .. }
        | Request::Explore { image, .. }
        | Request::Shrink { image, .. } => Some(Named {
            name: image,
            is_tried: false,
        }),
        Request::Try { source, .. } => Some(Named {
            name: source,
            is_tried: true,
        }),
        Request::Words { .. } | Request::Asm { .. } | Request::Journal { .. } => None,
    }
}

/// Opens and reads that file to its end. The object file of a source that is to be tried.
pub(crate) fn read_object<F: Files>(
    alloc: Global,
    files: &mut F,
    named: Named<'_>,
) -> Result<Vec<u8>, DataFault>
    ensures { IfOk result (λ object. IsObjectRead F.opened F.Input.remaining
        files.old named.entry.name.now named.entry.is_tried object.items files.new) }
{
    let mut reader = match files.open(named.name) {
        Ok(reader) => reader,
        Err(error) => {
            return Err(DataFault::Command(CommandFault::of_open(alloc, named.name, error)));
        }
    };
    let input = if named.is_tried {
        InputName::Source
    } else {
        InputName::Image
    };
    match read_whole(alloc, input, &mut reader) {
        Ok(text) => object_of(alloc, text, named.is_tried),
        Err(fault) => Err(DataFault::Command(fault)),
    }
}

/// What was read, or the object file of the source that was read.
fn object_of(alloc: Global, text: Vec<u8>, is_tried: bool) -> Result<Vec<u8>, DataFault>
    ensures { IfOk result (λ object. IsObjectOf is_tried text.items object.items) }
{
    if !is_tried || is_object_file(&text) {
        return Ok(text);
    }
    match object_file(alloc, &text) {
        Ok(object) => Ok(object),
        Err(fault) => Err(DataFault::Command(with_others(alloc, &text, fault))),
    }
}
