// The commands of the input.
ghost use Rattle.std.specs.Prelude.{IfOk, IfSome, IsTrue, slice_index};
ghost use Rattle.std.specs.Io.KnownBytes.{Consumes};
ghost use Rattle.pieces.specs.Commands.{Names};

use std::io::{ErrorKind, Read, Result};

// A command's letter and length.
const HEAD: usize = 5;

// A piece has at most so many bytes. (sefcheck has a number of its own: no library says what a program reads at once.)
pub const LARGEST: usize = 65536;

#[derive(Clone, Copy)]
pub enum Command<'a> {
    NewFile,
    Piece(&'a [u8]),
    Finish,
    Report,
    ReportWithoutRoom,
    // an unknown letter, or a piece that is too long or cut off by the input's end
    Nothing,
}

// Whether the input had as many bytes left as fill this.
fn fill<R: Read>(from: &mut R, bytes: &mut [u8]) -> Result<bool>
    ensures { IfOk result (λ filled. IsTrue filled → Consumes (R.remaining from.old) (R.remaining from.new) bytes.new) }
{
    match from.read_exact(bytes) {
        Ok(()) => Ok(true),
        Err(e) if e.kind() == ErrorKind::UnexpectedEof => Ok(false),
        Err(e) => Err(e),
    }
}

// The piece's bytes, read to the block's start.
fn read_piece<'a, R: Read>(
    from: &mut R,
    block: &'a mut [u8],
    length: u32,
) -> Result<Option<&'a [u8]>> {
    let Some(piece) = block.get_mut(..length as usize) else {
        return Ok(None);
    };
    Ok(fill(from, piece)?.then_some(piece))
}

// The next command, a piece's bytes in the block; none at the input's end.
pub fn next_command<'a, R: Read>(from: &mut R, block: &'a mut [u8]) -> Result<Option<Command<'a>>>
    ensures { IfOk result (λ next. IfSome next (λ command. IfSome (R.remaining from.old) (λ bytes. Names (slice_index bytes 0) command))) }
{
    let mut head = [0u8; HEAD];
    if !fill(from, &mut head)? {
        return Ok(None);
    }
    let [letter, a, b, c, d] = head;
    let length = u32::from_le_bytes([a, b, c, d]);
    Ok(Some(match letter {
        b'N' => Command::NewFile,
        b'P' => match read_piece(from, block, length)? {
            Some(piece) => Command::Piece(piece),
            None => Command::Nothing,
        },
        b'F' => Command::Finish,
        b'C' => Command::Report,
        b'S' => Command::ReportWithoutRoom,
        _ => Command::Nothing,
    }))
}
