// Output that is gathered in fixed memory: an answer then takes one write, and not one for each number.
use arrayvec::ArrayVec;
use std::io::{Result, Write};

const ROOM: usize = 512;

#[derive(Drop)]
pub struct Gathered<W: Write + Drop> {
    pub to: W,
    pub bytes: ArrayVec<u8, ROOM>,
}

impl<W: Write + Drop> Gathered<W> {
    ghost use Rattle.std.specs.Prelude.{◌≡◌, []};

    // Nothing is gathered yet.
    pub fn new(to: W) -> Self
        ensures to { result.to ≡ to }
        ensures empty { result.bytes.items ≡ [] }
    {
        Gathered {
            to,
            bytes: ArrayVec::new(),
        }
    }
}

impl<W: Write + Drop> Write for Gathered<W> {
    ghost use Rattle.std.specs.Prelude.{◌≡◌, ◌<◌, [], IfOk, OnOk, length, take};
    ghost use Rattle.std.specs.Io.{WritesAtMost};
    ghost use Rattle.std.specs.Io.KnownBytes.{Appends, Keeps};
    ghost use Rattle.pieces.specs.Gathered.{handed};

    // As many bytes as there is room for. Where there is none, what is gathered is written first.
    fn write(&mut self, bytes: &[u8]) -> Result<usize>
        ensures bound { WritesAtMost result bytes.now }
        ensures some { IfOk result (λ n. 0 < length bytes.now → 0 < n) }
        ensures added { IfOk result (λ n. Appends (handed W.contents self.old) (handed W.contents self.new) (take n bytes.now)) }
    {
        if self.bytes.is_full() {
            self.flush()?;
        }
        self.bytes.write(bytes)
    }

    // All that is gathered is written.
    fn flush(&mut self) -> Result<()>
        ensures kept { OnOk result (Keeps (handed W.contents self.old) (handed W.contents self.new)) }
        ensures none { OnOk result (self.new.bytes.items ≡ []) }
    {
        self.to.write_all(self.bytes.as_slice())?;
        self.bytes.clear();
        Ok(())
    }
}
