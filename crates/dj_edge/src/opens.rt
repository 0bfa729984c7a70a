//! Reading a file within a bound, over anything that opens files.
ghost use Rattle.std.specs.Prelude.{◌≡◌, Option};
ghost use Rattle.dj_edge.specs.Reads.{Contents, IsFileOpened, ReadsFile};

use crate::files::ReadError;
use crate::streams::read_bounded;
use std::alloc::Global;
use std::io::Read;

/// What opens files.
pub trait OpensFiles {
    /// An open file.
    type Opened: Read + Drop;

    /// The contents of each file, where they are known. No call changes them.
    ghost contents: { Self → Option Contents };

    /// The file of the path, and the system's word on how long it is, which only decides how much room is made.
    fn open_file(&mut self, path: &str) -> Result<(Self::Opened, u64), ReadError>
        ensures unchanged { contents self.new ≡ contents self.old }
        ensures opens { IsFileOpened (λ file. Self.Opened.remaining file) (contents self.old) path.now result };
}

/// The bytes of a file that has at most `most`; else it is too long.
pub fn read_file<O: OpensFiles>(
    alloc: Global,
    opens: &mut O,
    path: &str,
    most: u64,
) -> Result<Vec<u8>, ReadError>
    ensures unchanged { O.contents opens.new ≡ O.contents opens.old }
    ensures reads { ReadsFile (λ bytes. bytes.items) (O.contents opens.old) path.now most result }
{
    let (mut file, expected) = opens.open_file(path)?;
    read_bounded(alloc, &mut file, most, expected)
}
