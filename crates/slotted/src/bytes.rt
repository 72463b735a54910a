ghost use Rattle.std.specs.Prelude.{◌≡◌, ◌≤◌, length};
ghost use Rattle.slotted.specs.Bytes.{word};
ghost use Rattle.slotted.specs.Records.{blank_at, fresh, marked_at};

use devices::BLOCK;

// A record is a header, with a mark of two bytes and a number of four, and a block.
pub(crate) const HEADER: usize = 6;

pub(crate) const RECORD: usize = HEADER + BLOCK;

// A record, or its header at least.
#[derive(Clone, Copy)]
pub(crate) struct Record<'a> {
    pub(crate) bytes: &'a [u8],
    ghost header: { 6 ≤ length bytes.now },
}

impl<'a> Record<'a> {
    // Whether it has the mark of a used one.
    pub(crate) fn marked(&self) -> bool
        ensures { result ≡ marked_at self.now.bytes.now 0 }
    {
        self.bytes.starts_with(b"SD")
    }

    // Whether it has the mark of a free one.
    pub(crate) fn blank(&self) -> bool
        ensures { result ≡ blank_at self.now.bytes.now 0 }
    {
        self.bytes.starts_with(b"\0\0")
    }

    // Its number. Four reads: `first_chunk` would answer an Option, for a None that cannot be.
    pub(crate) fn number(&self) -> u32
        ensures { result ≡ word self.now.bytes.now 2 }
    {
        let bytes = self.bytes;
        u32::from_le_bytes([bytes[2], bytes[3], bytes[4], bytes[5]])
    }
}

// Makes a record a used one with a number and a block of zeros.
pub(crate) fn put_fresh(bytes: &mut [u8], n: u32)
    requires { length bytes.old ≡ RECORD }
    ensures { bytes.new ≡ fresh n }
{
    bytes[..2].copy_from_slice(b"SD");
    bytes[2..HEADER].copy_from_slice(&n.to_le_bytes());
    bytes[HEADER..].fill(0);
}
