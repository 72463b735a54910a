ghost use Rattle.std.specs.Prelude.{◌≡◌, false, IfOk, MatchOption, MatchResult, Decides};
ghost use Rattle.slotted.specs.Image.{Indexed, WellFormed, well_formed};

use crate::bytes::RECORD;
use crate::entry::Entry;
use crate::index::scan;
use crate::slotted::Slotted;
use devices::MOST_BLOCKS;
use std::alloc::{AllocError, AllocFailed, Global};

// The index of the records in the bytes, and how many of them are used; nothing where the bytes are not well-formed.
fn indexed(heap: Global, bytes: &[u8]) -> Result<Option<(Vec<Entry>, usize)>, AllocError>
    ensures { IfOk result (λ found. MatchOption found (well_formed bytes.now ≡ false) (λ p. Indexed bytes.now p.0.items p.1)) }
{
    let records = bytes.len() / RECORD;
    if RECORD * records != bytes.len() || records > MOST_BLOCKS as usize {
        return Ok(None);
    }
    let mut index = vec![in heap; Entry::none(); MOST_BLOCKS as usize]?;
    let Some(used) = scan(bytes, &mut index) else {
        return Ok(None);
    };
    Ok(Some((index, used)))
}

impl Slotted {
    // Takes the bytes over, whatever they are. Where there is no memory for the index they are given back.
    #[tactic(auto, using(crate::proofs::Opens::unused, crate::proofs::Images::limit_out, crate::proofs::Images::used_out, crate::proofs::Images::left_out))]
    pub fn open(heap: Global, bytes: Vec<u8>) -> Result<Slotted, AllocFailed<Vec<u8>>>
        ensures { MatchResult result (λ s. s.bytes ≡ bytes) (λ e. e.value ≡ bytes) }
    {
        match indexed(heap, &bytes) {
            Ok(Some((index, used))) => {
                let left = (bytes.len() / RECORD - used) as u32;
                Ok(Slotted {
                    bytes,
                    index,
                    used,
                    left,
                })
            }
            Ok(None) => Ok(Slotted {
                bytes,
                index: Vec::new(heap),
                used: 0,
                left: 0,
            }),
            Err(_) => Err(AllocFailed { value: bytes }),
        }
    }

    // Gives the bytes back, as the calls left them.
    pub fn into_bytes(self) -> Vec<u8>
        ensures { result ≡ self.bytes }
    {
        self.bytes
    }

    // Whether the bytes are well-formed.
    #[tactic(auto, using(crate::proofs::Opens::index_tells))]
    pub fn well_formed(&self) -> bool
        ensures { Decides result (WellFormed self.now.bytes.items) }
    {
        !self.index.is_empty()
    }
}
