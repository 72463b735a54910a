ghost use Rattle.std.specs.Prelude.{◌≡◌, ◌+◌, ◌<◌, ◌≤◌, length, List, Ok, Err, Option as Maybe, OnOk, IfOk, Some};
ghost use Rattle.contents.specs.Blocks.{blocks_of};
ghost use Rattle.contents.specs.Contents.{contents_of, held};
ghost use Rattle.calls.specs.Fetch.{BufferHas, fetch_calls, fetched, found, got, home_bytes, record_at};
ghost use Rattle.calls.specs.Shown.{HoldsValue, ShowsRecord, ShowsValue};
ghost use Rattle.lookup.specs.Made.{Made};

use crate::Database;
use devices::{BLOCK, Device};
use faults::{Fault, Layer, Refusal};
use keys::hash_of;
use lookup::{DIRECTORY_BLOCKS, good_page, read_home};
use pages::Place;
use records::Record;

impl<D: Device> Database<D> {
    // Where the value of a key lies in its home page, which is then in the caller's buffer.
    pub fn fetch(&mut self, key: &[u8], page: &mut [u8]) -> Result<Option<Place>, Fault>
        ensures made { Made D.Device.steps D.Device.meaning self.old.device (λ blocks. fetch_calls blocks key.now (length page.old)) (λ blocks. fetched blocks key.now (length page.old)) result self.new.device }
        ensures page { BufferHas result (home_bytes (blocks_of (D.Device.meaning self.old.device)) key.now) page.old page.new }
        ensures shows { ShowsValue (contents_of (blocks_of (D.Device.meaning self.old.device))) key.now result page.new }
    {
        let mut block = [0; BLOCK];
        let (_, place) = self.find(key, page.len(), &mut block)?;
        page.copy_from_slice(&block);
        Ok(place)
    }

    // The record that the key's value is the code of; its page is then in the caller's buffer.
    pub fn get<R: Record>(&mut self, key: &[u8], page: &mut [u8]) -> Result<Option<R>, Fault>
        ensures made { Made D.Device.steps D.Device.meaning self.old.device (λ blocks. fetch_calls blocks key.now (length page.old)) (λ blocks. got R.Record.decoded blocks key.now (length page.old)) result self.new.device }
        ensures page { BufferHas result (home_bytes (blocks_of (D.Device.meaning self.old.device)) key.now) page.old page.new }
        ensures shows { ShowsRecord R.Record.decoded (contents_of (blocks_of (D.Device.meaning self.old.device))) key.now result }
        ensures back { (x : R) → R.Record.fits x → HoldsValue (contents_of (blocks_of (D.Device.meaning self.old.device))) key.now (R.Record.code x)
            → 0 < length key.now → length page.old ≡ 1024
            → got R.Record.decoded (blocks_of (D.Device.meaning self.old.device)) key.now (length page.old) ≡ Ok (Some x) }
    {
        let mut block = [0; BLOCK];
        let (home, place) = self.find(key, page.len(), &mut block)?;
        let record = match place {
            Some(place) => Some(record_at(&block, home, place)?),
            None => None,
        };
        page.copy_from_slice(&block);
        Ok(record)
    }

    // The block of a key's home page, which is read into the buffer, and where the key's value lies in it.
    fn find(
        &mut self,
        key: &[u8],
        size: usize,
        block: &mut [u8; BLOCK],
    ) -> Result<(u32, Option<Place>), Fault>
        ensures made { Made D.Device.steps D.Device.meaning self.old.device (λ blocks. fetch_calls blocks key.now size) (λ blocks. found blocks key.now size) result self.new.device }
        ensures block { OnOk result (block.new ≡ home_bytes (blocks_of (D.Device.meaning self.old.device)) key.now) }
    {
        if key.is_empty() {
            return Err(Layer::Database.fault(Refusal::EmptyKey, 0));
        }
        if size != BLOCK {
            return Err(Layer::Database.fault(Refusal::NotABlock, 0));
        }
        let home = DIRECTORY_BLOCKS + read_home(&mut self.device, hash_of(key), block)?.page;
        let page = good_page(block, home)?;
        Ok((home, page.find(key)))
    }
}

// The record that the bytes at a place of a page are the code of; refused 13 where they are none, naming the page's block.
fn record_at<R: Record>(page: &[u8; BLOCK], block: u32, place: Place) -> Result<R, Fault>
    requires { place.0 + place.1 ≤ 1024 }
    ensures { result ≡ record_at R.Record.decoded page.now block place }
{
    let (offset, len) = (usize::from(place.0), usize::from(place.1));
    R::decode(&page[offset..offset + len]).ok_or(Layer::Database.fault(Refusal::NoCode, block))
}
