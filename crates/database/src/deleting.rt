ghost use Rattle.calls.specs.Delete.{delete_calls, deleted};
ghost use Rattle.lookup.specs.Made.{Made};

use crate::Database;
use devices::{BLOCK, Device};
use faults::{Fault, Layer, Refusal};
use keys::hash_of;
use lookup::{DIRECTORY_BLOCKS, good_page, read_home};
use page_edits::keep_others;

impl<D: Device> Database<D> {
    // Removes a key's pair, and says whether it was there. The page's strays go with it.
    pub fn delete(&mut self, key: &[u8]) -> Result<bool, Fault>
        ensures { Made D.Device.steps D.Device.meaning self.old.device (λ blocks. delete_calls blocks key.now) (λ blocks. deleted blocks key.now) result self.new.device }
    {
        if key.is_empty() {
            return Err(Layer::Database.fault(Refusal::EmptyKey, 0));
        }
        let mut block = [0; BLOCK];
        let leaf = read_home(&mut self.device, hash_of(key), &mut block)?;
        let home = DIRECTORY_BLOCKS + leaf.page;
        let page = good_page(&block, home)?;
        if page.find(key).is_none() {
            return Ok(false);
        }
        let mut rest = [0; BLOCK];
        keep_others(&page, key, leaf.depth, leaf.page, &mut rest)?;
        self.device.write(home, &rest)?;
        Ok(true)
    }
}
