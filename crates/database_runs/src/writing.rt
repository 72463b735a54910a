// Calls that write, on a database and on the model, and what they answer, side by side.
use crate::bench::{Bench, Stop};
use crate::choices::{Coded, random_value};
use crate::model::claims::with_memory;
use crate::model::packing::Entry;
use crate::model::storing::{delete, store};
use crate::tally::count;
use crate::watched::Watched;
use calls::Mode;
use database::Database;
use devices::Device;
use faults::Fault;

impl Bench {
    pub fn store<D: Device + Drop>(
        &mut self,
        device: &mut Watched<D>,
        mode: Mode,
    ) -> Result<(), Stop> {
        let key = self.key()?;
        let value = random_value(&mut self.random, key.as_slice())?;
        let mut database = Database::new(&mut *device);
        let got = database.store(key.as_slice(), value.as_slice(), mode);
        count(&mut self.writes.stores);
        self.same_store(device, got, key, value, mode)
    }

    pub fn put<R: Coded, D: Device + Drop>(&mut self, device: &mut Watched<D>) -> Result<(), Stop> {
        let key = self.key()?;
        let record = R::random(&mut self.random);
        let value = record.coded(self.heap)?;
        let mut database = Database::new(&mut *device);
        let got = database.put(key.as_slice(), &record);
        count(&mut self.writes.puts);
        self.same_store(device, got, key, value, Mode::Replace)
    }

    // Stores in the model too, and compares.
    fn same_store<D: Device + Drop>(
        &mut self,
        device: &Watched<D>,
        got: Result<(), Fault>,
        key: Vec<u8>,
        value: Vec<u8>,
        mode: Mode,
    ) -> Result<(), Stop> {
        let wanted = with_memory(store(
            &mut self.model,
            &mut self.claims,
            key.as_slice(),
            value.as_slice(),
            mode,
        ))?;
        self.writes.count_store(wanted);
        self.same("the answer of a store", &got, &wanted.map(|_| ()))?;
        self.same_trail(device)?;
        if wanted.is_ok() {
            self.list_without(key.as_slice());
            if let Some(list) = &mut self.list {
                list.push(Entry { key, value })?;
            }
        }
        Ok(())
    }

    pub fn delete<D: Device + Drop>(&mut self, device: &mut Watched<D>) -> Result<(), Stop> {
        let key = self.key()?;
        let mut database = Database::new(&mut *device);
        let got = database.delete(key.as_slice());
        let wanted = with_memory(delete(&mut self.model, &mut self.claims, key.as_slice()))?;
        count(&mut self.writes.deletes);
        self.writes.count_delete(wanted);
        self.same("the answer of a delete", &got, &wanted)?;
        self.same_trail(device)?;
        if wanted.is_ok() {
            self.list_without(key.as_slice());
        }
        Ok(())
    }

    pub fn flush<D: Device + Drop>(&mut self, device: &mut Watched<D>) -> Result<(), Stop> {
        let mut database = Database::new(&mut *device);
        let got = database.flush();
        count(&mut self.writes.flushes);
        self.model.trail.flush();
        self.same("the answer of a flush", &got, &Ok(()))?;
        self.same_trail(device)
    }

    // Drops a key from the list.
    fn list_without(&mut self, key: &[u8]) {
        if let Some(list) = &mut self.list {
            list.retain(|entry| entry.key.as_slice() != key);
        }
    }
}
