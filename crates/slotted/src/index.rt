ghost use Rattle.std.specs.Prelude.{◌≤◌};
ghost use Rattle.slotted.specs.Records.{records, table_of};
ghost use Rattle.slotted.specs.Table.{Listed, Scanned};

use crate::bytes::*;
use crate::entry::Entry;

// Looks at every record, into an index of numbers that have no record: how many records are used, or nothing where one is
// not good.
pub(crate) fn scan(bytes: &[u8], index: &mut [Entry]) -> Option<usize>
    requires few { records bytes.now ≤ 65544 }
    requires listed { Listed (table_of bytes.now) 0 index.old }
    ensures { Scanned (table_of bytes.now) (records bytes.now) index.new result }
{
    let mut used = 0;
    for (k, bytes) in bytes.chunks_exact(RECORD).enumerate() {
        let record = Record { bytes };
        if !record.marked() {
            if record.blank() {
                continue;
            }
            return None;
        }
        let n = record.number() as usize;
        if used != k || n >= index.len() || index[n].is_some() {
            return None;
        }
        index[n] = Entry::of(k as u32);
        used += 1;
    }
    Some(used)
}
