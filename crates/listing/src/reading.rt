// What is read of a database, as it lies in the page that was read last.
ghost use Rattle.std.specs.Prelude.{◌≡◌};
ghost use Rattle.contents.specs.Blocks.{blocks_of};
ghost use Rattle.contents.specs.Contents.{contents_of};
ghost use Rattle.calls.specs.Fetch.{fetch_calls, fetched};
ghost use Rattle.calls.specs.Shown.{ShowsNext};
ghost use Rattle.calls.specs.Step.{step_calls, stepped};
ghost use Rattle.listing.specs.Shown.{ShowsBytes, ShowsPair, accepted, after_shown, after_step};
ghost use Rattle.lookup.specs.Made.{Made};

use database::{Database, Position, Stepped};
use devices::Device;
use faults::Fault;
use pages::{PAGE, view};

// A pair, and the position after it.
#[derive(Clone, Copy)]
pub(crate) struct Shown<'a> {
    pub(crate) key: &'a [u8],
    pub(crate) value: &'a [u8],
    pub(crate) next: Position,
}

// The first pair at or after a position. Only what the step refuses is refused, by the same refusal.
pub(crate) fn next_pair<'a, D: Device>(
    database: &mut Database<D>,
    at: Position,
    page: &'a mut [u8; PAGE],
) -> Result<Option<Shown<'a>>, Fault>
    ensures made { Made D.Device.steps D.Device.meaning database.old.device (λ blocks. step_calls blocks at 1024) (λ blocks. after_step (stepped blocks at 1024)) (after_shown result) database.new.device }
    ensures pair { ShowsPair (contents_of (blocks_of (D.Device.meaning database.old.device))) at result }
    ensures same { blocks_of (D.Device.meaning database.new.device) ≡ blocks_of (D.Device.meaning database.old.device) }
{
    match step(database, at, page)? {
        Stepped::Pair((key, value, next)) => Ok(Some(Shown {
            key: view(page, key)?,
            value: view(page, value)?,
            next,
        })),
        Stepped::End => Ok(None),
    }
}

// A step of a walk, which leaves the blocks as they are.
fn step<D: Device>(
    database: &mut Database<D>,
    at: Position,
    page: &mut [u8; PAGE],
) -> Result<Stepped, Fault>
    ensures made { Made D.Device.steps D.Device.meaning database.old.device (λ blocks. step_calls blocks at 1024) (λ blocks. stepped blocks at 1024) result database.new.device }
    ensures shows { ShowsNext (contents_of (blocks_of (D.Device.meaning database.old.device))) at result page.new }
    ensures same { blocks_of (D.Device.meaning database.new.device) ≡ blocks_of (D.Device.meaning database.old.device) }
{
    database.step(at, page)
}

// The value of a name. Only what the fetch refuses is refused, by the same refusal.
pub(crate) fn value_of<'a, D: Device>(
    database: &mut Database<D>,
    name: &[u8],
    page: &'a mut [u8; PAGE],
) -> Result<Option<&'a [u8]>, Fault>
    ensures made { Made D.Device.steps D.Device.meaning database.old.device (λ blocks. fetch_calls blocks name.now 1024) (λ blocks. accepted (fetched blocks name.now 1024)) (accepted result) database.new.device }
    ensures shows { ShowsBytes (contents_of (blocks_of (D.Device.meaning database.old.device))) name.now result }
{
    match database.fetch(name, page)? {
        Some(place) => Ok(Some(view(page, place)?)),
        None => Ok(None),
    }
}
