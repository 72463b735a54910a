ghost use Rattle.std.specs.Prelude.{Decides};
ghost use Rattle.page_edits.specs.Edit.{Appended, with_pair};
ghost use Rattle.page_edits.specs.Write.{Fits};
ghost use Rattle.pages.specs.Blank.{bytes_of};
ghost use Rattle.pages.specs.Page.{pairs_of};

use crate::packing::Packing;
use faults::{Fault, Refusal};
use pages::{PAGE, PairPage};

// Whether the pair fits beside those of the page.
pub fn fits(page: &PairPage, key: &[u8], value: &[u8]) -> bool
    ensures { Decides result (Fits (with_pair (pairs_of (bytes_of page.now.good)) key.now value.now)) }
{
    Packing::of(page).can_take(key, value) && page.number_of(key).is_none()
}

// The page with one more pair after the others, and whether it fits; where it does not, the buffer stays as it was.
pub fn append(page: &PairPage, key: &[u8], value: &[u8], out: &mut [u8]) -> Result<bool, Fault>
    ensures { Appended (with_pair (pairs_of (bytes_of page.now.good)) key.now value.now) out.old result out.new }
{
    // These lines stand in each edit: a function that hands a `&mut` out in a Result gets no clause for what comes back.
    let Some(out) = out.as_mut_array::<PAGE>() else {
        return Err(Fault::database(Refusal::NotABlock, 0));
    };
    if !fits(page, key, value) {
        return Ok(false);
    }
    out.copy_from_slice(page.bytes());
    let mut packing = Packing::of(page);
    packing.push(key, value, out);
    packing.finish(out);
    Ok(true)
}
