// A member of a library: nine bytes.
ghost use Rattle.std.specs.Prelude.{◌≡◌};
ghost use Rattle.std.specs.Option.{ok_or};
ghost use Rattle.records.specs.Member.{member_code, member_decoded, member_fits, sort_byte, sort_of};
ghost use Rattle.records.specs.MemberLaws.{member_back, member_bounded, member_fixed, member_only};

use crate::{LONGEST, Record};
use thiserror::Error;

// What a member holds for the linker: an object with code in it, data alone, or neither, as a script does. The first is no `Code`,
// since a code is the bytes of a record here.
#[derive(Clone, Copy, PartialEq, Eq, Debug)]
pub enum Sort {
    Object = 0,
    Data = 1,
    Other = 2,
}

impl Sort {
    // By these a byte is turned back: the bytes stand at the variants alone.
    const ALL: [Sort; 3] = [Sort::Object, Sort::Data, Sort::Other];
}

// A byte that no sort has.
#[derive(Clone, Copy, PartialEq, Eq, Debug, Error)]
#[error("no sort of member has byte {0}")]
pub struct UnknownSort(pub u8);

impl From<Sort> for u8 {
    ghost from_gives = { λ sort byte. byte ≡ sort_byte sort };

    fn from(sort: Sort) -> u8 {
        sort as u8
    }
}

impl TryFrom<u8> for Sort {
    type Error = UnknownSort;

    ghost try_from_gives = { λ byte result. result ≡ ok_or (sort_of byte) (record { 0 = byte }) };

    fn try_from(byte: u8) -> Result<Sort, UnknownSort> {
        Sort::ALL
            .into_iter()
            .find(|sort| u8::from(*sort) == byte)
            .ok_or(UnknownSort(byte))
    }
}

// Where a member of a library lies, and what it is.
#[derive(Clone, Copy, PartialEq, Eq, Debug)]
pub struct Member {
    pub offset: u32,
    pub length: u32,
    pub sort: Sort,
}

#[tactic(auto, unfolding(crate::specs::Member::member_code, crate::specs::Member::member_decoded, crate::specs::Member::member_fits))]
impl Record for Member {
    ghost code = { member_code };

    ghost decoded = { member_decoded };

    ghost fits = { member_fits };

    ghost width = { 9 };

    ghost bounded = { member_bounded };

    ghost back = { member_back };

    ghost only = { member_only };

    ghost fixed = { member_fixed };

    fn encode(&self, into: &mut [u8; LONGEST]) -> usize {
        // By name, so that a new field cannot be left out.
        let Member {
            offset,
            length,
            sort,
        } = *self;
        into[..4].copy_from_slice(&offset.to_le_bytes());
        into[4..8].copy_from_slice(&length.to_le_bytes());
        into[8] = sort.into();
        9
    }

    fn decode(bytes: &[u8]) -> Option<Member> {
        let [o0, o1, o2, o3, l0, l1, l2, l3, sort] = *bytes else {
            return None;
        };
        Some(Member {
            offset: u32::from_le_bytes([o0, o1, o2, o3]),
            length: u32::from_le_bytes([l0, l1, l2, l3]),
            sort: sort.try_into().ok()?,
        })
    }
}
